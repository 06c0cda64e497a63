ghost use Rattle.std.specs.Prelude.{◌≡◌, ◌+◌, vec_len};
ghost use Rattle.cp_path.specs.declared.limits.TheConstants.{LABELS_MAX, LOC_MAX};

/// The number of places of a tree, its weight, and how many of its places have each number of labels and each size.
#[derive(Drop)]
pub(crate) struct Tally {
    pub(crate) places: u32,
    pub(crate) weight: u64,
    pub(crate) depths: Vec<u32>,
    pub(crate) sizes: Vec<u32>,
    ghost all_depths: { vec_len depths ≡ LABELS_MAX + 1 },
    ghost all_sizes: { vec_len sizes ≡ LOC_MAX },
}
