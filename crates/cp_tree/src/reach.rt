/// How far a subtree reaches. `inner` is its weight without the bytes of its root's own label; `depth` and `size` are
/// the greatest number of labels, and of their bytes with 1 for each label, that a place of it has below its root.
#[derive(Clone, Copy, PartialEq, Eq)]
pub struct Reach {
    pub nodes: u32,
    pub inner: u64,
    pub depth: u32,
    pub size: u32,
}
