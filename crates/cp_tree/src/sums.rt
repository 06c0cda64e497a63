ghost use Rattle.std.specs.Prelude.{◌≡◌, ◌≤◌, [], ◌∷◌};
ghost use Rattle.cp_tree.specs.Sums.{sums_of, beside, seen_above, reach_of_sums, AreSmall};

use crate::reach::Reach;
use cp_model::PLACE_WEIGHT;
use cp_path::TEXT_MAX;

/// What the places below a root add up to, the labels of its children counted: their number, their weight, and the
/// greatest size and number of labels of one. It takes 12 bytes.
#[derive(Clone, Copy)]
pub struct Sums {
    pub nodes: u32,
    pub inner: u32,
    pub size: u16,
    pub depth: u8,
}

impl Sums {
    /// Gives those of no place.
    pub fn none() -> Sums
        ensures { result ≡ sums_of [] }
    {
        Sums {
            nodes: 0,
            inner: 0,
            size: 0,
            depth: 0,
        }
    }

    /// Adds those of further children of the same node.
    pub fn beside(self, other: Sums) -> Sums
        requires { AreSmall (beside self other) }
        ensures { result ≡ beside self other }
    {
        Sums {
            nodes: self.nodes + other.nodes,
            inner: self.inner + other.inner,
            size: self.size.max(other.size),
            depth: self.depth.max(other.depth),
        }
    }

    /// Adds the root itself, at a label of that many bytes and with a text of that many: what its parent has of it.
    pub fn seen_above(self, label: usize, text: usize) -> Sums
        requires { AreSmall (seen_above label text self) }
        ensures { result ≡ seen_above label text self }
    {
        Sums {
            nodes: self.nodes + 1,
            inner: self.inner + PLACE_WEIGHT as u32 + label as u32 + text as u32,
            size: self.size + label as u16 + 1,
            depth: self.depth + 1,
        }
    }

    /// Gives the reach of the tree of a root with a text of that many bytes.
    pub fn reach(self, text: usize) -> Reach
        requires small { AreSmall self }
        requires text { text ≤ TEXT_MAX }
        ensures { result ≡ reach_of_sums text self }
    {
        Reach {
            nodes: self.nodes + 1,
            inner: PLACE_WEIGHT + text as u64 + u64::from(self.inner),
            depth: u32::from(self.depth),
            size: u32::from(self.size),
        }
    }
}
