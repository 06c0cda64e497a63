ghost use Rattle.std.specs.Prelude.{◌≡◌, IfOk};

use cp_tree::{SharedContent, SharedLabel};
use std::alloc::AllocError;

/// A place below the root: its label, what stands there, and how many rows lie below it, which follow it.
///
/// `last` is 0, or else one more than the index, among the rows below, of the row of its last child.
#[derive(Drop)]
pub(crate) struct TreeRow {
    pub(crate) label: SharedLabel,
    pub(crate) item: SharedContent,
    pub(crate) below: u32,
    pub(crate) last: u32,
}

impl TreeRow {
    /// Makes an equal row, which shares a long label and a text.
    pub(crate) fn share(&self) -> Result<TreeRow, AllocError>
        ensures { IfOk result (λ r. r ≡ self.now) }
    {
        Ok(TreeRow {
            label: self.label.share()?,
            item: self.item.share()?,
            below: self.below,
            last: self.last,
        })
    }
}
