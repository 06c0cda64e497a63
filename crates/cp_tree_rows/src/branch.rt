ghost use Rattle.std.specs.Prelude.{T};
ghost use Rattle.cp_tree_rows.specs.Forest.{is_part};

use crate::row::TreeRow;
use cp_tree::SharedContent;

/// A tree: what stands at its root, where its last child is, and the rows below.
#[derive(Drop)]
pub(crate) struct RowBranch {
    pub(crate) item: SharedContent,
    pub(crate) last: u32,
    pub(crate) rows: Vec<TreeRow>,
    ghost part: { T (is_part item last rows.items) },
}
