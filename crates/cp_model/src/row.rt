use cp_path::{Path, Value};
use std::marker::Model;

/// What stands at a place: a node, or a leaf with its value.
#[derive(Clone, PartialEq, Eq, Drop)]
pub enum Content {
    Node,
    Leaf(Value),
}

/// A place of a tree, from the tree's root or the root of a subtree, and what stands there.
#[derive(PartialEq, Eq, Drop)]
pub struct Row {
    pub path: Path,
    pub content: Content,
}

/// The rows of a tree, in the order of their places.
#[derive(Drop)]
pub struct RowList {
    pub items: Vec<Row>,
}

impl Model for RowList {
    ghost use Rattle.std.specs.Prelude.{List};
    ghost use Rattle.cp_model.specs.declared.row.Row.{Row};

    ghost Value = { List Row };

    ghost view = { λ a. a.items.items };
}
