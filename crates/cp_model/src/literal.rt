use cp_path::{Label, Value};
use std::marker::Model;

/// A tree as a statement writes it.
#[cycle(literal)]
#[derive(Drop)]
pub enum Literal {
    Leaf(Value),
    Node(LitList),
}

/// A label, and the literal tree below it.
#[cycle(literal)]
#[derive(Drop)]
pub struct LitEdge {
    pub label: Label,
    pub tree: Literal,
}

/// The edges below a node of a literal tree, seen as the rows of all that is below it.
/// The labels of siblings rise strictly.
#[cycle(literal)]
#[derive(Drop)]
pub struct LitList {
    pub items: Vec<LitEdge>,
}

impl Model for LitList {
    ghost use Rattle.std.specs.Prelude.{ℕ, List, length};
    ghost use Rattle.cp_model.specs.declared.row.Content.{Content};
    ghost use Rattle.cp_model.specs.Codes.{rows_code};

    ghost Value = { List (List (List ℕ) × Content) };

    ghost coded = { rows_code };

    ghost use Rattle.cp_model.specs.Literals.{edge_rows};

    ghost view = { λ a. edge_rows a.items.items };

    ghost size = { length };

    ghost use Rattle.cp_model.specs.Falls.{list_falls};

    ghost size_decreases = { λ a h. list_falls a };
}
