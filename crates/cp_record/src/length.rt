ghost use Rattle.std.specs.Prelude.{◌≡◌, ◌≤◌, ◌+◌, [], length, sum_by};
ghost use Rattle.cp_model.specs.Literals.{literal_rows};
ghost use Rattle.cp_model.specs.Tree.{weight_of};
ghost use Rattle.cp_model.specs.declared.row.Content.TheVariants.{Leaf};
ghost use Rattle.cp_record.specs.Bytes.{op_length, path_length, place_length, content_length, tree_length, inserted_length};
ghost use Rattle.cp_record.specs.Packed.{IsSmall, AreBelow, IsTreeOfRows};

use cp_model::{ENTRY_MAX, LitList, Literal, Op, WEIGHT_MAX};
use cp_path::{LABEL_MAX, Label, Loc, Path, Value};

// A label behind its length.
fn label_length(label: &Label) -> u64
    ensures length { result ≡ 1 + length label.now }
    ensures bound { length label.now ≤ LABEL_MAX }
{
    1 + label.as_str().len() as u64
}

// The number of labels, and these.
fn path_length(path: &Path) -> u64
    ensures length { result ≡ path_length path.now }
    ensures bound { path_length path.now ≤ 16385 }
{
    let mut total = 1;
    for label in path.labels() {
        total += label_length(label);
    }
    total
}

fn place_length(place: &Loc) -> u64
    ensures length { result ≡ place_length place.now }
    ensures bound { place_length place.now ≤ 16418 }
{
    1 + place.db.as_str().len() as u64 + path_length(&place.path)
}

fn value_length(value: &Value) -> u64
    requires { weight_of ([], Leaf value.now) ≤ WEIGHT_MAX }
    ensures { result ≡ content_length (Leaf value.now) }
{
    match value {
        Value::Null | Value::False | Value::True => 1,
        Value::Whole(_) => 9,
        Value::Text(text) => 5 + text.items.as_str().len() as u64,
    }
}

// The edges below a node, each with its tree.
#[cycle(tree)]
fn edges_length(list: &LitList) -> u64
    requires weight { sum_by weight_of list.now ≤ WEIGHT_MAX }
    ensures length { result ≡ tree_length list.now }
    ensures below { AreBelow list.now }
{
    let mut total = 0;
    for edge in &list.items {
        total += label_length(&edge.label) + rows_length(&edge.tree);
    }
    total
}

#[cycle(tree)]
fn rows_length(tree: &Literal) -> u64
    requires weight { sum_by weight_of (literal_rows tree.now) ≤ WEIGHT_MAX }
    ensures length { result ≡ tree_length (literal_rows tree.now) }
    ensures below { IsTreeOfRows tree.now }
{
    match tree {
        Literal::Leaf(value) => value_length(value),
        Literal::Node(list) => 5 + edges_length(list),
    }
}

// A content alone, or a tree.
fn inserted_length(tree: &Literal) -> u64
    requires { sum_by weight_of (literal_rows tree.now) ≤ WEIGHT_MAX }
    ensures length { result ≡ inserted_length tree.now }
    ensures bound { inserted_length tree.now ≤ WEIGHT_MAX }
{
    match tree {
        Literal::Leaf(value) => value_length(value),
        Literal::Node(list) => {
            if list.items.is_empty() {
                1
            } else {
                5 + edges_length(list)
            }
        }
    }
}

/// The bytes of an operation in a commit's entry. Costs the operation's places.
pub fn op_length(op: &Op) -> u64
    requires small { IsSmall op.now }
    ensures length { result ≡ op_length op.now }
    ensures bound { op_length op.now ≤ ENTRY_MAX }
{
    match op {
        Op::Ins { into, label, tree } => {
            1 + path_length(&into.path) + label_length(label) + inserted_length(tree)
        }
        Op::Del { label, from } => 1 + path_length(&from.path) + label_length(label),
        Op::Copy { from, into } => 1 + place_length(from) + path_length(&into.path),
    }
}
