ghost use Rattle.std.specs.Prelude.{◌≡◌, true, ◌≤◌, ◌<◌, ◌+◌, ◌^◌, List, length};
ghost use Rattle.cp_model.specs.Subtrees.{is_there};
ghost use Rattle.cp_model.specs.Cases.{first_case};
ghost use Rattle.cp_model.specs.Tree.{Source, refusal, at_node, text_bytes};
ghost use Rattle.cp_model.specs.History.{IsWritten, IsLiteral};
ghost use Rattle.cp_model.specs.Literals.{literal_rows};
ghost use Rattle.cp_model.specs.declared.op.Op.TheVariants.{Ins, Del, Copy};
ghost use Rattle.cp_model.specs.declared.row.Content.TheVariants.{Leaf};
ghost use Rattle.cp_operation.specs.Loaded.{sources_in};
ghost use Rattle.cp_operation.specs.Reaching.{reach_with, alone_at, literal_reach, over_by, limit_passed, copied_cases};

use crate::sources::Sources;
use cp_model::{Literal, NODES_MAX, Op, PLACE_WEIGHT, Refusal, WEIGHT_MAX};
use cp_path::{LABEL_MAX, LABELS_MAX, LOC_MAX, Label, Loc, Value};
use cp_tree::{Reach, TreeRep};

/// The first case that refuses the operation on this tree with these sources, if there is one. Takes no memory. Costs
/// the way to the places that it names, the literal of an insertion, and the two subtrees of a copy.
pub fn check<R: TreeRep, S: TreeRep>(tree: &R, sources: &Sources<S>, op: &Op) -> Option<Refusal>
    requires written { IsWritten op.now }
    ensures { result ≡ refusal (sources_in S.contents sources.now) (R.contents tree.now) op.now }
{
    match op {
        Op::Ins {
            into,
            label,
            tree: literal,
        } => check_insertion(tree, into, label, literal),
        Op::Del { label, from } => check_deletion(tree, label, from),
        Op::Copy { from, into } => check_copy(tree, sources, from, into),
    }
}

/// Why the place isn't a node of the curated tree, if it isn't.
fn check_node<R: TreeRep>(tree: &R, p: &Loc) -> Option<Refusal>
    ensures { result ≡ first_case (at_node (R.contents tree.now) p.now) }
{
    if !p.db.is_target() {
        return Some(Refusal::ReadOnly);
    }
    if !tree.is_there(&p.path) {
        return Some(Refusal::NoPlace);
    }
    if !tree.is_node(&p.path) {
        return Some(Refusal::NotANode);
    }
    None
}

/// Costs the way to the place.
fn check_deletion<R: TreeRep>(tree: &R, label: &Label, from: &Loc) -> Option<Refusal>
    ensures { (ss : List Source) → result ≡ refusal ss (R.contents tree.now) (Del label.now from.now) }
{
    if let Some(why) = check_node(tree, from) {
        return Some(why);
    }
    if !tree.has_child(&from.path, label) {
        return Some(Refusal::NoLabel);
    }
    None
}

/// Costs the way to the place, and the literal.
fn check_insertion<R: TreeRep>(
    tree: &R,
    into: &Loc,
    label: &Label,
    literal: &Literal,
) -> Option<Refusal>
    requires written { IsLiteral (literal_rows literal.now) }
    ensures { (ss : List Source) → result ≡ refusal ss (R.contents tree.now) (Ins into.now label.now literal.now) }
{
    if let Some(why) = check_node(tree, into) {
        return Some(why);
    }
    if tree.has_child(&into.path, label) {
        return Some(Refusal::LabelThere);
    }
    let added = reach_of_literal(label, literal);
    if is_over(into, added.depth, added.size) {
        return Some(Refusal::TooDeep);
    }
    check_limits(tree.count() + added.nodes, tree.weight() + added.inner)
}

/// Costs the ways to both places, and their subtrees where the trees don't keep what they reach.
fn check_copy<R: TreeRep, S: TreeRep>(
    tree: &R,
    sources: &Sources<S>,
    from: &Loc,
    into: &Loc,
) -> Option<Refusal>
    ensures { result ≡ refusal (sources_in S.contents sources.now) (R.contents tree.now) (Copy from.now into.now) }
{
    if !into.db.is_target() {
        return Some(Refusal::ReadOnly);
    }
    if !tree.is_there(&into.path) {
        return Some(Refusal::NoPlace);
    }
    if from.db.is_target() {
        return check_copied(tree, tree, from, into);
    }
    match sources.get(&from.db) {
        Some(source) => check_copied(tree, source, from, into),
        None => Some(Refusal::NoSource),
    }
}

/// Why a copy of a place of `other` onto a place that is there is refused, if it is.
fn check_copied<R: TreeRep, O: TreeRep>(
    tree: &R,
    other: &O,
    from: &Loc,
    into: &Loc,
) -> Option<Refusal>
    requires there { is_there (R.contents tree.now) into.now.path ≡ true }
    ensures { result ≡ first_case (copied_cases (O.contents other.now) from.now.path (R.contents tree.now) into.now) }
{
    if !other.is_there(&from.path) {
        return Some(Refusal::NoOrigin);
    }
    let copied = other.reach(&from.path);
    if is_over(into, copied.depth, copied.size) {
        return Some(Refusal::TooDeep);
    }
    let replaced = tree.reach(&into.path);
    let nodes = tree.count() - replaced.nodes + copied.nodes;
    check_limits(nodes, tree.weight() - replaced.inner + copied.inner)
}

/// Whether a place so many labels below this one, or one of so much more size, is over a limit of places.
fn is_over(p: &Loc, depth: u32, size: u32) -> bool
    ensures { result ≡ over_by p.now depth size }
{
    let labels = p.path.labels().len() + depth as usize;
    let bytes = p.size() as usize + size as usize;
    labels > LABELS_MAX || bytes > LOC_MAX
}

/// Why a tree of so many nodes and so much weight is refused, if it is.
fn check_limits(nodes: u32, weight: u64) -> Option<Refusal>
    ensures { result ≡ limit_passed nodes weight }
{
    if nodes > NODES_MAX {
        return Some(Refusal::TooMany);
    }
    if weight > WEIGHT_MAX {
        return Some(Refusal::TooBig);
    }
    None
}

/// What the tree of a literal reaches below the place that gets its label. Each number stops one past its limit.
/// Costs the literal, and goes one call deeper for each of its levels.
fn reach_of_literal(label: &Label, literal: &Literal) -> Reach
    ensures { result ≡ literal_reach label.now literal.now }
{
    match literal {
        Literal::Leaf(value) => reach_alone(label, bytes_of(value)),
        Literal::Node(below) => {
            let mut all = reach_alone(label, 0);
            for edge in &below.items {
                all = joined(label, all, reach_of_literal(&edge.label, &edge.tree));
            }
            all
        }
    }
}

/// What the rows reach with those of one more tree, one label further down.
fn joined(label: &Label, all: Reach, below: Reach) -> Reach
    requires nodes { all.nodes + below.nodes < 2 ^ 32 }
    requires inner { all.inner + below.inner < 2 ^ 64 }
    requires depth { below.depth ≤ LABELS_MAX + 1 }
    requires size { below.size ≤ LOC_MAX + 1 }
    ensures { result ≡ reach_with (length label.now + 1) all below }
{
    let step = label.as_str().len() as u32 + 1;
    Reach {
        nodes: (all.nodes + below.nodes).min(NODES_MAX + 1),
        inner: (all.inner + below.inner).min(WEIGHT_MAX + 1),
        depth: all.depth.max(1 + below.depth).min(LABELS_MAX as u32 + 1),
        size: all.size.max(step + below.size).min(LOC_MAX as u32 + 1),
    }
}

/// What a place alone reaches, with its label and a text of so many bytes.
fn reach_alone(label: &Label, text: u64) -> Reach
    requires { text < 2 ^ 63 }
    ensures alone { result ≡ alone_at (length label.now) text }
    ensures short { length label.now ≤ LABEL_MAX }
{
    let bytes = label.as_str().len() as u32;
    Reach {
        nodes: 1,
        inner: (PLACE_WEIGHT + bytes as u64 + text).min(WEIGHT_MAX + 1),
        depth: 1,
        size: bytes + 1,
    }
}

/// The bytes of a text.
fn bytes_of(value: &Value) -> u64
    ensures bytes { result ≡ text_bytes (Leaf value.now) }
    ensures small { result < 2 ^ 63 }
{
    match value {
        Value::Text(text) => text.items.as_str().len() as u64,
        _ => 0,
    }
}
