//! Operations, with insertions of trees.
ghost use Rattle.std.specs.Prelude.{◌≡◌, ◌≤◌, ◌<◌, ◌++◌, Bool, true, length, IfErr, IfOk, OnErr, OnOk};
ghost use Rattle.cp_path.specs.Place.{in_target};
ghost use Rattle.cp_record.specs.Packed.{Grew};
ghost use Rattle.cp_format.specs.Faults.{FaultAt};
ghost use Rattle.cp_format.specs.Operations.{destination};
ghost use Rattle.cp_frame.specs.Operations.{HasTakenOp, HasPutOp, op_format_with};
ghost use Rattle.cp_frame.specs.OpReading.{HasReadBranch, HasReadPlanted, branch_format, planted_format, HasShortTexts, HasFewPlaces, has_children};
ghost use Rattle.cp_model.specs.declared.op.Op.TheVariants.{Ins};

use crate::room::Room;
use crate::tree::{children_at, put_tree};
use cp_format::{
    FormatFault, bounded_at, count_at, label_at, put_counted, put_path, put_short, short_behind,
    target_at,
};
use cp_model::{LitList, Literal, Op};
use cp_path::{LABEL_MAX, Label, Loc};
use std::alloc::{AllocError, Global};

/// The children of the node in the next bytes, one at least, in a tree of T.
fn branch_at(alloc: Global, bytes: &[u8], at: usize) -> Result<(LitList, usize), FormatFault>
    requires { at ≤ length bytes.now }
    ensures read { IfOk result (λ x. HasReadBranch bytes.now at x.0 x.1) }
    ensures fault { IfErr result (FaultAt branch_format bytes.now at) }
{
    let mut room = Room::whole(1);
    let (_, at) = count_at(bytes, at, 0, 0)?;
    let (count, at) = bounded_at(bytes, at, 1, room.most_children())?;
    room.announce(count);
    children_at(alloc, bytes, at, count, &mut room)
}

/// The insertion of a tree in the next bytes.
fn planted_at(alloc: Global, bytes: &[u8], at: usize) -> Result<(Op, usize), FormatFault>
    requires { at ≤ length bytes.now }
    ensures read { IfOk result (λ x. HasReadPlanted bytes.now at x.0 x.1) }
    ensures fault { IfErr result (FaultAt planted_format bytes.now at) }
{
    let (into, at) = target_at(alloc, bytes, at)?;
    let (label, at) = label_at(alloc, bytes, at, LABEL_MAX)?;
    let (list, at) = branch_at(alloc, bytes, at)?;
    let tree = Literal::Node(list);
    Ok((Op::Ins { into, label, tree }, at))
}

/// The operation whose bytes begin at the offset `at`, and the offset after them; one that inserts a tree with children
/// only where `trees` says so. Costs its bytes. Of faults in a tree [`crate::take_tree`] tells.
pub fn take_op(
    alloc: Global,
    bytes: &[u8],
    at: usize,
    trees: bool,
) -> Result<(Op, usize), FormatFault>
    requires { at ≤ length bytes.now }
    ensures read { IfOk result (λ x. HasTakenOp trees bytes.now at x.0 x.1) }
    ensures fault { IfErr result (FaultAt (op_format_with trees) bytes.now at) }
{
    let most = if trees { 4 } else { 3 };
    let (form, at) = count_at(bytes, at, 1, most)?;
    if form == 4 {
        return planted_at(alloc, bytes, at);
    }
    short_behind(alloc, form, bytes, at)
}

/// Whether the tree is a node with children.
fn is_branch(tree: &Literal) -> bool
    ensures { result ≡ has_children tree.now }
{
    match tree {
        Literal::Leaf(_) => false,
        Literal::Node(list) => !list.items.is_empty(),
    }
}

/// Writes the insertion of a node with children.
fn put_planted(
    into: &Loc,
    label: &Label,
    tree: &Literal,
    out: &mut Vec<u8>,
) -> Result<(), AllocError>
    requires target { in_target into.now ≡ true }
    requires branch { has_children tree.now ≡ true }
    requires texts { HasShortTexts (Ins into.now label.now tree.now) }
    requires few { HasFewPlaces (Ins into.now label.now tree.now) }
    ensures ok { OnOk result (HasPutOp (Ins into.now label.now tree.now) out.old.items out.new.items) }
    ensures err { Grew out.old.items out.new.items }
{
    out.push(4)?;
    put_path(&into.path, out)?;
    put_counted(label.as_str().as_bytes(), out)?;
    put_tree(tree, out)
}

/// Appends the bytes of an operation. Costs them. After an error `out` begins with what it held.
pub fn put_op(op: &Op, out: &mut Vec<u8>) -> Result<(), AllocError>
    requires target { in_target (destination op.now) ≡ true }
    requires texts { HasShortTexts op.now }
    requires few { HasFewPlaces op.now }
    ensures ok { OnOk result (HasPutOp op.now out.old.items out.new.items) }
    ensures err { OnErr result (Grew out.old.items out.new.items) }
{
    match op {
        Op::Ins { into, label, tree } if is_branch(tree) => put_planted(into, label, tree, out),
        _ => put_short(op, out),
    }
}
