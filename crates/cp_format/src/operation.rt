//! Operations that insert no tree with children: as bytes, and what follows the number of their form in bytes that may be
//! anything.
ghost use Rattle.std.specs.Prelude.{◌≡◌, ◌≤◌, ◌<◌, ◌++◌, length, true, IfErr, IfOk, OnErr, OnOk};
ghost use Rattle.cp_path.specs.Place.{in_target};
ghost use Rattle.cp_model.specs.declared.op.Op.TheVariants.{Copy, Del, Ins};
ghost use Rattle.cp_record.specs.Packed.{Grew};
ghost use Rattle.cp_format.specs.Contents.{content_bytes, HasShortText, IsContent};
ghost use Rattle.cp_format.specs.Faults.{FaultAt};
ghost use Rattle.cp_format.specs.Formats.{ReadsAt};
ghost use Rattle.cp_format.specs.Operations.{IsShort, InsertsShortText, HasSpelledParts, alone, destination, op_behind, op_bytes, root_content, target_format};

use crate::content::{put_leaf, put_node, take_content};
use crate::fault::FormatFault;
use crate::place::{label_at, path_at, place_at};
use crate::writing::{put_counted, put_path, put_place};
use cp_model::{Content, LitList, Literal, Op};
use cp_path::{LABEL_MAX, LOC_MAX, Label, Loc, Name, TEXT_MAX};
use std::alloc::{AllocError, Global};

/// The place of T whose path is in the next bytes, and the offset after it. Its name, which isn't spelled, takes 1 of the
/// place's size. The fault is the first byte with which no such path goes on, or want of memory. Costs its bytes.
pub fn target_at(alloc: Global, bytes: &[u8], at: usize) -> Result<(Loc, usize), FormatFault>
    requires { at ≤ length bytes.now }
    ensures read { IfOk result (λ x. ReadsAt target_format bytes.now at x.0 x.1) }
    ensures fault { IfErr result (FaultAt target_format bytes.now at) }
{
    let (path, at) = path_at(alloc, bytes, at, LOC_MAX - 1)?;
    let db = Name::target(alloc)?;
    Ok((Loc { db, path }, at))
}

/// The tree that is this content alone.
fn alone(alloc: Global, content: Content) -> Literal
    ensures { result ≡ alone content }
{
    match content {
        Content::Node => Literal::Node(LitList {
            items: Vec::new(alloc),
        }),
        Content::Leaf(value) => Literal::Leaf(value),
    }
}

/// The insertion in the next bytes. Costs them.
fn ins_at(alloc: Global, bytes: &[u8], at: usize) -> Result<(Op, usize), FormatFault>
    requires { at ≤ length bytes.now }
    ensures read { IfOk result (λ x. ReadsAt (op_behind 1) bytes.now at x.0 x.1) }
    ensures fault { IfErr result (FaultAt (op_behind 1) bytes.now at) }
{
    let (into, at) = target_at(alloc, bytes, at)?;
    let (label, at) = label_at(alloc, bytes, at, LABEL_MAX)?;
    let (content, at) = take_content(alloc, bytes, at, TEXT_MAX)?;
    let tree = alone(alloc, content);
    Ok((Op::Ins { into, label, tree }, at))
}

/// The deletion in the next bytes. Costs them.
fn del_at(alloc: Global, bytes: &[u8], at: usize) -> Result<(Op, usize), FormatFault>
    requires { at ≤ length bytes.now }
    ensures read { IfOk result (λ x. ReadsAt (op_behind 2) bytes.now at x.0 x.1) }
    ensures fault { IfErr result (FaultAt (op_behind 2) bytes.now at) }
{
    let (from, at) = target_at(alloc, bytes, at)?;
    let (label, at) = label_at(alloc, bytes, at, LABEL_MAX)?;
    Ok((Op::Del { label, from }, at))
}

/// The copy in the next bytes. Costs them.
fn copy_at(alloc: Global, bytes: &[u8], at: usize) -> Result<(Op, usize), FormatFault>
    requires { at ≤ length bytes.now }
    ensures read { IfOk result (λ x. ReadsAt (op_behind 3) bytes.now at x.0 x.1) }
    ensures fault { IfErr result (FaultAt (op_behind 3) bytes.now at) }
{
    let (from, at) = place_at(alloc, bytes, at)?;
    let (into, at) = target_at(alloc, bytes, at)?;
    Ok((Op::Copy { from, into }, at))
}

/// What follows the number of a form, 1 to 3, in a short operation: an insertion of a leaf or of a node without children,
/// a deletion, a copy. Returns the operation and the offset after it. The fault is the first byte with which none of this
/// form goes on, or want of memory. Costs its bytes.
pub fn short_behind(
    alloc: Global,
    form: usize,
    bytes: &[u8],
    at: usize,
) -> Result<(Op, usize), FormatFault>
    requires at { at ≤ length bytes.now }
    requires some { 1 ≤ form }
    requires form { form ≤ 3 }
    ensures read { IfOk result (λ x. ReadsAt (op_behind form) bytes.now at x.0 x.1) }
    ensures fault { IfErr result (FaultAt (op_behind form) bytes.now at) }
{
    match form {
        1 => ins_at(alloc, bytes, at),
        2 => del_at(alloc, bytes, at),
        _ => copy_at(alloc, bytes, at),
    }
}

/// Writes the content at the root of a tree without children.
fn put_root(tree: &Literal, out: &mut Vec<u8>) -> Result<(), AllocError>
    requires { HasShortText (root_content tree.now) }
    ensures ok { OnOk result (out.new.items ≡ out.old.items ++ content_bytes (root_content tree.now)) }
    ensures err { Grew out.old.items out.new.items }
    ensures content { IsContent (root_content tree.now) }
{
    match tree {
        Literal::Node(_) => put_node(out),
        Literal::Leaf(value) => put_leaf(value, out),
    }
}

/// Writes an insertion of a content alone.
fn put_ins(into: &Loc, label: &Label, tree: &Literal, out: &mut Vec<u8>) -> Result<(), AllocError>
    requires { HasShortText (root_content tree.now) }
    ensures ok { OnOk result (out.new.items ≡ out.old.items ++ op_bytes (Ins into.now label.now tree.now)) }
    ensures parts { OnOk result (HasSpelledParts (Ins into.now label.now tree.now)) }
    ensures err { Grew out.old.items out.new.items }
{
    out.push(1)?;
    put_path(&into.path, out)?;
    put_counted(label.as_str().as_bytes(), out)?;
    put_root(tree, out)
}

/// Writes a deletion.
fn put_del(label: &Label, from: &Loc, out: &mut Vec<u8>) -> Result<(), AllocError>
    ensures ok { OnOk result (out.new.items ≡ out.old.items ++ op_bytes (Del label.now from.now)) }
    ensures parts { OnOk result (HasSpelledParts (Del label.now from.now)) }
    ensures err { Grew out.old.items out.new.items }
{
    out.push(2)?;
    put_path(&from.path, out)?;
    put_counted(label.as_str().as_bytes(), out)
}

/// Writes a copy.
fn put_copy(from: &Loc, into: &Loc, out: &mut Vec<u8>) -> Result<(), AllocError>
    ensures ok { OnOk result (out.new.items ≡ out.old.items ++ op_bytes (Copy from.now into.now)) }
    ensures parts { OnOk result (HasSpelledParts (Copy from.now into.now)) }
    ensures err { Grew out.old.items out.new.items }
{
    out.push(3)?;
    put_place(from, out)?;
    put_path(&into.path, out)
}

/// Appends the bytes of an operation that inserts no tree with children. Costs them. After an error `out` begins with
/// what it held.
pub fn put_short(op: &Op, out: &mut Vec<u8>) -> Result<(), AllocError>
    requires target { in_target (destination op.now) ≡ true }
    requires short { IsShort op.now }
    requires text { InsertsShortText op.now }
    ensures ok { OnOk result (out.new.items ≡ out.old.items ++ op_bytes op.now) }
    ensures parts { OnOk result (HasSpelledParts op.now) }
    ensures err { OnErr result (Grew out.old.items out.new.items) }
{
    match op {
        Op::Ins { into, label, tree } => put_ins(into, label, tree, out),
        Op::Del { label, from } => put_del(label, from, out),
        Op::Copy { from, into } => put_copy(from, into, out),
    }
}
