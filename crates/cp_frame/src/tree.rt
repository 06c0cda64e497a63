//! Trees, in bytes that may be anything, and as bytes.
ghost use Rattle.std.specs.Prelude.{◌≡◌, ◌≤◌, ◌<◌, ◌+◌, ◌^◌, ◌++◌, ℕ, length, IfErr, IfOk, OnErr, OnOk, None, Some};
ghost use Rattle.std.specs.Int.{to_be_bytes, w32};
ghost use Rattle.std.specs.List.{AllByRecursion};
ghost use Rattle.cp_model.specs.Literals.{literal_rows, edge_rows};
ghost use Rattle.cp_model.specs.Tree.{text_bytes};
ghost use Rattle.cp_model.specs.declared.row.Content.TheVariants.{Leaf};
ghost use Rattle.cp_record.specs.Packed.{Grew};
ghost use Rattle.cp_format.specs.Faults.{FaultAt};
ghost use Rattle.cp_format.specs.Formats.{ReadsAt};
ghost use Rattle.cp_frame.specs.Trees.{HasPutTree, HasPutChildren};
ghost use Rattle.cp_frame.specs.Rooms.{HasTakenTree, tree_format, children_format, whole_room};
ghost use Rattle.cp_frame.specs.Reading.{next_label_format, label_in, label_of_last, child_format, HasReadTree, HasReadChild, HasReadChildren};

use crate::order::{label_early, read_to};
use crate::room::Room;
use cp_format::{FormatFault, bounded_at, label_at, put_counted, put_leaf, put_node, take_content};
use cp_model::{Content, LitEdge, LitList, Literal, NODES_MAX};
use cp_path::{Label, NAME_MAX, TEXT_MAX, Value};
use std::alloc::{AllocError, Global};

/// The label of a child in the next bytes, of `most` bytes at most. One that doesn't come after `elder`, that of the
/// child before, is refused at the byte that decides so.
fn next_label_at(
    alloc: Global,
    bytes: &[u8],
    at: usize,
    most: usize,
    elder: Option<&Label>,
) -> Result<(Label, usize), FormatFault>
    requires { at ≤ length bytes.now }
    ensures read { IfOk result (λ x.
        ReadsAt (next_label_format most (label_in elder.entry)) bytes.now at x.0 x.1) }
    ensures fault { IfErr result
        (FaultAt (next_label_format most (label_in elder.entry)) bytes.now at) }
{
    let read = label_at(alloc, bytes, at, most);
    let Some(elder) = elder else {
        return read;
    };
    let begun = &bytes[at..read_to(&read, at)];
    match label_early(elder.as_str().as_bytes(), begun) {
        Some(early) => Err(FormatFault::BadByte(at + early)),
        None => read,
    }
}

/// The label of the last of these edges.
fn last_label(edges: &[LitEdge]) -> Option<&Label>
    ensures { label_in result ≡ label_of_last edges.now }
{
    match edges.last() {
        Some(edge) => Some(&edge.label),
        None => None,
    }
}

/// The bytes of a value's text, 0 where it is none.
fn text_len(value: &Value) -> usize
    ensures { result ≡ text_bytes (Leaf value.now) }
{
    match value {
        Value::Text(text) => text.as_str().len(),
        _ => 0,
    }
}

/// The tree in the next bytes. Costs them; calls itself once for each label of a path.
#[cycle(tree)]
fn tree_at(
    alloc: Global,
    bytes: &[u8],
    at: usize,
    room: &mut Room,
) -> Result<(Literal, usize), FormatFault>
    requires { at ≤ length bytes.now }
    ensures read { IfOk result (λ x. HasReadTree room.old bytes.now at x.0 x.1 room.new) }
    ensures fault { IfErr result (FaultAt (tree_format room.old) bytes.now at) }
{
    let (content, at) = take_content(alloc, bytes, at, room.weight)?;
    match content {
        Content::Leaf(value) => {
            room.weight -= text_len(&value);
            Ok((Literal::Leaf(value), at))
        }
        Content::Node => {
            let (count, at) = bounded_at(bytes, at, 0, room.most_children())?;
            room.announce(count);
            let (list, at) = children_at(alloc, bytes, at, count, room)?;
            Ok((Literal::Node(list), at))
        }
    }
}

/// A child in the next bytes, after one with the label `elder`.
#[cycle(tree)]
fn child_at(
    alloc: Global,
    bytes: &[u8],
    at: usize,
    elder: Option<&Label>,
    room: &mut Room,
) -> Result<(LitEdge, usize), FormatFault>
    requires at { at ≤ length bytes.now }
    requires level { 0 < room.old.levels }
    requires size { 0 < room.old.size }
    ensures read { IfOk result (λ x.
        HasReadChild (label_in elder.entry) room.old bytes.now at x.0 x.1 room.new) }
    ensures fault { IfErr result
        (FaultAt (child_format (label_in elder.entry) room.old) bytes.now at) }
{
    let (label, at) = next_label_at(alloc, bytes, at, room.most_bytes(), elder)?;
    let mut below = room.below(label.as_str().len());
    let (tree, at) = tree_at(alloc, bytes, at, &mut below)?;
    room.nodes = below.nodes;
    room.weight = below.weight;
    Ok((LitEdge { label, tree }, at))
}

/// So many children in the next bytes, which were announced in the room.
#[cycle(tree)]
pub(crate) fn children_at(
    alloc: Global,
    bytes: &[u8],
    at: usize,
    count: usize,
    room: &mut Room,
) -> Result<(LitList, usize), FormatFault>
    requires at { at ≤ length bytes.now }
    requires level { 0 < count → 0 < room.old.levels }
    requires size { 0 < count → 0 < room.old.size }
    ensures read { IfOk result (λ x. HasReadChildren count room.old bytes.now at x.0 x.1 room.new) }
    ensures fault { IfErr result (FaultAt (children_format count None room.old) bytes.now at) }
{
    let mut items: Vec<LitEdge> = Vec::new(alloc);
    let mut next = at;
    for _ in 0..count {
        let (edge, behind) = child_at(alloc, bytes, next, last_label(&items), room)?;
        items.push(edge)?;
        next = behind;
    }
    Ok((LitList { items }, next))
}

/// The tree whose bytes begin at the offset `at`, and the offset after them. The tree is within the limits of one whose
/// places have a name of `name` bytes. Costs its bytes; calls itself once for each label of a path.
///
/// A fault names the first byte with which no such tree goes on, where the labels still to come may be any; a label that
/// doesn't come after that of the child before is refused at the byte that decides so.
pub fn take_tree(
    alloc: Global,
    bytes: &[u8],
    at: usize,
    name: usize,
) -> Result<(Literal, usize), FormatFault>
    requires at { at ≤ length bytes.now }
    requires name { name ≤ NAME_MAX }
    ensures read { IfOk result (λ x. HasTakenTree (whole_room name) bytes.now at x.0 x.1) }
    ensures fault { IfErr result (FaultAt (tree_format (whole_room name)) bytes.now at) }
{
    let mut room = Room::whole(name);
    tree_at(alloc, bytes, at, &mut room)
}

/// Writes the number of children.
pub(crate) fn put_number(count: usize, out: &mut Vec<u8>) -> Result<(), AllocError>
    requires { count < 2 ^ 32 }
    ensures ok { OnOk result (out.new.items ≡ out.old.items ++ to_be_bytes w32 count) }
    ensures err { Grew out.old.items out.new.items }
{
    out.extend_from_slice(&(count as u32).to_be_bytes())
}

/// Appends the bytes of a tree. Costs them; calls itself once for each label of a path. After an error `out` begins
/// with what it held.
#[cycle(put)]
pub fn put_tree(tree: &Literal, out: &mut Vec<u8>) -> Result<(), AllocError>
    requires texts { AllByRecursion (λ e. text_bytes e.1 ≤ TEXT_MAX) (literal_rows tree.now) }
    requires few { length (literal_rows tree.now) ≤ NODES_MAX }
    ensures ok { OnOk result (HasPutTree tree.now out.old.items out.new.items) }
    ensures err { OnErr result (Grew out.old.items out.new.items) }
{
    match tree {
        Literal::Leaf(value) => put_leaf(value, out),
        Literal::Node(list) => {
            put_node(out)?;
            put_number(list.items.len(), out)?;
            put_children(&list.items, out)
        }
    }
}

/// Appends the labels and the trees of children.
#[cycle(put)]
pub(crate) fn put_children(edges: &[LitEdge], out: &mut Vec<u8>) -> Result<(), AllocError>
    requires texts { AllByRecursion (λ e. text_bytes e.1 ≤ TEXT_MAX) (edge_rows edges.now) }
    requires few { length (edge_rows edges.now) ≤ NODES_MAX }
    ensures ok { OnOk result (HasPutChildren edges.now out.old.items out.new.items) }
    ensures err { Grew out.old.items out.new.items }
{
    for edge in edges {
        put_counted(edge.label.as_str().as_bytes(), out)?;
        put_tree(&edge.tree, out)?;
    }
    Ok(())
}
