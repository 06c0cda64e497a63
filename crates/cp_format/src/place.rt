//! Labels, paths and places, in bytes that may be anything.
ghost use Rattle.std.specs.Prelude.{◌≡◌, ◌≤◌, ◌<◌, ◌+◌, ◌++◌, ◌∷◌, [], length, IfErr, IfOk};
ghost use Rattle.cp_format.specs.Faults.{FaultAt};
ghost use Rattle.cp_format.specs.Formats.{ReadsAt, StandsAt};
ghost use Rattle.cp_format.specs.Parts.{label_format, labels_format, path_format, place_format};

use crate::fault::FormatFault;
use crate::name::{name_at, name_text_behind};
use crate::number::count_at;
use crate::text::text_at;
use cp_path::{LABELS_MAX, LOC_MAX, Label, Loc, Path, PathFault};
use std::alloc::{AllocError, Global};

/// The text of the label in the next bytes, of `most` bytes at most, behind its length in one byte, and the offset after it.
/// Costs its bytes.
fn label_text_at(bytes: &[u8], at: usize, most: usize) -> Result<(&str, usize), FormatFault>
    requires { at ≤ length bytes.now }
    ensures read { IfOk result (λ x. ReadsAt (label_format most) bytes.now at x.0.now x.1) }
    ensures fault { IfErr result (FaultAt (label_format most) bytes.now at) }
{
    let (count, at) = count_at(bytes, at, 0, most)?;
    let text = text_at(bytes, at, count)?;
    Ok((text, at + count))
}

/// The label in the next bytes, of `most` bytes at most, behind its length in one byte, and the offset after it. The
/// fault is the first byte with which no such label goes on, or want of memory. Costs its bytes.
pub fn label_at(
    alloc: Global,
    bytes: &[u8],
    at: usize,
    most: usize,
) -> Result<(Label, usize), FormatFault>
    requires { at ≤ length bytes.now }
    ensures read { IfOk result (λ x. ReadsAt (label_format most) bytes.now at x.0 x.1) }
    ensures fault { IfErr result (FaultAt (label_format most) bytes.now at) }
{
    let (text, end) = label_text_at(bytes, at, most)?;
    let label = Label::copy_of(alloc, text)?;
    Ok((label, end))
}

/// Goes one label further down, where a path may.
fn push(path: &mut Path, label: Label) -> Result<(), AllocError>
    requires { length path.old < LABELS_MAX }
    ensures { IfOk result (λ _. path.new ≡ path.old ++ label ∷ []) }
{
    match path.push(label) {
        Ok(()) => Ok(()),
        Err(PathFault::Memory) => Err(AllocError),
        Err(_) => unreachable!(),
    }
}

/// The next `count` labels, whose bytes with one more for each are `room` at most. Costs their bytes.
fn labels_at(
    alloc: Global,
    bytes: &[u8],
    at: usize,
    count: usize,
    room: usize,
) -> Result<(Path, usize), FormatFault>
    requires at { at ≤ length bytes.now }
    requires few { count ≤ LABELS_MAX }
    requires room { count ≤ room }
    ensures read { IfOk result (λ x. ReadsAt (labels_format count room) bytes.now at x.0 x.1) }
    ensures fault { IfErr result (FaultAt (labels_format count room) bytes.now at) }
{
    let mut path = Path::root(alloc);
    let mut next = at;
    let mut left = room;
    for k in 0..count {
        let (label, behind) = label_at(alloc, bytes, next, left - (count - k))?;
        left -= label.as_str().len() + 1;
        push(&mut path, label)?;
        next = behind;
    }
    Ok((path, next))
}

/// The path in the next bytes, whose labels' bytes with one more for each are `room` at most. Costs them.
pub(crate) fn path_at(
    alloc: Global,
    bytes: &[u8],
    at: usize,
    room: usize,
) -> Result<(Path, usize), FormatFault>
    requires at { at ≤ length bytes.now }
    requires room { LABELS_MAX ≤ room }
    ensures read { IfOk result (λ x. ReadsAt (path_format room) bytes.now at x.0 x.1) }
    ensures fault { IfErr result (FaultAt (path_format room) bytes.now at) }
{
    let (count, at) = count_at(bytes, at, 0, LABELS_MAX)?;
    labels_at(alloc, bytes, at, count, room)
}

/// The place in the next bytes, and the offset after it. The fault is the first byte with which no place goes on, or want of
/// memory. Costs its bytes.
pub fn place_at(alloc: Global, bytes: &[u8], at: usize) -> Result<(Loc, usize), FormatFault>
    requires { at ≤ length bytes.now }
    ensures read { IfOk result (λ x. ReadsAt place_format bytes.now at x.0 x.1) }
    ensures fault { IfErr result (FaultAt place_format bytes.now at) }
{
    let (db, at) = name_at(alloc, bytes, at)?;
    let room = LOC_MAX - db.as_str().len();
    let (path, at) = path_at(alloc, bytes, at, room)?;
    Ok((Loc { db, path }, at))
}

/// The offset after the next `count` labels, whose bytes with one more for each are `room` at most. Costs their bytes.
fn labels_end(bytes: &[u8], at: usize, count: usize, room: usize) -> Result<usize, FormatFault>
    requires at { at ≤ length bytes.now }
    requires few { count ≤ LABELS_MAX }
    requires room { count ≤ room }
    ensures read { IfOk result (StandsAt (labels_format count room) bytes.now at) }
    ensures fault { IfErr result (FaultAt (labels_format count room) bytes.now at) }
{
    let mut next = at;
    let mut left = room;
    for k in 0..count {
        let (label, behind) = label_text_at(bytes, next, left - (count - k))?;
        left -= label.len() + 1;
        next = behind;
    }
    Ok(next)
}

/// The offset after the path in the next bytes, whose labels' bytes with one more for each are `room` at most. Costs them.
pub(crate) fn path_end(bytes: &[u8], at: usize, room: usize) -> Result<usize, FormatFault>
    requires at { at ≤ length bytes.now }
    requires room { LABELS_MAX ≤ room }
    ensures read { IfOk result (StandsAt (path_format room) bytes.now at) }
    ensures fault { IfErr result (FaultAt (path_format room) bytes.now at) }
{
    let (count, at) = count_at(bytes, at, 0, LABELS_MAX)?;
    labels_end(bytes, at, count, room)
}

/// The offset after the place in the next bytes. Costs them.
pub(crate) fn place_end(bytes: &[u8], at: usize) -> Result<usize, FormatFault>
    requires { at ≤ length bytes.now }
    ensures read { IfOk result (StandsAt place_format bytes.now at) }
    ensures fault { IfErr result (FaultAt place_format bytes.now at) }
{
    let (db, at) = name_text_behind(bytes, at)?;
    path_end(bytes, at, LOC_MAX - db.len())
}
