//! Names, in bytes that may be anything.
ghost use Rattle.std.specs.Prelude.{◌≡◌, ◌≤◌, ◌<◌, ◌+◌, ℕ, true, false, length, slice_index, IfErr, IfOk};
ghost use Rattle.cp_path.specs.Text.{is_letter, is_name_byte, is_name};
ghost use Rattle.cp_format.specs.Faults.{FaultAt};
ghost use Rattle.cp_format.specs.Formats.{ReadsAt};
ghost use Rattle.cp_format.specs.Parts.{fits_name, name_format, name_text_format};

use crate::fault::FormatFault;
use crate::number::count_at;
use cp_path::{NAME_MAX, Name, PathFault};
use std::alloc::{AllocError, Global};

fn is_letter(byte: u8) -> bool
    ensures { result ≡ is_letter byte }
{
    matches!(byte, b'A'..=b'Z' | b'a'..=b'z')
}

fn is_name_byte(byte: u8) -> bool
    ensures { result ≡ is_name_byte byte }
{
    is_letter(byte) || matches!(byte, b'0'..=b'9' | b'_')
}

/// Whether the byte may stand at this index of a name.
fn fits_name(index: usize, byte: u8) -> bool
    ensures { result ≡ fits_name index byte }
{
    if index == 0 {
        is_letter(byte)
    } else {
        is_name_byte(byte)
    }
}

/// How many of the first `count` bytes may stand in a name where they stand. Costs them.
fn name_bytes(bytes: &[u8], count: usize) -> usize
    ensures count { result ≤ count }
    ensures there { result ≤ length bytes.now }
    ensures fit { (i : ℕ) → i < result → fits_name i (slice_index bytes.now i) ≡ true }
    ensures bad { result < count → result < length bytes.now → fits_name result (slice_index bytes.now result) ≡ false }
{
    for k in 0..count {
        if k == bytes.len() || !fits_name(k, bytes[k]) {
            return k;
        }
    }
    count
}

/// The text of a name in the next `count` bytes. Costs them.
fn name_text_at(bytes: &[u8], at: usize, count: usize) -> Result<&str, FormatFault>
    requires at { at ≤ length bytes.now }
    requires some { 1 ≤ count }
    requires few { count ≤ NAME_MAX }
    ensures read { IfOk result (λ a. ReadsAt (name_text_format count) bytes.now at a.now (at + count)) }
    ensures fault { IfErr result (FaultAt (name_text_format count) bytes.now at) }
{
    let rest = &bytes[at..];
    let good = name_bytes(rest, count);
    if good < count {
        return Err(FormatFault::BadByte(at + good));
    }
    match std::str::from_utf8(&rest[..count]) {
        Ok(text) => Ok(text),
        Err(_) => unreachable!(),
    }
}

/// The name with this text.
fn name_of(alloc: Global, text: &str) -> Result<Name, AllocError>
    requires { is_name text.now ≡ true }
    ensures { IfOk result (λ a. a ≡ text.now) }
{
    match Name::read(alloc, text) {
        Ok(name) => Ok(name),
        Err(PathFault::Memory) => Err(AllocError),
        Err(_) => unreachable!(),
    }
}

/// The text of the name in the next bytes, behind its length in one byte, and the offset after it. Costs its bytes.
pub(crate) fn name_text_behind(bytes: &[u8], at: usize) -> Result<(&str, usize), FormatFault>
    requires { at ≤ length bytes.now }
    ensures read { IfOk result (λ x. ReadsAt name_format bytes.now at x.0.now x.1) }
    ensures fault { IfErr result (FaultAt name_format bytes.now at) }
{
    let (count, at) = count_at(bytes, at, 1, NAME_MAX)?;
    let text = name_text_at(bytes, at, count)?;
    Ok((text, at + count))
}

/// The name in the next bytes, behind its length in one byte, and the offset after it. The fault is the first byte with
/// which no name goes on, or want of memory. Costs its bytes.
pub fn name_at(alloc: Global, bytes: &[u8], at: usize) -> Result<(Name, usize), FormatFault>
    requires { at ≤ length bytes.now }
    ensures read { IfOk result (λ x. ReadsAt name_format bytes.now at x.0 x.1) }
    ensures fault { IfErr result (FaultAt name_format bytes.now at) }
{
    let (text, end) = name_text_behind(bytes, at)?;
    let name = name_of(alloc, text)?;
    Ok((name, end))
}
