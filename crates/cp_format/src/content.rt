//! Contents, in bytes that may be anything.
ghost use Rattle.std.specs.Prelude.{◌≡◌, ◌≤◌, ◌<◌, ◌+◌, ◌-◌, ◌^◌, ◌++◌, [], ◌∷◌, suc, negsuc, length, IfErr, IfOk, OnOk};
ghost use Rattle.cp_path.specs.Whole.{IsWhole};
ghost use Rattle.cp_path.specs.declared.value.Value.TheVariants as leaf;
ghost use Rattle.cp_model.specs.declared.row.Content.TheVariants as content;
ghost use Rattle.cp_record.specs.Packed.{Grew};
ghost use Rattle.cp_format.specs.Contents.{content_behind, content_bytes, content_format, high_format, HasShortText, IsContent, long_text_format, whole_bits};
ghost use Rattle.cp_format.specs.Faults.{FaultAt};
ghost use Rattle.cp_format.specs.Formats.{ReadsAt};

use crate::fault::FormatFault;
use crate::number::{bounded_at, count_at, number_at};
use crate::text::text_at;
use cp_model::Content;
use cp_path::{TEXT_MAX, Text, Value, Whole};
use std::alloc::{AllocError, Global};

/// The number in the next eight bytes, whose highest bit is set.
fn high_at(bytes: &[u8], at: usize) -> Result<(u64, usize), FormatFault>
    requires { at ≤ length bytes.now }
    ensures read { IfOk result (λ x. ReadsAt high_format bytes.now at x.0 x.1) }
    ensures fault { IfErr result (FaultAt high_format bytes.now at) }
{
    if at < bytes.len() && bytes[at] < 0x80 {
        return Err(FormatFault::BadByte(at));
    }
    match bytes[at..].split_first_chunk::<8>() {
        Some((first, _)) => Ok((u64::from_be_bytes(*first), at + 8)),
        None => Err(FormatFault::BadByte(bytes.len())),
    }
}

/// The text in the next bytes, of `room` bytes at most, behind its length. Costs its bytes.
fn long_text_at(
    alloc: Global,
    bytes: &[u8],
    at: usize,
    room: usize,
) -> Result<(Text, usize), FormatFault>
    requires { at ≤ length bytes.now }
    ensures read { IfOk result (λ x. ReadsAt (long_text_format room) bytes.now at x.0 x.1) }
    ensures fault { IfErr result (FaultAt (long_text_format room) bytes.now at) }
{
    let (count, at) = bounded_at(bytes, at, 0, room.min(TEXT_MAX))?;
    let text = text_at(bytes, at, count)?;
    let text = Text::copy_of(alloc, text)?;
    Ok((text, at + count))
}

/// The leaf of the number below zero that has these bits in two's complement.
fn negative(bits: u64) -> Content
    requires { 2 ^ 63 ≤ bits }
    ensures { result ≡ content.Leaf (leaf.Whole (negsuc (2 ^ 64 - suc bits))) }
{
    match Whole::new(-1 - i128::from(u64::MAX - bits)) {
        Some(number) => Content::Leaf(Value::Whole(number)),
        None => unreachable!(),
    }
}

/// What follows the number of a form in a content. Costs the bytes of a text.
fn content_behind(
    alloc: Global,
    form: usize,
    bytes: &[u8],
    at: usize,
    room: usize,
) -> Result<(Content, usize), FormatFault>
    requires at { at ≤ length bytes.now }
    requires form { form ≤ 6 }
    ensures read { IfOk result (λ x. ReadsAt (content_behind room form) bytes.now at x.0 x.1) }
    ensures fault { IfErr result (FaultAt (content_behind room form) bytes.now at) }
{
    match form {
        0 => Ok((Content::Node, at)),
        1 => Ok((Content::Leaf(Value::Null), at)),
        2 => Ok((Content::Leaf(Value::False), at)),
        3 => Ok((Content::Leaf(Value::True), at)),
        4 => {
            let (number, at) = number_at(bytes, at)?;
            Ok((Content::Leaf(Value::Whole(Whole::from(number))), at))
        }
        5 => {
            let (bits, at) = high_at(bytes, at)?;
            Ok((negative(bits), at))
        }
        _ => {
            let (text, at) = long_text_at(alloc, bytes, at, room)?;
            Ok((Content::Leaf(Value::Text(text)), at))
        }
    }
}

/// The content whose bytes begin at the offset `at`, and the offset after them. A text has at most `room` bytes, and at
/// most `TEXT_MAX`. Costs its bytes.
pub fn take_content(
    alloc: Global,
    bytes: &[u8],
    at: usize,
    room: usize,
) -> Result<(Content, usize), FormatFault>
    requires { at ≤ length bytes.now }
    ensures read { IfOk result (λ x. ReadsAt (content_format room) bytes.now at x.0 x.1) }
    ensures fault { IfErr result (FaultAt (content_format room) bytes.now at) }
{
    let (form, at) = count_at(bytes, at, 0, 6)?;
    content_behind(alloc, form, bytes, at, room)
}

/// A whole number's 64 bits, in two's complement where it is below zero.
fn whole_bits(number: i128) -> u64
    requires { IsWhole number }
    ensures { result ≡ whole_bits number }
{
    if number < 0 {
        u64::MAX - (-1 - number) as u64
    } else {
        number as u64
    }
}

/// Writes the number of a form that has nothing behind it.
fn put_form(form: u8, out: &mut Vec<u8>) -> Result<(), AllocError>
    ensures ok { OnOk result (out.new.items ≡ out.old.items ++ (form ∷ [])) }
    ensures err { Grew out.old.items out.new.items }
{
    out.push(form)?;
    Ok(())
}

/// Writes the content of a whole number.
fn put_whole(number: i128, out: &mut Vec<u8>) -> Result<(), AllocError>
    requires { IsWhole number }
    ensures ok { OnOk result
        (out.new.items ≡ out.old.items ++ content_bytes (content.Leaf (leaf.Whole number))) }
    ensures err { Grew out.old.items out.new.items }
{
    out.push(if number < 0 { 5 } else { 4 })?;
    out.extend_from_slice(&whole_bits(number).to_be_bytes())
}

/// Writes the content of a text.
fn put_text(text: &str, out: &mut Vec<u8>) -> Result<(), AllocError>
    requires { length text.now ≤ TEXT_MAX }
    ensures ok { OnOk result
        (out.new.items ≡ out.old.items ++ content_bytes (content.Leaf (leaf.Text text.now))) }
    ensures err { Grew out.old.items out.new.items }
{
    out.push(6)?;
    out.extend_from_slice(&(text.len() as u32).to_be_bytes())?;
    out.extend_from_slice(text.as_bytes())
}

/// Appends the content of a node. After an error `out` begins with what it held.
pub fn put_node(out: &mut Vec<u8>) -> Result<(), AllocError>
    ensures ok { OnOk result (out.new.items ≡ out.old.items ++ content_bytes content.Node) }
    ensures err { Grew out.old.items out.new.items }
{
    out.push(0)?;
    Ok(())
}

/// Appends the content of a leaf. Costs its bytes. After an error `out` begins with what it held.
pub fn put_leaf(value: &Value, out: &mut Vec<u8>) -> Result<(), AllocError>
    requires { HasShortText (content.Leaf value.now) }
    ensures ok { OnOk result
        (out.new.items ≡ out.old.items ++ content_bytes (content.Leaf value.now)) }
    ensures err { Grew out.old.items out.new.items }
    ensures spelled { IsContent (content.Leaf value.now) }
{
    match value {
        Value::Null => put_form(1, out),
        Value::False => put_form(2, out),
        Value::True => put_form(3, out),
        Value::Whole(number) => put_whole(number.get(), out),
        Value::Text(text) => put_text(text.as_str(), out),
    }
}
