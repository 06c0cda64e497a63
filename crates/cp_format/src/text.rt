//! Texts of so many bytes, in bytes that may be anything.
ghost use Rattle.std.specs.Prelude.{◌≡◌, ◌≤◌, ◌<◌, ◌+◌, ◌↔◌, length, drop, IfErr, IfOk, IsTrue};
ghost use Rattle.cp_format.specs.Faults.{FaultAt};
ghost use Rattle.cp_format.specs.Formats.{Reads, ReadsAt, Stops};
ghost use Rattle.cp_format.specs.Chars.{Follows, HasNoChar, IsSecond, char_format, width};
ghost use Rattle.cp_format.specs.Parts.{text_format};

use crate::fault::FormatFault;

/// How many bytes a character has that begins with this byte, or 0 where none does.
fn width(first: u8) -> usize
    ensures { result ≡ width first }
{
    match first {
        0x00..=0x7F => 1,
        0xC2..=0xDF => 2,
        0xE0..=0xEF => 3,
        0xF0..=0xF4 => 4,
        _ => 0,
    }
}

/// Whether the byte may stand behind the first one of a character (Unicode, table 3-7).
fn is_second(first: u8, byte: u8) -> bool
    ensures { IsTrue result ↔ IsSecond first byte }
{
    match first {
        0xE0 => matches!(byte, 0xA0..=0xBF),
        0xED => matches!(byte, 0x80..=0x9F),
        0xF0 => matches!(byte, 0x90..=0xBF),
        0xF4 => matches!(byte, 0x80..=0x8F),
        _ => follows(byte),
    }
}

/// Whether the byte may stand behind the second one of a character.
fn follows(byte: u8) -> bool
    ensures { IsTrue result ↔ Follows byte }
{
    matches!(byte, 0x80..=0xBF)
}

/// How many bytes begin a character of `room` bytes at most, where none stands at the front.
fn begun(bytes: &[u8], room: usize) -> usize
    requires some { 0 < length bytes.now }
    requires room { 0 < room }
    requires none { HasNoChar room bytes.now }
    ensures { Stops (char_format room) bytes.now result }
{
    let width = width(bytes[0]);
    if width == 0 || width > room {
        return 0;
    }
    if bytes.len() < 2 || !is_second(bytes[0], bytes[1]) {
        return 1;
    }
    if bytes.len() < 3 || !follows(bytes[2]) {
        return 2;
    }
    3
}

/// The text that the first `count` bytes are, or how many bytes begin one. Costs them.
fn text_in(bytes: &[u8], count: usize) -> Result<&str, usize>
    ensures text { IfOk result (λ a. Reads (text_format count) bytes.now a.now (drop count bytes.now)) }
    ensures bad { IfErr result (λ n. Stops (text_format count) bytes.now n) }
{
    let there = &bytes[..count.min(bytes.len())];
    match std::str::from_utf8(there) {
        Ok(text) => {
            if text.len() < count {
                return Err(text.len());
            }
            Ok(text)
        }
        Err(fault) => {
            let good = fault.valid_up_to();
            Err(good + begun(&there[good..], count - good))
        }
    }
}

/// The text that the next `count` bytes are. Costs them.
pub(crate) fn text_at(bytes: &[u8], at: usize, count: usize) -> Result<&str, FormatFault>
    requires { at ≤ length bytes.now }
    ensures read { IfOk result (λ a. ReadsAt (text_format count) bytes.now at a.now (at + count)) }
    ensures fault { IfErr result (FaultAt (text_format count) bytes.now at) }
{
    match text_in(&bytes[at..], count) {
        Ok(text) => Ok(text),
        Err(good) => Err(FormatFault::BadByte(at + good)),
    }
}
