ghost use Rattle.std.specs.Prelude.{◌≡◌, ◌&&◌, ◌||◌, ◌==◌, ◌<◌, Some, None, Ok, Err, nat_le, nat_lt, true, false, take, length, MatchResult};
ghost use Rattle.cp_path.specs.Text.{is_letter, is_name_byte};
ghost use Rattle.cp_spelling.specs.Scan.{part_step, step, is_label, closes, accepts, ends_low, ends_high, bare_step, quoted_step, escape_step, unicode_step, StopsAt, Accepts};

use crate::quoting::is_trigger;
use cp_path::{NAME_MAX, is_letter, is_name_byte};

/// Where a scan stands in the text that a word spells.
#[derive(Clone, Copy)]
pub(crate) enum Part {
    /// Before a name.
    Begin,
    /// In a name, behind that many bytes of it.
    Name(u8),
    /// Before a label that stands alone.
    Empty,
    Label,
    /// Behind a `~`.
    Tilde,
}

/// Where a scan stands in a word.
#[derive(Clone, Copy)]
pub(crate) enum Spot {
    Start(Part),
    Bare(Part),
    /// Inside quotation marks, and whether something has come that asks for them.
    Quoted(Part, bool),
    Backslash(bool),
    /// Behind `\u`, `\u0`, `\u00`, `\u000` and `\u001`.
    Unicode,
    Zero,
    Zeros,
    Low,
    High,
    /// Behind the closing quotation mark.
    Ended,
}

/// Whether a label has begun, or may begin and end at once.
fn is_label(part: Part) -> bool
    ensures { result ≡ is_label part }
{
    matches!(part, Part::Empty | Part::Label)
}

/// Whether the closing quotation mark may stand there.
fn closes(part: Part, has_trigger: bool) -> bool
    ensures { result ≡ closes part has_trigger }
{
    match part {
        Part::Empty => true,
        Part::Name(_) | Part::Label => has_trigger,
        _ => false,
    }
}

/// One byte behind so many of a name.
fn after_name(count: u8, byte: u8) -> Option<Part>
    ensures { result ≡ part_step true (Part.Name count) byte }
{
    if byte == b'/' {
        return Some(Part::Label);
    }
    let is_name = is_name_byte(byte);
    if count < NAME_MAX as u8 && is_name {
        Some(Part::Name(count + 1))
    } else {
        None
    }
}

/// One byte of the text; `deep` where a slash may begin the next label.
fn part_step(deep: bool, part: Part, byte: u8) -> Option<Part>
    ensures { result ≡ part_step deep part byte }
{
    match part {
        Part::Begin => {
            if is_letter(byte) {
                Some(Part::Name(1))
            } else {
                None
            }
        }
        Part::Name(count) => after_name(count, byte),
        Part::Tilde => {
            if matches!(byte, b'0' | b'1') {
                Some(Part::Label)
            } else {
                None
            }
        }
        Part::Empty | Part::Label => {
            if byte == b'~' {
                Some(Part::Tilde)
            } else if byte == b'/' && !deep {
                None
            } else {
                Some(Part::Label)
            }
        }
    }
}

/// One byte of a word without quotation marks.
fn bare_step(deep: bool, part: Part, byte: u8) -> Option<Spot>
    ensures { result ≡ bare_step deep part byte }
{
    if is_trigger(byte) {
        return None;
    }
    let next = part_step(deep, part, byte)?;
    Some(Spot::Bare(next))
}

/// One byte inside quotation marks.
fn quoted_step(deep: bool, part: Part, has_trigger: bool, byte: u8) -> Option<Spot>
    ensures { result ≡ quoted_step deep part has_trigger byte }
{
    if byte == b'"' {
        return if closes(part, has_trigger) {
            Some(Spot::Ended)
        } else {
            None
        };
    }
    if byte == b'\\' {
        return if is_label(part) {
            Some(Spot::Backslash(has_trigger))
        } else {
            None
        };
    }
    if byte < b' ' {
        return None;
    }
    let triggers = is_trigger(byte);
    let next = part_step(deep, part, byte)?;
    Some(Spot::Quoted(next, has_trigger || triggers))
}

/// Behind `\`: the escapes of one letter, and `u`.
fn escape_step(has_trigger: bool, byte: u8) -> Option<Spot>
    ensures { result ≡ escape_step has_trigger byte }
{
    match byte {
        b'\\' => Some(Spot::Quoted(Part::Label, has_trigger)),
        b'"' | b'b' | b'f' | b'n' | b'r' | b't' => Some(Spot::Quoted(Part::Label, true)),
        b'u' => Some(Spot::Unicode),
        _ => None,
    }
}

/// Whether `\u000` and this digit stand for a byte that no letter stands for.
fn ends_low(byte: u8) -> bool
    ensures { result ≡ ends_low byte }
{
    matches!(byte, b'0'..=b'7' | b'b' | b'e' | b'f')
}

/// Whether `\u001` and this digit stand for a byte.
fn ends_high(byte: u8) -> bool
    ensures { result ≡ ends_high byte }
{
    matches!(byte, b'0'..=b'9' | b'a'..=b'f')
}

/// Behind `\u`: two zeros, a zero or a one, and a digit.
fn unicode_step(spot: Spot, byte: u8) -> Option<Spot>
    ensures { result ≡ unicode_step spot byte }
{
    match spot {
        Spot::Unicode if byte == b'0' => Some(Spot::Zero),
        Spot::Zero if byte == b'0' => Some(Spot::Zeros),
        Spot::Zeros if byte == b'0' => Some(Spot::Low),
        Spot::Zeros if byte == b'1' => Some(Spot::High),
        Spot::Low if ends_low(byte) => Some(Spot::Quoted(Part::Label, true)),
        Spot::High if ends_high(byte) => Some(Spot::Quoted(Part::Label, true)),
        _ => None,
    }
}

/// Where one byte of the word leads, if anywhere.
fn step(deep: bool, spot: Spot, byte: u8) -> Option<Spot>
    ensures { result ≡ step deep spot byte }
{
    match spot {
        Spot::Start(part) => {
            if byte == b'"' {
                Some(Spot::Quoted(part, false))
            } else {
                bare_step(deep, part, byte)
            }
        }
        Spot::Bare(part) => bare_step(deep, part, byte),
        Spot::Quoted(part, has_trigger) => quoted_step(deep, part, has_trigger, byte),
        Spot::Backslash(has_trigger) => escape_step(has_trigger, byte),
        _ => unicode_step(spot, byte),
    }
}

/// Whether the word may end there.
fn accepts(spot: Spot) -> bool
    ensures { result ≡ accepts spot }
{
    matches!(
        spot,
        Spot::Bare(Part::Name(_) | Part::Empty | Part::Label) | Spot::Ended
    )
}

/// Whether the word is a spelling, or else how many of its bytes go before it is the beginning of none.
/// Costs the word's bytes.
pub(crate) fn scan(deep: bool, part: Part, word: &[u8]) -> Result<(), usize>
    ensures { MatchResult result (λ _. Accepts deep (Spot.Start part) word.now) (λ at. StopsAt deep (Spot.Start part) word.now at) }
{
    let mut spot = Spot::Start(part);
    for (at, byte) in word.iter().enumerate() {
        match step(deep, spot, *byte) {
            Some(next) => spot = next,
            None => return Err(at),
        }
    }
    if accepts(spot) {
        Ok(())
    } else {
        Err(word.len())
    }
}
