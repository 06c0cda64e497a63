//! Whose a text of several curators' input is, and which statement it has.
ghost use Rattle.std.specs.Prelude.{◌≡◌, ◌≤◌, IfOk, if◌then◌else◌, drop, length};
ghost use Rattle.std.specs.declared.option.Option.TheVariants.{None, Some};
ghost use Rattle.cp_path.specs.Text.{is_name};
ghost use Rattle.cp_lang.specs.Lexer.{run, spaces};
ghost use Rattle.cp_reply.specs.Sharing.{bad_byte_or, blanked, front_end, front_word, owner};

use cp_lang::first_offset;
use cp_path::{Name, PathFault};
use cp_spelling::is_trigger;
use std::alloc::{AllocError, Global};

/// How many bytes of white space a text begins with. Costs them.
pub(crate) fn spaces(text: &[u8]) -> usize
    ensures is { result ≡ spaces text.now }
    ensures within { result ≤ length text.now }
{
    first_offset(text)
}

/// How many bytes stand before the first trigger. Costs them.
fn run(text: &[u8]) -> usize
    ensures is { result ≡ run text.now }
    ensures within { result ≤ length text.now }
{
    for (at, byte) in text.iter().enumerate() {
        if is_trigger(*byte) {
            return at;
        }
    }
    text.len()
}

/// The bytes from this offset on.
fn rest(text: &[u8], at: usize) -> &[u8]
    requires { at ≤ length text.now }
    ensures { result.now ≡ drop at text.now }
{
    &text[at..]
}

/// Where the first word of a text ends. Costs the bytes before that.
pub(crate) fn front_end(text: &[u8]) -> usize
    ensures end { result ≡ front_end text.now }
    ensures within { result ≤ length text.now }
{
    let start = spaces(text);
    let count = run(rest(text, start));
    start + count
}

/// The first word of a text. Costs the bytes before its end.
fn front_word(text: &[u8]) -> &[u8]
    ensures { result.now ≡ front_word (drop (spaces text.now) text.now) }
{
    let behind = rest(text, spaces(text));
    &behind[..run(behind)]
}

/// The name that bytes are, if they are one. Costs them.
fn name_in(alloc: Global, word: &[u8]) -> Result<Option<Name>, AllocError>
    ensures { IfOk result (λ n. n ≡ (if is_name word.now then Some word.now else None)) }
{
    let Ok(text) = std::str::from_utf8(word) else {
        return Ok(None);
    };
    match Name::read(alloc, text) {
        Ok(name) => Ok(Some(name)),
        Err(PathFault::Memory) => Err(AllocError),
        Err(_) => Ok(None),
    }
}

/// Whose a text is: that name's with which it begins, behind an `@`. Costs its first word.
pub(crate) fn owner(alloc: Global, text: &[u8]) -> Result<Option<Name>, AllocError>
    ensures { IfOk result (λ n. n ≡ owner text.now) }
{
    let word = front_word(text);
    if word.is_empty() {
        return Ok(None);
    }
    if word[0] != b'@' {
        return Ok(None);
    }
    name_in(alloc, rest(word, 1))
}

/// Puts blanks in place of the first bytes of a text.
pub(crate) fn blank(text: &mut [u8], count: usize)
    requires { count ≤ length text.old }
    ensures { text.new ≡ blanked count text.old }
{
    for at in 0..count {
        text[at] = b' ';
    }
}

/// The first byte of a text that isn't UTF-8, or else this offset. Costs the text's bytes.
pub(crate) fn bad_byte_or(at: usize, text: &[u8]) -> usize
    ensures { result ≡ bad_byte_or at text.now }
{
    match std::str::from_utf8(text) {
        Ok(_) => at,
        Err(fault) => fault.valid_up_to(),
    }
}
