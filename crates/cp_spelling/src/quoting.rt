ghost use Rattle.std.specs.Prelude.{◌≡◌, ◌++◌, ◌==◌, ◌||◌, nat_le, IfOk, OnOk, string_bytes};
ghost use Rattle.std.specs.Char.{encode_utf8};
ghost use Rattle.json.specs.Print.{quoted};
ghost use Rattle.cp_path.specs.Spelling.{is_trigger, has_trigger, escaped_text, unless_quoted};

use std::alloc::{AllocError, Global};

/// Whether no unquoted word holds the byte: the space and every byte below it, or one of `" ; { } : ,`.
pub fn is_trigger(byte: u8) -> bool
    ensures { result ≡ is_trigger byte }
{
    byte <= b' ' || matches!(byte, b'"' | b';' | b'{' | b'}' | b':' | b',')
}

/// Whether some byte makes the word be quoted.
fn has_trigger(word: &[u8]) -> bool
    ensures { result ≡ has_trigger word.now }
{
    word.iter().any(|byte| is_trigger(*byte))
}

/// The text as a JSON string.
pub(crate) fn quote(alloc: Global, text: String) -> Result<String, AllocError>
    ensures { IfOk result (λ s. string_bytes s ≡ quoted (string_bytes text)) }
{
    let value = serde_json::Value::String(text);
    value.to_string(alloc)
}

/// The word, in quotation marks where it has a trigger.
pub(crate) fn unless_quoted(alloc: Global, word: String) -> Result<String, AllocError>
    ensures { IfOk result (λ s. string_bytes s ≡ unless_quoted (string_bytes word)) }
{
    if has_trigger(word.as_bytes()) {
        quote(alloc, word)
    } else {
        Ok(word)
    }
}

/// Puts the character at the end of `out`, escaped.
#[tactic(auto, using(crate::proofs::Writing::plain_character))]
fn push_character(out: &mut String, character: char) -> Result<(), AllocError>
    ensures { OnOk result (string_bytes out.new ≡ string_bytes out.old ++ escaped_text (encode_utf8 character)) }
{
    if character == '~' {
        out.push_str("~0")
    } else if character == '/' {
        out.push_str("~1")
    } else {
        out.push(character)
    }
}

/// Puts the escaped label at the end of `out`.
pub(crate) fn push_escaped(out: &mut String, label: &str) -> Result<(), AllocError>
    ensures { OnOk result (string_bytes out.new ≡ string_bytes out.old ++ escaped_text label.now) }
{
    for character in label.chars() {
        push_character(out, character)?;
    }
    Ok(())
}
