ghost use Rattle.std.specs.Prelude.{◌≡◌, ◌⊎◌, ℤ, Some, IfOk, IfErr, MatchOption, string_bytes};
ghost use Rattle.cp_path.specs.declared.value.Value.{Value};
ghost use Rattle.cp_path.specs.declared.fault.PathFault.TheVariants as fault;
ghost use Rattle.cp_path.specs.Answers.{Answers};
ghost use Rattle.cp_path.specs.Whole.{IsWhole};
ghost use Rattle.cp_path.specs.Spelling.{whole_text, value_text};
ghost use Rattle.cp_spelling.specs.Reading.{SpellsValue, IsNoWord, IsNoWhole, IsNoText, SpellsText};
ghost use Rattle.cp_spelling.specs.Words.{word_reading, whole_reading, text_reading, value_reading};

use crate::quoting::quote;
use crate::string::read_string;
use cp_path::{PathFault, TEXT_MAX, Text, Value, Whole};
use std::alloc::{AllocError, Global};

/// The value that a word spells: a text by each of its JSON strings, any other value by its one spelling.
/// Costs the word's bytes.
#[tactic(auto, using(crate::proofs::ValueLaws::value_reading_word, crate::proofs::ValueLaws::value_reading_whole, crate::proofs::ValueLaws::value_reading_text))]
pub fn read_value(alloc: Global, word: &str) -> Result<Value, PathFault>
    ensures value { IfOk result (λ v. SpellsValue word.now v) }
    ensures bad { IfErr result (λ e. e ≡ fault.BadValue → (v : Value) → ¬ SpellsValue word.now v) }
    ensures faults { IfErr result (λ e. (e ≡ fault.BadValue) ⊎ (e ≡ fault.Memory)) }
    ensures answers { Answers fault.Memory (value_reading word.now) result }
{
    if let Some(value) = read_word(word) {
        return Ok(value);
    }
    if let Some(number) = read_whole(alloc, word)? {
        return Ok(Value::Whole(number));
    }
    match read_short_text(alloc, word)? {
        Some(text) => Ok(Value::Text(text)),
        None => Err(PathFault::BadValue),
    }
}

/// The value's spelling. Costs the bytes of its text.
pub fn value_text(alloc: Global, value: &Value) -> Result<String, AllocError>
    ensures { IfOk result (λ s. string_bytes s ≡ value_text value.now) }
{
    match value {
        Value::Null => String::from_str(alloc, "null"),
        Value::False => String::from_str(alloc, "false"),
        Value::True => String::from_str(alloc, "true"),
        Value::Whole(number) => number.get().to_string(alloc),
        Value::Text(text) => quote(alloc, text.items.clone()?),
    }
}

/// The value that is one of the three words.
#[tactic(auto, using(crate::proofs::ValueLaws::word_reading_none))]
fn read_word(word: &str) -> Option<Value>
    ensures spells { MatchOption result (IsNoWord word.now) (λ v. SpellsValue word.now v) }
    ensures reads { result ≡ word_reading word.now }
{
    if word == "null" {
        Some(Value::Null)
    } else if word == "false" {
        Some(Value::False)
    } else if word == "true" {
        Some(Value::True)
    } else {
        None
    }
}

/// The number, at least where the word is its spelling.
fn parse_whole(word: &str) -> Option<Whole>
    ensures { (n : ℤ) → IsWhole n → word.now ≡ whole_text n → result ≡ Some n }
{
    match word.parse::<i128>() {
        Ok(number) => Whole::new(number),
        Err(_) => None,
    }
}

/// The number that the word is the spelling of. A number is written in one way, so it is written to compare.
#[tactic(auto, using(crate::proofs::ValueLaws::whole_reading_none, crate::proofs::ValueLaws::whole_reading_spelled))]
fn read_whole(alloc: Global, word: &str) -> Result<Option<Whole>, AllocError>
    ensures spells { IfOk result (λ o. MatchOption o (IsNoWhole word.now) (λ n. word.now ≡ whole_text n)) }
    ensures reads { IfOk result (λ o. o ≡ whole_reading word.now) }
{
    let Some(whole) = parse_whole(word) else {
        return Ok(None);
    };
    let spelling = whole.get().to_string(alloc)?;
    if spelling.as_str() == word {
        Ok(Some(whole))
    } else {
        Ok(None)
    }
}

/// The text of the JSON string that the word is, within the limit of a text value.
#[tactic(auto, using(crate::proofs::ValueLaws::text_reading_none, crate::proofs::ValueLaws::text_reading_spelled))]
fn read_short_text(alloc: Global, word: &str) -> Result<Option<Text>, AllocError>
    ensures spells { IfOk result (λ o. MatchOption o (IsNoText word.now) (λ t. SpellsText word.now t)) }
    ensures reads { IfOk result (λ o. o ≡ text_reading word.now) }
{
    match read_string(alloc, word)? {
        Some(text) if text.len() <= TEXT_MAX => Ok(Some(Text { items: text })),
        _ => Ok(None),
    }
}
