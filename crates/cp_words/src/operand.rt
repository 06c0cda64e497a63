//! What a single word of a call may be.
ghost use Rattle.std.specs.Prelude.{◌≡◌, IfOk, Ok, option_map, string_bytes};
ghost use Rattle.std.specs.List.{list_all};
ghost use Rattle.cp_words.specs.Operands as form;

use crate::limits::COUNT_MAX;
use cp_model::{Form, Kind};
use cp_path::{Label, Loc, Name, PathFault, Value};
use cp_spelling::{read_place, read_value};
use std::alloc::{AllocError, Global};

/// Whether the word isn't empty and doesn't begin with `-`.
fn is_operand(word: &str) -> bool
    ensures { result ≡ form.is_operand word.now }
{
    match word.as_bytes() {
        [first, ..] => *first != b'-',
        [] => false,
    }
}

fn is_operand_text(word: &String) -> bool
    ensures { result ≡ form.is_operand (string_bytes word.now) }
{
    is_operand(word.as_str())
}

/// Whether no word is empty or begins with `-`.
pub(crate) fn are_operands(words: &[String]) -> bool
    ensures { result ≡ list_all (λ w. form.is_operand (string_bytes w)) words.now }
{
    words.iter().all(|word| is_operand_text(word))
}

/// The kind that a word names.
pub(crate) fn kind_named(word: &str) -> Option<Kind>
    ensures { result ≡ form.kind_named word.now }
{
    match word {
        "n" => Some(Kind::N),
        "t" => Some(Kind::T),
        "h" => Some(Kind::H),
        "ht" => Some(Kind::HT),
        _ => None,
    }
}

/// The label whose text the word is.
pub(crate) fn label_of(alloc: Global, word: &str) -> Result<Option<Label>, AllocError>
    ensures { IfOk result (λ o. o ≡ form.label_of word.now) }
{
    match Label::new(alloc, word) {
        Ok(label) => Ok(Some(label)),
        Err(PathFault::Memory) => Err(AllocError),
        Err(_) => Ok(None),
    }
}

/// The curator that a word names; without one it is the empty label.
pub(crate) fn curator_by(alloc: Global, word: Option<&str>) -> Result<Option<Label>, AllocError>
    ensures { IfOk result (λ o. o ≡ form.curator_by (option_map (λ w. w.now) word.entry)) }
{
    match word {
        Some(text) => label_of(alloc, text),
        None => label_of(alloc, ""),
    }
}

/// The name that a source may have.
pub(crate) fn source_name(alloc: Global, word: &str) -> Result<Option<Name>, AllocError>
    ensures { IfOk result (λ o. o ≡ form.source_name word.now) }
{
    match Name::read(alloc, word) {
        Ok(name) if name.is_target() => Ok(None),
        Ok(name) => Ok(Some(name)),
        Err(PathFault::Memory) => Err(AllocError),
        Err(_) => Ok(None),
    }
}

/// A form without a key column.
fn plain_form(word: &str) -> Option<Form>
    ensures { result ≡ form.plain_form word.now }
{
    match word {
        "json" => Some(Form::Json),
        "csv" => Some(Form::Csv(None)),
        _ => None,
    }
}

/// A form with a key column, whose text is the second word.
fn keyed_form(alloc: Global, word: &str, column: &str) -> Result<Option<Form>, AllocError>
    ensures { IfOk result (λ o. o ≡ form.keyed_form word.now column.now) }
{
    if word != "csv" {
        return Ok(None);
    }
    match label_of(alloc, column)? {
        Some(key) => Ok(Some(Form::Csv(Some(key)))),
        None => Ok(None),
    }
}

/// The form that a word names, perhaps with a key column.
pub(crate) fn form_by(
    alloc: Global,
    word: &str,
    column: Option<&str>,
) -> Result<Option<Form>, AllocError>
    ensures { IfOk result (λ o. o ≡ form.form_by word.now (option_map (λ w. w.now) column.entry)) }
{
    match column {
        Some(key) => keyed_form(alloc, word, key),
        None => Ok(plain_form(word)),
    }
}

/// The number, where the value is one that isn't below 0.
fn number_in(value: &Value) -> Option<u64>
    ensures { result ≡ form.number_in (Ok value.now) }
{
    match value {
        Value::Whole(number) => u64::try_from(number.get()).ok(),
        _ => None,
    }
}

/// The number, from 0 to 2^64-1, that the word spells.
pub(crate) fn number_of(alloc: Global, word: &str) -> Result<Option<u64>, AllocError>
    ensures { IfOk result (λ o. o ≡ form.number_of word.now) }
{
    match read_value(alloc, word) {
        Ok(value) => Ok(number_in(&value)),
        Err(PathFault::Memory) => Err(AllocError),
        Err(_) => Ok(None),
    }
}

/// The number of statements that the word spells.
pub(crate) fn count_of(alloc: Global, word: &str) -> Result<Option<u32>, AllocError>
    ensures { IfOk result (λ o. o ≡ form.count_of word.now) }
{
    match number_of(alloc, word)? {
        Some(count) if 1 <= count && count <= COUNT_MAX as u64 => Ok(Some(count as u32)),
        _ => Ok(None),
    }
}

/// The place that the word spells.
pub(crate) fn place_of(alloc: Global, word: &str) -> Result<Option<Loc>, AllocError>
    ensures { IfOk result (λ o. o ≡ form.place_of word.now) }
{
    match read_place(alloc, word) {
        Ok(place) => Ok(Some(place)),
        Err(PathFault::Memory) => Err(AllocError),
        Err(_) => Ok(None),
    }
}
