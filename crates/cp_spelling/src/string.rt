ghost use Rattle.std.specs.Prelude.{◌≡◌, IfOk, MatchOption, string_bytes};
ghost use Rattle.cp_spelling.specs.Reading.{is_in_quotes, IsNoString, SpellsString};
ghost use Rattle.cp_spelling.specs.Words.{string_reading};

use cp_path::Text;
use serde_json::error::Category;
use std::alloc::{AllocError, Global};

/// The text of the JSON string that the word is, of any length. Costs the word's bytes.
#[tactic(auto, using(crate::proofs::ValueLaws::string_reading_none, crate::proofs::Accepted::string_reading_spelled))]
pub fn read_text(alloc: Global, word: &str) -> Result<Option<Text>, AllocError>
    ensures { IfOk result (λ o. o ≡ string_reading word.now) }
{
    match read_string(alloc, word)? {
        Some(text) => Ok(Some(Text { items: text })),
        None => Ok(None),
    }
}

/// Whether the word begins and ends with a quotation mark.
fn is_in_quotes(word: &[u8]) -> bool
    ensures { result ≡ is_in_quotes word.now }
{
    if word.is_empty() {
        return false;
    }
    let begins = word[0] == b'"';
    let ends = word[word.len() - 1] == b'"';
    begins && ends
}

/// The text of the JSON string that the word is, with nothing round it. Costs the word's bytes.
pub(crate) fn read_string(alloc: Global, word: &str) -> Result<Option<String>, AllocError>
    ensures { IfOk result (λ o. MatchOption o (IsNoString word.now) (λ t. SpellsString word.now (string_bytes t))) }
{
    if !is_in_quotes(word.as_bytes()) {
        return Ok(None);
    }
    match serde_json::Value::from_str(alloc, word) {
        Ok(serde_json::Value::String(text)) => Ok(Some(text)),
        Ok(_) => Ok(None),
        Err(error) => {
            if error.classify() == Category::Memory {
                return Err(AllocError);
            }
            Ok(None)
        }
    }
}
