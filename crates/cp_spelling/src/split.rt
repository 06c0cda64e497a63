ghost use Rattle.std.specs.Prelude.{◌≡◌, ◌++◌, ◌∷◌, ℕ, List, [], false, IfOk, OnOk, string_bytes};
ghost use Rattle.std.specs.Char.{encode_utf8};
ghost use Rattle.cp_path.specs.Spelling.{label_word, label_text};
ghost use Rattle.cp_spelling.specs.Scan.{pieces, unescaped_byte};
ghost use Rattle.cp_spelling.specs.Reading.{IsLabelSpelling, IsPlaceSpelling, SpellsPlace};
ghost use Rattle.cp_path.specs.declared.loc.Loc.{Loc};

use crate::string::read_string;
use cp_path::Text;
use std::alloc::{AllocError, Global};

/// A text cut at its slashes, as far as it was read.
#[derive(Drop)]
struct Splitter {
    done: Vec<Text>,
    piece: String,
    /// Behind a `~`.
    is_escape: bool,
}

/// The character that `~` and this one stand for.
fn unescaped_byte(character: char) -> char
    ensures { result ≡ unescaped_byte character }
{
    if character == '0' {
        '~'
    } else if character == '1' {
        '/'
    } else {
        character
    }
}

impl Splitter {
    #[tactic(auto, using(crate::proofs::Pieces::behind_tilde, crate::proofs::Pieces::plain_piece))]
    fn take(&mut self, alloc: Global, character: char) -> Result<(), AllocError>
        ensures { OnOk result ((rest : List ℕ) → self.new.done.items ++ pieces self.new.is_escape (string_bytes self.new.piece) rest ≡ self.old.done.items ++ pieces self.old.is_escape (string_bytes self.old.piece) (encode_utf8 character ++ rest)) }
    {
        if self.is_escape {
            self.is_escape = false;
            self.piece.push(unescaped_byte(character))
        } else if character == '~' {
            self.is_escape = true;
            Ok(())
        } else if character == '/' {
            let piece = std::mem::replace(&mut self.piece, String::new(alloc));
            self.done.push(Text { items: piece })?;
            Ok(())
        } else {
            self.piece.push(character)
        }
    }
}

fn take_all(alloc: Global, splitter: &mut Splitter, text: &str) -> Result<(), AllocError>
    ensures { OnOk result ((rest : List ℕ) → splitter.new.done.items ++ pieces splitter.new.is_escape (string_bytes splitter.new.piece) rest ≡ splitter.old.done.items ++ pieces splitter.old.is_escape (string_bytes splitter.old.piece) (text.now ++ rest)) }
{
    for character in text.chars() {
        splitter.take(alloc, character)?;
    }
    Ok(())
}

/// The pieces between slashes, unescaped. Costs the text's bytes.
fn split(alloc: Global, text: &str) -> Result<Vec<Text>, AllocError>
    ensures { IfOk result (λ v. v.items ≡ pieces false [] text.now) }
{
    let mut splitter = Splitter {
        done: Vec::new(alloc),
        piece: String::new(alloc),
        is_escape: false,
    };
    take_all(alloc, &mut splitter, text)?;
    let Splitter {
        mut done,
        piece,
        ..
    } = splitter;
    done.push(Text { items: piece })?;
    Ok(done)
}

/// The text that a word spells: what its quotation marks hold, or the word itself.
#[tactic(auto, using(crate::proofs::Accepted::quoted_word, crate::proofs::Accepted::bare_text))]
fn text_of(alloc: Global, word: &str) -> Result<String, AllocError>
    ensures { IfOk result (λ s. (r : List ℕ) → word.now ≡ label_word r → string_bytes s ≡ r) }
{
    let bytes = word.as_bytes();
    if bytes.is_empty() || bytes[0] != b'"' {
        return String::from_str(alloc, word);
    }
    match read_string(alloc, word)? {
        Some(text) => Ok(text),
        None => Ok(String::new(alloc)),
    }
}

/// The pieces of the text that a word spells: of a label it is the label alone, of a place its name and its labels.
pub(crate) fn pieces_of(alloc: Global, word: &str) -> Result<Vec<Text>, AllocError>
    ensures label { IfOk result (λ v. IsLabelSpelling word.now → (a : List ℕ) × (word.now ≡ label_text a) × (v.items ≡ a ∷ [])) }
    ensures place { IfOk result (λ v. IsPlaceSpelling word.now → (q : Loc) × SpellsPlace word.now q × (v.items ≡ q.db ∷ q.path)) }
{
    let text = text_of(alloc, word)?;
    let pieces = split(alloc, text.as_str())?;
    Ok(pieces)
}
