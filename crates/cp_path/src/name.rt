ghost use Rattle.std.specs.Prelude.{◌≡◌, ◌≤◌, ◌<◌, ◌↔◌, ◌⊎◌, ◌&&◌, ◌||◌, ◌==◌, ℕ, List, [], ◌∷◌, length, false, true, nat_le, slice_index, IfOk, IfErr, IsErrOf, IsTrue, string_bytes};
ghost use Rattle.std.specs.List.{list_all};
ghost use Rattle.cp_path.specs.Text.{text_eq, text_cmp, is_letter, is_digit, is_name_byte, is_name, target};
ghost use Rattle.cp_path.specs.declared.fault.PathFault.TheVariants as fault;

use crate::fault::PathFault;
use crate::limits::NAME_MAX;
use crate::text::Text;
use std::alloc::{AllocError, Global};
use std::marker::Model;

/// The name of a database: an ASCII letter, then ASCII letters, digits or `_`, [`NAME_MAX`] characters at most.
/// `T` is the one that curators change.
#[derive(PartialEq, Eq, PartialOrd, Ord, Hash, Drop)]
pub struct Name {
    text: Text,
}

impl Model for Name {
    ghost use Rattle.std.specs.Prelude.{◌≡◌, ℕ, List, true};
    ghost use Rattle.cp_path.specs.Text.{is_name};

    ghost Value = { List ℕ };

    ghost view = { λ a. a.text };

    ghost invariant = { λ a. is_name a.text ≡ true };

    ghost inverse = { λ t. record { text = t } };
}

/// Whether the byte is an ASCII letter, with which a name begins.
pub fn is_letter(byte: u8) -> bool
    ensures { result ≡ is_letter byte }
{
    matches!(byte, b'A'..=b'Z' | b'a'..=b'z')
}

/// Whether the byte is a letter, a digit or `_`, of which a name is made.
pub fn is_name_byte(byte: u8) -> bool
    ensures { result ≡ is_name_byte byte }
{
    is_letter(byte) || matches!(byte, b'0'..=b'9' | b'_')
}

fn all_name_bytes(word: &[u8]) -> bool
    ensures { result ≡ list_all is_name_byte word.now }
{
    word.iter().all(|byte| is_name_byte(*byte))
}

fn is_name(word: &[u8]) -> bool
    ensures { result ≡ is_name word.now }
{
    if word.is_empty() {
        return false;
    }
    let is_short = word.len() <= NAME_MAX;
    let begins = is_letter(word[0]);
    let is_plain = all_name_bytes(word);
    is_short && (begins && is_plain)
}

impl Clone for Name {
    ghost is_clone = { λ a b. b ≡ a };

    fn clone(&self) -> Result<Name, AllocError> {
        Ok(Name {
            text: self.text.clone()?,
        })
    }
}

impl Name {
    /// The name of the database that curators change.
    pub fn target(alloc: Global) -> Result<Name, AllocError>
        ensures { IfOk result (λ a. a ≡ target) }
    {
        Ok(Name {
            text: Text::copy_of(alloc, "T")?,
        })
    }

    /// The name that the text is.
    pub fn read(alloc: Global, text: &str) -> Result<Name, PathFault>
        ensures value { IfOk result (λ a. a ≡ text.now) }
        ensures bad { (result ≡ Err PathFault.BadName) ↔ (is_name text.now ≡ false) }
        ensures faults { IfErr result (λ e. (e ≡ PathFault.BadName) ⊎ (e ≡ PathFault.Memory)) }
    {
        if !is_name(text.as_bytes()) {
            return Err(PathFault::BadName);
        }
        Ok(Name {
            text: Text::copy_of(alloc, text)?,
        })
    }

    /// The name's text.
    pub fn as_str(&self) -> &str
        ensures text { result.now ≡ self.now }
        ensures name { is_name self.now ≡ true }
        ensures short { length self.now ≤ NAME_MAX }
    {
        self.text.as_str()
    }

    /// Whether it is the name of the database that curators change.
    pub fn is_target(&self) -> bool
        ensures { result ≡ text_eq self.now target }
    {
        self.text.as_str() == "T"
    }
}
