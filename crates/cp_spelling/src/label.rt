ghost use Rattle.std.specs.Prelude.{◌≡◌, ◌≤◌, length, IfOk, IfErr, MatchResult, string_bytes};
ghost use Rattle.cp_path.specs.declared.limits.TheConstants.{LABEL_MAX};
ghost use Rattle.cp_path.specs.declared.fault.PathFault.{PathFault};
ghost use Rattle.cp_path.specs.declared.fault.PathFault.TheVariants as fault;
ghost use Rattle.cp_path.specs.Answers.{Answers};
ghost use Rattle.cp_path.specs.Spelling.{label_text};
ghost use Rattle.cp_spelling.specs.Reading.{IsLabelSpelling, IsBadAt, LabelFault};
ghost use Rattle.cp_spelling.specs.Words.{label_reading};

use crate::quoting::{push_escaped, quote, unless_quoted};
use crate::scan::{Part, scan};
use crate::split::pieces_of;
use cp_path::{Label, PathFault, Text};
use std::alloc::{AllocError, Global};

/// The label that a word spells where it stands alone. `BadEscape` has the length of the word's longest
/// beginning that some label's spelling begins with. Costs the word's bytes.
#[tactic(auto, using(crate::proofs::WordLaws::label_fault_reading))]
pub fn read_label(alloc: Global, word: &str) -> Result<Label, PathFault>
    ensures value { IfOk result (λ a. label_text a ≡ word.now) }
    ensures fault { IfErr result (λ e. LabelFault e word.now) }
    ensures answers { Answers fault.Memory (label_reading word.now) result }
{
    match check_label(word) {
        Ok(()) => spelled_label(alloc, word),
        Err(at) => Err(PathFault::BadEscape(at)),
    }
}

/// The label's spelling where it stands alone. Costs its bytes.
pub fn label_text(alloc: Global, label: &Label) -> Result<String, AllocError>
    ensures { IfOk result (λ s. string_bytes s ≡ label_text label.now) }
{
    let mut word = String::new(alloc);
    push_escaped(&mut word, label.as_str())?;
    if word.is_empty() {
        return quote(alloc, word);
    }
    unless_quoted(alloc, word)
}

/// Whether the word is a label's spelling, or else the length of its longest beginning that some begins with.
fn check_label(word: &str) -> Result<(), usize>
    ensures { MatchResult result (λ _. IsLabelSpelling word.now) (λ at. IsBadAt IsLabelSpelling word.now at) }
{
    scan(false, Part::Empty, word.as_bytes())
}

/// The label that the word is the spelling of.
fn spelled_label(alloc: Global, word: &str) -> Result<Label, PathFault>
    requires { IsLabelSpelling word.now }
    ensures value { IfOk result (λ a. label_text a ≡ word.now) }
    ensures fault { IfErr result (λ e. LabelFault e word.now) }
    ensures short { IfOk result (λ a. length a ≤ LABEL_MAX) }
{
    let pieces = pieces_of(alloc, word)?;
    let piece: &Text = &pieces[0];
    Label::new(alloc, piece.items.as_str())
}
