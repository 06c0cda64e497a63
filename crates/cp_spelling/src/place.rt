ghost use Rattle.std.specs.Prelude.{◌≡◌, ◌≤◌, ◌<◌, ◌⊎◌, length, true, false, IfOk, IfErr, MatchResult, string_bytes};
ghost use Rattle.cp_path.specs.declared.limits.TheConstants.{LABELS_MAX, LOC_MAX};
ghost use Rattle.cp_path.specs.declared.fault.PathFault.TheVariants as fault;
ghost use Rattle.cp_path.specs.Answers.{Answers};
ghost use Rattle.cp_path.specs.Text.{is_name};
ghost use Rattle.cp_path.specs.Place.{size};
ghost use Rattle.cp_path.specs.Spelling.{raw_place, place_text};
ghost use Rattle.cp_spelling.specs.Scan.{place_from};
ghost use Rattle.cp_spelling.specs.Reading.{IsPlaceSpelling, IsBadAt, PlaceFault, any_long, IsOver};
ghost use Rattle.cp_spelling.specs.Words.{place_reading};

use crate::quoting::{push_escaped, unless_quoted};
use crate::scan::{Part, scan};
use crate::split::pieces_of;
use cp_path::{LOC_MAX, Label, Loc, Name, Path, PathFault, Text};
use std::alloc::{AllocError, Global};

/// The place that a word spells. `BadEscape` has the length of the word's longest beginning that some
/// place's spelling begins with. Costs the word's bytes.
#[tactic(auto, using(crate::proofs::WordLaws::place_fault_reading))]
pub fn read_place(alloc: Global, word: &str) -> Result<Loc, PathFault>
    ensures value { IfOk result (λ q. (place_text q ≡ word.now) × (size q ≤ LOC_MAX)) }
    ensures fault { IfErr result (λ e. PlaceFault e word.now) }
    ensures answers { Answers fault.Memory (place_reading word.now) result }
{
    match check_place(word) {
        Ok(()) => spelled_place(alloc, word),
        Err(at) => Err(PathFault::BadEscape(at)),
    }
}

/// The place's spelling. Costs the place's size.
pub fn place_text(alloc: Global, place: &Loc) -> Result<String, AllocError>
    ensures { IfOk result (λ s. string_bytes s ≡ place_text place.now) }
{
    unless_quoted(alloc, raw_text(alloc, place)?)
}

/// The name, then a slash and the escaped label for each label.
fn raw_text(alloc: Global, place: &Loc) -> Result<String, AllocError>
    ensures { IfOk result (λ s. string_bytes s ≡ raw_place place.now) }
{
    let mut word = String::from_str(alloc, place.db.as_str())?;
    for label in place.path.labels() {
        word.push('/')?;
        push_escaped(&mut word, label.as_str())?;
    }
    Ok(word)
}

/// Whether the word is a place's spelling, or else the length of its longest beginning that some begins with.
fn check_place(word: &str) -> Result<(), usize>
    ensures { MatchResult result (λ _. IsPlaceSpelling word.now) (λ at. IsBadAt IsPlaceSpelling word.now at) }
{
    scan(true, Part::Begin, word.as_bytes())
}

/// The place that the word is the spelling of, unless it is over a limit.
fn spelled_place(alloc: Global, word: &str) -> Result<Loc, PathFault>
    requires { IsPlaceSpelling word.now }
    ensures value { IfOk result (λ q. (place_text q ≡ word.now) × (size q ≤ LOC_MAX)) }
    ensures fault { IfErr result (λ e. PlaceFault e word.now) }
    ensures reads { IfOk result (λ q. place_reading word.now ≡ Ok q) }
{
    let pieces = pieces_of(alloc, word)?;
    place_of(alloc, pieces.as_slice())
}

/// The place whose name is the first piece, and whose labels are the others.
fn place_of(alloc: Global, pieces: &[Text]) -> Result<Loc, PathFault>
    requires some { 0 < length pieces.now }
    requires name { is_name (place_from pieces.now).db ≡ true }
    ensures value { IfOk result (λ q. (q ≡ place_from pieces.now) × (size q ≤ LOC_MAX)) }
    ensures within { IfOk result (λ q. (any_long q.path ≡ false) × (length q.path ≤ LABELS_MAX)) }
    ensures fault { IfErr result (λ e. IsOver e (place_from pieces.now)) }
{
    let labels = labels_of(alloc, &pieces[1..])?;
    let path = Path::of(alloc, labels.as_slice())?;
    let name: &Text = &pieces[0];
    let db = Name::read(alloc, name.items.as_str())?;
    let place = Loc { db, path };
    if place.size() > LOC_MAX as u32 {
        return Err(PathFault::PathTooLong);
    }
    Ok(place)
}

/// The pieces as labels, or `LabelTooLong` where one of them is too long.
fn labels_of(alloc: Global, pieces: &[Text]) -> Result<Vec<Label>, PathFault>
    ensures value { IfOk result (λ v. v.items ≡ pieces.now) }
    ensures short { IfOk result (λ _. any_long pieces.now ≡ false) }
    ensures long { IfErr result (λ e. ((e ≡ fault.LabelTooLong) × (any_long pieces.now ≡ true)) ⊎ (e ≡ fault.Memory)) }
{
    let mut labels = Vec::new(alloc);
    for piece in pieces {
        let label = Label::new(alloc, piece.items.as_str())?;
        labels.push(label)?;
    }
    Ok(labels)
}
