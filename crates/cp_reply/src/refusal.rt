ghost use Rattle.std.specs.Prelude.{◌≡◌, ◌++◌, codes, decimal, IfOk, string_bytes};
ghost use Rattle.cp_path.specs.Spelling.{place_text, label_text};
ghost use Rattle.cp_reply.specs.Lines.{place_fault_text, failed_text, why_text};

use crate::reply::{Of, Why};
use cp_path::{Label, Loc, Name, PathFault};
use cp_spelling::{label_text, place_text};
use std::alloc::{AllocError, Global};

fn words(alloc: Global, words: &str) -> Result<String, AllocError>
    ensures { IfOk result (λ s. string_bytes s ≡ words.now) }
{
    String::from_str(alloc, words)
}

/// These words, then the place.
fn with_place(alloc: Global, words: &str, place: &Loc) -> Result<String, AllocError>
    ensures { IfOk result (λ s. string_bytes s ≡ words.now ++ place_text place.now) }
{
    let place = place_text(alloc, place)?;
    format!(in alloc; "{words}{place}")
}

/// These words, then the number.
fn with_number(alloc: Global, words: &str, number: u64) -> Result<String, AllocError>
    ensures { IfOk result (λ s. string_bytes s ≡ words.now ++ decimal number) }
{
    format!(in alloc; "{words}{number}")
}

fn label_there(alloc: Global, label: &Label, place: &Loc) -> Result<String, AllocError>
    ensures { IfOk result (λ s. string_bytes s ≡ codes "label " ++ (label_text label.now ++ (codes " is there in " ++ place_text place.now))) }
{
    let label = label_text(alloc, label)?;
    let place = place_text(alloc, place)?;
    format!(in alloc; "label {label} is there in {place}")
}

fn no_label(alloc: Global, label: &Label, place: &Loc) -> Result<String, AllocError>
    ensures { IfOk result (λ s. string_bytes s ≡ codes "no label " ++ (label_text label.now ++ (codes " in " ++ place_text place.now))) }
{
    let label = label_text(alloc, label)?;
    let place = place_text(alloc, place)?;
    format!(in alloc; "no label {label} in {place}")
}

/// Why a word is no place, label or value.
fn place_fault_text(fault: PathFault) -> &'static str
    ensures { result.now ≡ place_fault_text fault }
{
    match fault {
        PathFault::BadEscape(_) => "bad escape",
        PathFault::LabelTooLong => "label too long",
        PathFault::TooDeep => "place too deep",
        PathFault::PathTooLong => "place too long",
        PathFault::BadValue => "bad value",
        PathFault::BadName => "",
        PathFault::Memory => "",
    }
}

fn place_fault(alloc: Global, at: usize, fault: PathFault) -> Result<String, AllocError>
    ensures { IfOk result (λ s. string_bytes s ≡ place_fault_text fault ++ (codes " at " ++ decimal at)) }
{
    let fault = place_fault_text(fault);
    format!(in alloc; "{fault} at {at}")
}

/// A transaction, or the commit of one, that failed at its operation of this number.
fn failed_text(alloc: Global, of: Of, number: u32) -> Result<String, AllocError>
    ensures { IfOk result (λ s. string_bytes s ≡ failed_text of number) }
{
    match of {
        Of::Commit => format!(in alloc; "failed at {number}"),
        _ => format!(in alloc; "transaction failed at {number}"),
    }
}

fn no_source(alloc: Global, name: &Name) -> Result<String, AllocError>
    ensures { IfOk result (λ s. string_bytes s ≡ codes "no source " ++ name.now) }
{
    let name = name.as_str();
    format!(in alloc; "no source {name}")
}

fn source_there(alloc: Global, name: &Name) -> Result<String, AllocError>
    ensures { IfOk result (λ s. string_bytes s ≡ codes "source " ++ (name.now ++ codes " is there")) }
{
    let name = name.as_str();
    format!(in alloc; "source {name} is there")
}

fn ragged(alloc: Global, row: u64) -> Result<String, AllocError>
    ensures { IfOk result (λ s. string_bytes s ≡ codes "row " ++ (decimal row ++ codes " is ragged")) }
{
    format!(in alloc; "row {row} is ragged")
}

/// Why something is refused. Costs the text's bytes a few times.
pub(crate) fn why_text(alloc: Global, of: Of, why: &Why) -> Result<String, AllocError>
    ensures { IfOk result (λ s. string_bytes s ≡ why_text of why.now) }
{
    match why {
        Why::NoPlace(place) => with_place(alloc, "no place ", place),
        Why::LabelThere(label, place) => label_there(alloc, label, place),
        Why::NoLabel(label, place) => no_label(alloc, label, place),
        Why::NotANode(place) => with_place(alloc, "not a node ", place),
        Why::ReadOnly(place) => with_place(alloc, "read only ", place),
        Why::NoSource(name) => no_source(alloc, name),
        Why::NoOrigin(place) => with_place(alloc, "no origin ", place),
        Why::TooDeep => words(alloc, "too deep"),
        Why::TooMany => words(alloc, "too many nodes"),
        Why::TooBig => words(alloc, "tree too big"),
        Why::TooManyOps => words(alloc, "too many operations"),
        Why::FailedAt(number) => failed_text(alloc, of, *number),
        Why::StatementTooLong => words(alloc, "statement too long"),
        Why::Syntax(at) => with_number(alloc, "syntax at ", *at as u64),
        Why::Place(at, fault) => place_fault(alloc, *at, *fault),
        Why::NoOperation => words(alloc, "no operation"),
        Why::TransactionTooLarge => words(alloc, "transaction too large"),
        Why::NoFile => words(alloc, "no file"),
        Why::FileTooLong => words(alloc, "file too long"),
        Why::TransactionOpen => words(alloc, "a transaction is open"),
        Why::SourceThere(name) => source_there(alloc, name),
        Why::TooManySources => words(alloc, "too many sources"),
        Why::NotJson => words(alloc, "not JSON"),
        Why::LabelTooLong => words(alloc, "label too long"),
        Why::PlaceTooDeep => words(alloc, "place too deep"),
        Why::PlaceTooLong => words(alloc, "place too long"),
        Why::TextTooLong => words(alloc, "text too long"),
        Why::NotWhole(place) => with_place(alloc, "number not whole at ", place),
        Why::NoHeader => words(alloc, "no header"),
        Why::NotUtf8(row) => with_number(alloc, "not UTF-8 at row ", *row),
        Why::RepeatedHeader(column) => with_number(alloc, "repeated header at column ", *column),
        Why::NoColumn => words(alloc, "no column"),
        Why::Ragged(row) => ragged(alloc, *row),
        Why::RepeatedKey(row) => with_number(alloc, "repeated key at row ", *row),
        Why::StoreTooLarge => words(alloc, "store too large"),
        Why::StoreExists => words(alloc, "store exists"),
        Why::NoVersion(number) => with_number(alloc, "no version ", *number),
        Why::Stale(tid) => with_number(alloc, "stale at ", *tid),
    }
}
