ghost use Rattle.std.specs.Prelude.{◌≡◌, ℕ, List, IfOk, string_bytes, decimal, codes, ◌++◌};
ghost use Rattle.cp_reply.specs.Lines.{source_text, record_text, record_or_none, range_text, differs_text, verdict_text, stats_text, commit_text};

use crate::word::{kind_text, letter_text};
use cp_model::{LogLine, Record, Stats, Verdict};
use cp_path::Loc;
use cp_spelling::{label_text, place_text};
use std::alloc::{AllocError, Global};

/// The source of a copy, behind a space.
fn source_text(alloc: Global, source: &Option<Loc>) -> Result<String, AllocError>
    ensures { IfOk result (λ s. string_bytes s ≡ source_text source.now) }
{
    match source {
        None => Ok(String::new(alloc)),
        Some(place) => {
            let place = place_text(alloc, place)?;
            format!(in alloc; " {place}")
        }
    }
}

/// A record as it is listed: the Tid, the letter, the place, and for a copy its source. Costs their bytes.
pub fn record_text(alloc: Global, entry: &Record) -> Result<String, AllocError>
    ensures { IfOk result (λ s. string_bytes s ≡ record_text entry.now) }
{
    let tid = entry.tid;
    let op = letter_text(entry.op);
    let place = place_text(alloc, &entry.loc)?;
    let source = source_text(alloc, &entry.src)?;
    format!(in alloc; "{tid} {op} {place}{source}")
}

fn record_or_none(alloc: Global, entry: &Option<Record>) -> Result<String, AllocError>
    ensures { IfOk result (λ s. string_bytes s ≡ record_or_none entry.now) }
{
    match entry {
        None => String::from_str(alloc, "none"),
        Some(entry) => record_text(alloc, entry),
    }
}

/// One number, or the first and the last.
pub(crate) fn range_text(alloc: Global, low: u64, high: u64) -> Result<String, AllocError>
    ensures { IfOk result (λ s. string_bytes s ≡ range_text low high) }
{
    if low == high {
        return format!(in alloc; "{low}");
    }
    format!(in alloc; "{low}..{high}")
}

/// The stored and the expected one.
fn differs_text(alloc: Global, at: u64, stored: &str, expected: &str) -> Result<String, AllocError>
    ensures { IfOk result (λ s. string_bytes s ≡ differs_text at stored.now expected.now) }
{
    format!(in alloc; "differs at {at}: stored {stored}, expected {expected}")
}

fn records_differ(
    alloc: Global,
    at: u64,
    stored: &Option<Record>,
    expected: &Option<Record>,
) -> Result<String, AllocError>
    ensures { IfOk result (λ s. string_bytes s ≡ differs_text at (record_or_none stored.now) (record_or_none expected.now)) }
{
    let stored = record_or_none(alloc, stored)?;
    let expected = record_or_none(alloc, expected)?;
    differs_text(alloc, at, stored.as_str(), expected.as_str())
}

fn numbers_differ(alloc: Global, at: u64, stored: u64, expected: u64) -> Result<String, AllocError>
    ensures { IfOk result (λ s. string_bytes s ≡ differs_text at (decimal stored) (decimal expected)) }
{
    format!(in alloc; "differs at {at}: stored {stored}, expected {expected}")
}

/// What comes of a comparison.
pub(crate) fn verdict_text(alloc: Global, verdict: &Verdict) -> Result<String, AllocError>
    ensures { IfOk result (λ s. string_bytes s ≡ verdict_text verdict.now) }
{
    match verdict {
        Verdict::Agrees(count) => format!(in alloc; "agrees {count}"),
        Verdict::Differs {
            at,
            stored,
            expected,
        } => records_differ(alloc, *at, stored, expected),
        Verdict::TreeDiffers { at, place } => {
            let place = place_text(alloc, place)?;
            format!(in alloc; "differs at {at}: tree at {place}")
        }
        Verdict::NumberDiffers {
            at,
            stored,
            expected,
        } => numbers_differ(alloc, *at, *stored, *expected),
    }
}

/// The numbers of a state.
pub(crate) fn stats_text(alloc: Global, stats: &Stats) -> Result<String, AllocError>
    ensures { IfOk result (λ s. string_bytes s ≡ stats_text stats.now) }
{
    let kind = kind_text(stats.kind);
    let Stats {
        tid,
        transactions,
        records,
        nodes,
        sources,
        ..
    } = *stats;
    format!(in alloc;
        "stats: kind {kind}, tid {tid}, transactions {transactions}, records {records}, nodes {nodes}, sources {sources}"
    )
}

fn commit_words(
    alloc: Global,
    range: &str,
    curator: &str,
    moment: u64,
    operations: u32,
) -> Result<String, AllocError>
    ensures { IfOk result (λ s. string_bytes s ≡ codes "commit " ++ (range.now ++ (codes " by " ++ (curator.now ++ (codes " at " ++ (decimal moment ++ (codes ", operations " ++ decimal operations))))))) }
{
    format!(in alloc; "commit {range} by {curator} at {moment}, operations {operations}")
}

/// A commit in the log.
pub(crate) fn commit_text(alloc: Global, commit: &LogLine) -> Result<String, AllocError>
    ensures { IfOk result (λ s. string_bytes s ≡ commit_text commit.now) }
{
    let range = range_text(alloc, commit.low, commit.high)?;
    let curator = label_text(alloc, &commit.curator)?;
    commit_words(
        alloc,
        range.as_str(),
        curator.as_str(),
        commit.moment,
        commit.operations,
    )
}
