ghost use Rattle.std.specs.Prelude.{◌≡◌, ◌++◌, ℕ, List, IfOk, OnOk, OnErr, string_bytes, codes, decimal, flat_map};
ghost use Rattle.cp_path.specs.Spelling.{place_text};
ghost use Rattle.cp_reply.specs.Lines.{line, query_text, tid_or_none, tids_text, segment_text, end_text, trace_text, from_text};

use cp_model::{FromAnswer, Query, Segment, Trace, TraceEnd};
use cp_path::Loc;
use cp_spelling::place_text;
use std::alloc::{AllocError, Global};

fn asked(alloc: Global, word: &str, place: &Loc) -> Result<String, AllocError>
    ensures { IfOk result (λ s. string_bytes s ≡ word.now ++ (place_text place.now ++ codes ": ")) }
{
    let place = place_text(alloc, place)?;
    format!(in alloc; "{word}{place}: ")
}

/// The statement, up to the answer.
pub(crate) fn query_text(alloc: Global, query: &Query) -> Result<String, AllocError>
    ensures { IfOk result (λ s. string_bytes s ≡ query_text query.now) }
{
    match query {
        Query::Src(place) => asked(alloc, "src ", place),
        Query::Hist(place) => asked(alloc, "hist ", place),
        Query::Mod(place) => asked(alloc, "mod ", place),
        Query::Trace(place) => asked(alloc, "trace ", place),
        Query::From(place) => asked(alloc, "from ", place),
        Query::Records(_) => Ok(String::new(alloc)),
        Query::Stats => Ok(String::new(alloc)),
    }
}

/// A Tid, or none.
pub(crate) fn tid_or_none(alloc: Global, tid: Option<u64>) -> Result<String, AllocError>
    ensures { IfOk result (λ s. string_bytes s ≡ tid_or_none tid) }
{
    match tid {
        None => String::from_str(alloc, "none"),
        Some(tid) => tid.to_string(alloc),
    }
}

/// Each Tid behind a space.
fn push_tids(text: &mut String, tids: &[u64]) -> Result<(), AllocError>
    ensures { OnOk result (string_bytes text.new ≡ string_bytes text.old ++ flat_map (λ t. codes " " ++ decimal t) tids.now) }
{
    for tid in tids {
        write!(text, " {tid}")?;
    }
    Ok(())
}

/// The Tids with a space between.
#[tactic(auto, using(crate::proofs::Between::tids_of))]
pub(crate) fn tids_text(alloc: Global, tids: &[u64]) -> Result<String, AllocError>
    ensures { IfOk result (λ s. string_bytes s ≡ tids_text tids.now) }
{
    match tids {
        [] => String::from_str(alloc, "none"),
        [first, rest @ ..] => {
            let mut text = first.to_string(alloc)?;
            push_tids(&mut text, rest)?;
            Ok(text)
        }
    }
}

/// The place and the versions.
fn segment_text(alloc: Global, segment: &Segment) -> Result<String, AllocError>
    ensures { IfOk result (λ s. string_bytes s ≡ segment_text segment.now) }
{
    let place = place_text(alloc, &segment.loc)?;
    let low = segment.low;
    let high = segment.high;
    format!(in alloc; "{place}@{low}..{high}")
}

/// How a trace ends.
fn end_text(alloc: Global, end: &TraceEnd) -> Result<String, AllocError>
    ensures { IfOk result (λ s. string_bytes s ≡ end_text end.now) }
{
    match end {
        TraceEnd::New => String::from_str(alloc, "new"),
        TraceEnd::Start => String::from_str(alloc, "start"),
        TraceEnd::Source(place) => place_text(alloc, place),
    }
}

/// Each segment, and the sign behind it.
fn push_segments(alloc: Global, text: &mut String, segments: &[Segment]) -> Result<(), AllocError>
    ensures { OnOk result (string_bytes text.new ≡ string_bytes text.old ++ flat_map (λ s. segment_text s ++ codes " < ") segments.now) }
{
    for segment in segments {
        let segment = segment_text(alloc, segment)?;
        text.push_str(segment.as_str())?;
        text.push_str(" < ")?;
    }
    Ok(())
}

/// The segments and the end.
#[tactic(auto, using(crate::proofs::Between::trace_of))]
pub(crate) fn trace_text(alloc: Global, trace: &Trace) -> Result<String, AllocError>
    ensures { IfOk result (λ s. string_bytes s ≡ trace_text trace.now) }
{
    let mut text = String::new(alloc);
    push_segments(alloc, &mut text, &trace.segments.items)?;
    let end = end_text(alloc, &trace.end)?;
    text.push_str(end.as_str())?;
    Ok(text)
}

/// Where data came from.
pub(crate) fn from_text(alloc: Global, from: &FromAnswer) -> Result<String, AllocError>
    ensures { IfOk result (λ s. string_bytes s ≡ from_text from.now) }
{
    match from {
        FromAnswer::New(tid) => format!(in alloc; "new at {tid}"),
        FromAnswer::At(place, tid) => {
            let place = place_text(alloc, place)?;
            format!(in alloc; "{place} at {tid}")
        }
        FromAnswer::Start => String::from_str(alloc, "start"),
    }
}
