ghost use Rattle.std.specs.Prelude.{◌≡◌, ◌++◌, ℕ, List, OnOk, IfOk, codes, decimal, flat_map, length, string_bytes};
ghost use Rattle.cp_path.specs.Spelling.{place_text};
ghost use Rattle.cp_model.specs.Trees.{tree_text};
ghost use Rattle.cp_reply.specs.Front.{Begins};
ghost use Rattle.cp_reply.specs.Lines.{line, line_for, lines, lines_for, said_lines, whose_text, answer_lines_for, query_text, record_text, commit_text, range_text, kind_text, refused_front, why_text, stats_text};

use crate::answer::{from_text, query_text, tid_or_none, tids_text, trace_text};
use crate::places::uses_text;
use crate::record::{commit_text, range_text, record_text, stats_text, verdict_text};
use crate::refusal::why_text;
use crate::reply::{Of, Reply, Why};
use crate::said::Said;
use crate::tree::tree_text;
use crate::word::{kind_text, refused_front};
use cp_model::{Answer, Kind, LogLine, Query, Record, Row, Stats};
use cp_path::{Loc, Name};
use cp_spelling::place_text;
use std::alloc::{AllocError, Global};

/// Puts the curator whom a line answers behind `out`, if it answers one.
fn put_whose(whose: &Option<Name>, out: &mut Vec<u8>) -> Result<(), AllocError>
    ensures ok { OnOk result (out.new.items ≡ out.old.items ++ whose_text whose.now) }
    ensures front { Begins out.old.items out.new.items }
{
    let Some(name) = whose else {
        return Ok(());
    };
    out.push(b'@')?;
    out.extend_from_slice(name.as_str().as_bytes())?;
    out.push(b' ')?;
    Ok(())
}

/// Puts the text behind `out`, and a line feed.
fn end_line(text: &str, out: &mut Vec<u8>) -> Result<(), AllocError>
    ensures ok { OnOk result (out.new.items ≡ out.old.items ++ line text.now) }
    ensures front { Begins out.old.items out.new.items }
{
    out.extend_from_slice(text.as_bytes())?;
    out.push(b'\n')?;
    Ok(())
}

/// Puts a line of this text.
fn put_line(whose: &Option<Name>, text: &str, out: &mut Vec<u8>) -> Result<(), AllocError>
    ensures ok { OnOk result (out.new.items ≡ out.old.items ++ line_for whose.now text.now) }
    ensures front { Begins out.old.items out.new.items }
{
    put_whose(whose, out)?;
    end_line(text, out)
}

fn created(alloc: Global, kind: Kind, nodes: u32) -> Result<String, AllocError>
    ensures { IfOk result (λ s. string_bytes s ≡ codes "created " ++ (kind_text kind ++ (codes " " ++ decimal nodes))) }
{
    let kind = kind_text(kind);
    format!(in alloc; "created {kind} {nodes}")
}

fn loaded(alloc: Global, name: &Name, nodes: u32) -> Result<String, AllocError>
    ensures { IfOk result (λ s. string_bytes s ≡ codes "loaded " ++ (name.now ++ (codes " " ++ decimal nodes))) }
{
    let name = name.as_str();
    format!(in alloc; "loaded {name} {nodes}")
}

fn committed(alloc: Global, low: u64, high: u64) -> Result<String, AllocError>
    ensures { IfOk result (λ s. string_bytes s ≡ codes "committed " ++ range_text low high) }
{
    let range = range_text(alloc, low, high)?;
    format!(in alloc; "committed {range}")
}

fn aborted(alloc: Global, count: u32) -> Result<String, AllocError>
    ensures { IfOk result (λ s. string_bytes s ≡ codes "aborted " ++ decimal count) }
{
    format!(in alloc; "aborted {count}")
}

fn checkpoint(alloc: Global, tid: u64) -> Result<String, AllocError>
    ensures { IfOk result (λ s. string_bytes s ≡ codes "checkpoint " ++ decimal tid) }
{
    format!(in alloc; "checkpoint {tid}")
}

fn archive(alloc: Global, versions: u64, ranges: u64) -> Result<String, AllocError>
    ensures { IfOk result (λ s. string_bytes s ≡ codes "archive: versions " ++ (decimal versions ++ (codes ", ranges " ++ decimal ranges))) }
{
    format!(in alloc; "archive: versions {versions}, ranges {ranges}")
}

fn refused(alloc: Global, of: Of, why: &Why) -> Result<String, AllocError>
    ensures { IfOk result (λ s. string_bytes s ≡ refused_front of ++ why_text of why.now) }
{
    let front = refused_front(of);
    let why = why_text(alloc, of, why)?;
    format!(in alloc; "{front}{why}")
}

/// Puts the answer's text behind the statement.
fn put_answer(
    alloc: Global,
    whose: &Option<Name>,
    query: &Query,
    text: &str,
    out: &mut Vec<u8>,
) -> Result<(), AllocError>
    ensures ok { OnOk result (out.new.items ≡ out.old.items ++ line_for whose.now (query_text query.now ++ text.now)) }
    ensures front { Begins out.old.items out.new.items }
{
    let query = query_text(alloc, query)?;
    put_whose(whose, out)?;
    out.extend_from_slice(query.as_bytes())?;
    end_line(text, out)
}

/// Puts the line that this text is, if it could be made.
fn put_made(
    whose: &Option<Name>,
    text: Result<String, AllocError>,
    out: &mut Vec<u8>,
) -> Result<(), AllocError>
    ensures ok { OnOk result ((bytes : List ℕ) → IfOk text (λ s. string_bytes s ≡ bytes) → out.new.items ≡ out.old.items ++ line_for whose.now bytes) }
    ensures front { Begins out.old.items out.new.items }
{
    let text = text?;
    put_line(whose, text.as_str(), out)
}

/// Puts the line of an answer with this text, if it could be made.
fn put_made_answer(
    alloc: Global,
    whose: &Option<Name>,
    query: &Query,
    text: Result<String, AllocError>,
    out: &mut Vec<u8>,
) -> Result<(), AllocError>
    ensures ok { OnOk result ((bytes : List ℕ) → IfOk text (λ s. string_bytes s ≡ bytes) → out.new.items ≡ out.old.items ++ line_for whose.now (query_text query.now ++ bytes)) }
    ensures front { Begins out.old.items out.new.items }
{
    let text = text?;
    put_answer(alloc, whose, query, text.as_str(), out)
}

/// Puts the line of a record.
fn put_record(
    alloc: Global,
    whose: &Option<Name>,
    entry: &Record,
    out: &mut Vec<u8>,
) -> Result<(), AllocError>
    ensures ok { OnOk result (out.new.items ≡ out.old.items ++ line_for whose.now (record_text entry.now)) }
    ensures front { Begins out.old.items out.new.items }
{
    let text = record_text(alloc, entry)?;
    put_line(whose, text.as_str(), out)
}

/// Puts a line for each record.
fn put_records(
    alloc: Global,
    whose: &Option<Name>,
    records: &[Record],
    out: &mut Vec<u8>,
) -> Result<(), AllocError>
    ensures ok { OnOk result (out.new.items ≡ out.old.items ++ flat_map (λ r. line_for whose.now (record_text r)) records.now) }
    ensures front { Begins out.old.items out.new.items }
{
    for entry in records {
        put_record(alloc, whose, entry, out)?;
    }
    Ok(())
}

/// Puts the records, and the number of them.
fn put_counted_records(
    alloc: Global,
    whose: &Option<Name>,
    records: &[Record],
    out: &mut Vec<u8>,
) -> Result<(), AllocError>
    ensures ok { OnOk result (out.new.items ≡ out.old.items ++ (flat_map (λ r. line_for whose.now (record_text r)) records.now ++ line_for whose.now (codes "records: " ++ decimal (length records.now)))) }
    ensures front { Begins out.old.items out.new.items }
{
    put_records(alloc, whose, records, out)?;
    let count = records.len();
    let text = format!(in alloc; "records: {count}")?;
    put_line(whose, text.as_str(), out)
}

/// Puts the line of a commit.
fn put_commit(
    alloc: Global,
    whose: &Option<Name>,
    commit: &LogLine,
    out: &mut Vec<u8>,
) -> Result<(), AllocError>
    ensures ok { OnOk result (out.new.items ≡ out.old.items ++ line_for whose.now (commit_text commit.now)) }
    ensures front { Begins out.old.items out.new.items }
{
    let text = commit_text(alloc, commit)?;
    put_line(whose, text.as_str(), out)
}

/// Puts a line for each commit.
fn put_commits(
    alloc: Global,
    whose: &Option<Name>,
    commits: &[LogLine],
    out: &mut Vec<u8>,
) -> Result<(), AllocError>
    ensures ok { OnOk result (out.new.items ≡ out.old.items ++ flat_map (λ c. line_for whose.now (commit_text c)) commits.now) }
    ensures front { Begins out.old.items out.new.items }
{
    for commit in commits {
        put_commit(alloc, whose, commit, out)?;
    }
    Ok(())
}

/// Puts the commits, and the number of them.
fn put_log(
    alloc: Global,
    whose: &Option<Name>,
    commits: &[LogLine],
    out: &mut Vec<u8>,
) -> Result<(), AllocError>
    ensures ok { OnOk result (out.new.items ≡ out.old.items ++ (flat_map (λ c. line_for whose.now (commit_text c)) commits.now ++ line_for whose.now (codes "log: " ++ decimal (length commits.now)))) }
    ensures front { Begins out.old.items out.new.items }
{
    put_commits(alloc, whose, commits, out)?;
    let count = commits.len();
    let text = format!(in alloc; "log: {count}")?;
    put_line(whose, text.as_str(), out)
}

fn put_stats(
    alloc: Global,
    whose: &Option<Name>,
    stats: &Stats,
    out: &mut Vec<u8>,
) -> Result<(), AllocError>
    ensures ok { OnOk result (out.new.items ≡ out.old.items ++ line_for whose.now (stats_text stats.now)) }
    ensures front { Begins out.old.items out.new.items }
{
    let text = stats_text(alloc, stats)?;
    put_line(whose, text.as_str(), out)
}

/// Puts the numbers of a generated history.
fn put_history(
    alloc: Global,
    whose: &Option<Name>,
    places: u32,
    born: u32,
    copies: u64,
    out: &mut Vec<u8>,
) -> Result<(), AllocError>
    ensures ok { OnOk result (out.new.items ≡ out.old.items ++ line_for whose.now (codes "gen: places " ++ (decimal places ++ (codes ", born " ++ (decimal born ++ (codes ", copies " ++ decimal copies)))))) }
    ensures front { Begins out.old.items out.new.items }
{
    let text = format!(in alloc; "gen: places {places}, born {born}, copies {copies}")?;
    put_line(whose, text.as_str(), out)
}

/// Puts the numbers of a state and of a generated history.
fn put_summary(
    alloc: Global,
    whose: &Option<Name>,
    stats: &Stats,
    places: u32,
    born: u32,
    copies: u64,
    out: &mut Vec<u8>,
) -> Result<(), AllocError>
    ensures ok { OnOk result (out.new.items ≡ out.old.items ++ (line_for whose.now (stats_text stats.now) ++ line_for whose.now (codes "gen: places " ++ (decimal places ++ (codes ", born " ++ (decimal born ++ (codes ", copies " ++ decimal copies))))))) }
    ensures front { Begins out.old.items out.new.items }
{
    put_stats(alloc, whose, stats, out)?;
    put_history(alloc, whose, places, born, copies, out)
}

/// Puts the line of a tree. Costs each row once for each level above it, and the text a few times.
fn put_tree(
    alloc: Global,
    whose: &Option<Name>,
    place: &Loc,
    rows: &[Row],
    out: &mut Vec<u8>,
) -> Result<(), AllocError>
    ensures ok { OnOk result (out.new.items ≡ out.old.items ++ line_for whose.now (codes "show " ++ (place_text place.now ++ (codes ": " ++ tree_text rows.now)))) }
    ensures front { Begins out.old.items out.new.items }
{
    let place = place_text(alloc, place)?;
    let front = format!(in alloc; "show {place}: ")?;
    let tree = tree_text(alloc, rows)?;
    put_whose(whose, out)?;
    out.extend_from_slice(front.as_bytes())?;
    end_line(tree.as_str(), out)
}

/// Puts the line or lines of an answer.
fn put_answer_lines(
    alloc: Global,
    whose: &Option<Name>,
    query: &Query,
    answer: &Answer,
    out: &mut Vec<u8>,
) -> Result<(), AllocError>
    ensures ok { OnOk result (out.new.items ≡ out.old.items ++ answer_lines_for whose.now query.now answer.now) }
    ensures front { Begins out.old.items out.new.items }
{
    match answer {
        Answer::Src(tid) => put_made_answer(alloc, whose, query, tid_or_none(alloc, *tid), out),
        Answer::Tids(tids) => put_made_answer(
            alloc,
            whose,
            query,
            tids_text(alloc, &tids.items),
            out,
        ),
        Answer::Trace(trace) => put_made_answer(alloc, whose, query, trace_text(alloc, trace), out),
        Answer::From(from) => put_made_answer(alloc, whose, query, from_text(alloc, from), out),
        Answer::Records(records) => put_counted_records(alloc, whose, &records.items, out),
        Answer::Stats(stats) => put_stats(alloc, whose, stats, out),
    }
}

/// Puts the line or lines of a reply behind `out`, for nobody or, in an input of several curators, for one of them. Costs their
/// bytes a few times, and those of the rows of a tree once for each level. After an error `out` still begins with what it held.
#[tactic(auto, unfolding(crate::specs::Lines::lines_for))]
pub fn lines_for(
    alloc: Global,
    whose: &Option<Name>,
    reply: &Reply,
    out: &mut Vec<u8>,
) -> Result<(), AllocError>
    ensures ok { OnOk result (out.new.items ≡ out.old.items ++ lines_for whose.now reply.now) }
    ensures front { Begins out.old.items out.new.items }
{
    match reply {
        Reply::Created { kind, nodes } => put_made(whose, created(alloc, *kind, *nodes), out),
        Reply::Loaded { name, nodes } => put_made(whose, loaded(alloc, name, *nodes), out),
        Reply::Committed { low, high } => put_made(whose, committed(alloc, *low, *high), out),
        Reply::Aborted { count } => put_made(whose, aborted(alloc, *count), out),
        Reply::Answered { query, answer } => put_answer_lines(alloc, whose, query, answer, out),
        Reply::Show { place, rows } => put_tree(alloc, whose, place, &rows.items, out),
        Reply::Checkpoint { tid } => put_made(whose, checkpoint(alloc, *tid), out),
        Reply::Verified { verdict } => put_made(whose, verdict_text(alloc, verdict), out),
        Reply::Logged { commits } => put_log(alloc, whose, &commits.items, out),
        Reply::Gen {
            stats,
            places,
            born,
            copies,
        } => put_summary(alloc, whose, stats, *places, *born, *copies, out),
        Reply::Uses { place, places } => put_made(
            whose,
            uses_text(alloc, place, &places.items),
            out,
        ),
        Reply::Archive { versions, ranges } => put_made(
            whose,
            archive(alloc, *versions, *ranges),
            out,
        ),
        Reply::Refused { of, why } => put_made(whose, refused(alloc, *of, why), out),
    }
}

/// The same for nobody.
#[tactic(auto, unfolding(crate::specs::Lines::lines))]
pub fn lines(alloc: Global, reply: &Reply, out: &mut Vec<u8>) -> Result<(), AllocError>
    ensures ok { OnOk result (out.new.items ≡ out.old.items ++ lines reply.now) }
    ensures front { Begins out.old.items out.new.items }
{
    lines_for(alloc, &None, reply, out)
}

/// The same for whom the reply is.
pub fn said_lines(alloc: Global, said: &Said, out: &mut Vec<u8>) -> Result<(), AllocError>
    ensures ok { OnOk result (out.new.items ≡ out.old.items ++ said_lines said.now) }
    ensures front { Begins out.old.items out.new.items }
{
    lines_for(alloc, &said.whose, &said.reply, out)
}
