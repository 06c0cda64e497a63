//! Lines of replies that no session writes yet.
//!
//! After `reply` stand a word and numbers; places, records and commits stand in the text below, one
//! a line:
//!
//! | Words | Text |
//! |---|---|
//! | `created NODES KIND`, `checkpoint TID` | |
//! | `stats TID TRANSACTIONS RECORDS NODES SOURCES KIND` | |
//! | `gen TID TRANSACTIONS RECORDS NODES SOURCES PLACES BORN COPIES KIND` | |
//! | `new TID`, `start`, `at TID` | the place that `from` asks for, and for `at` the one it came from |
//! | `mod` | the place, and a line of Tids |
//! | `records`, `records TID` | records `TID OP PLACE` or `TID OP PLACE < PLACE` |
//! | `agrees RECORDS`, `number AT STORED EXPECTED` | |
//! | `tree AT` | the place |
//! | `differs AT` | the record that was stored and the one expected, `none` where there is none |
//! | `log` | commits `LOW HIGH MOMENT OPERATIONS by CURATOR` |
//! | `init`, `commit`, `load`, `stale TID` | |
//!
//! `for NAME` before the word makes them lines for that curator.

use crate::fault::Fault;
use crate::row::{row_of, rows_of};
use crate::store::kind_called;
use crate::word::bytes_of;
use cp_cases::numbers_of;
use cp_model::{
    Answer, FromAnswer, Kind, LogLine, LogList, Query, Record, RecordList, Stats, TidList, Verdict,
};
use cp_path::{Label, Name};
use cp_reply::{Of, Reply, Why, lines, lines_for};
use cp_spelling::{read_label, read_place};
use std::alloc::{AllocError, Global};

/// The words of a reply, and the lines below them.
#[derive(Drop)]
struct Request<'a> {
    word: &'a str,
    words: &'a str,
    numbers: &'a [u64],
    text: &'a str,
}

/// The kind of a store that a line ends with.
fn kind_of(words: &str) -> Kind {
    let (_, letters) = words.rsplit_once(' ').unwrap_or(("", words));
    kind_called(letters).unwrap_or(Kind::HT)
}

/// The number at this index, or 0.
fn at(numbers: &[u64], index: usize) -> u64 {
    match numbers.get(index) {
        Some(number) => *number,
        None => 0,
    }
}

/// The number at this index where it fits 32 bits, or 0.
fn small_at(numbers: &[u64], index: usize) -> u32 {
    u32::try_from(at(numbers, index)).unwrap_or(0)
}

/// The line with this number, from 0, or an empty one.
fn line_at(text: &str, number: usize) -> &str {
    for (index, line) in text.split('\n').enumerate() {
        if index == number {
            return line;
        }
    }
    ""
}

/// The record on a line, or none.
fn record_or_none(alloc: Global, line: &str) -> Result<Option<Record>, Fault> {
    if line == "none" {
        return Ok(None);
    }
    Ok(Some(row_of(alloc, line)?))
}

/// The commit with these numbers.
fn commit_with(numbers: &[u64], curator: Label) -> LogLine {
    LogLine {
        low: at(numbers, 0),
        high: at(numbers, 1),
        curator,
        moment: at(numbers, 2),
        operations: small_at(numbers, 3),
    }
}

/// The commit on a line, `LOW HIGH MOMENT OPERATIONS by CURATOR`.
fn commit_of(alloc: Global, line: &str) -> Result<LogLine, Fault> {
    let (numbers, curator) = line.split_once(" by ").unwrap_or((line, ""));
    let numbers = numbers_of(alloc, numbers)?;
    let curator = read_label(alloc, curator)?;
    Ok(commit_with(numbers.as_slice(), curator))
}

/// The numbers of a state.
fn stats_of(request: &Request<'_>) -> Stats {
    Stats {
        kind: kind_of(request.words),
        tid: at(request.numbers, 0),
        transactions: at(request.numbers, 1),
        records: at(request.numbers, 2),
        nodes: small_at(request.numbers, 3),
        sources: small_at(request.numbers, 4),
    }
}

/// The reply with the numbers of a generated state.
fn generated(request: &Request<'_>) -> Reply {
    Reply::Gen {
        stats: stats_of(request),
        places: small_at(request.numbers, 5),
        born: small_at(request.numbers, 6),
        copies: at(request.numbers, 7),
    }
}

/// The reply that the numbers of a state differ.
fn number_differs(request: &Request<'_>) -> Reply {
    Reply::Verified {
        verdict: Verdict::NumberDiffers {
            at: at(request.numbers, 0),
            stored: at(request.numbers, 1),
            expected: at(request.numbers, 2),
        },
    }
}

/// The replies that have numbers alone; `None` for other words.
fn reply_of_numbers(request: &Request<'_>) -> Option<Reply> {
    let first = at(request.numbers, 0);
    match request.word {
        "created" => Some(Reply::Created {
            kind: kind_of(request.words),
            nodes: small_at(request.numbers, 0),
        }),
        "checkpoint" => Some(Reply::Checkpoint { tid: first }),
        "agrees" => Some(Reply::Verified {
            verdict: Verdict::Agrees(first),
        }),
        "number" => Some(number_differs(request)),
        "stats" => Some(Reply::Answered {
            query: Query::Stats,
            answer: Answer::Stats(stats_of(request)),
        }),
        "gen" => Some(generated(request)),
        "stale" => Some(Reply::Refused {
            of: Of::Commit,
            why: Why::Stale(first),
        }),
        _ => None,
    }
}

/// The refusals that no session over memory writes; `None` for other words.
fn refusal(word: &str) -> Option<Reply> {
    let (of, why) = match word {
        "init" => (Of::Init, Why::StoreExists),
        "commit" => (Of::Commit, Why::TransactionTooLarge),
        "load" => (Of::Load, Why::StoreTooLarge),
        _ => return None,
    };
    Some(Reply::Refused { of, why })
}

/// The reply to `records`, of a transaction or of all.
fn records(alloc: Global, request: &Request<'_>) -> Result<Reply, Fault> {
    let items = rows_of(alloc, request.text)?;
    Ok(Reply::Answered {
        query: Query::Records(request.numbers.first().copied()),
        answer: Answer::Records(RecordList { items }),
    })
}

/// The commits on the lines of a text.
fn commits_of(alloc: Global, text: &str) -> Result<Vec<LogLine>, Fault> {
    let mut items = Vec::new(alloc);
    for line in text.split_terminator('\n') {
        items.push(commit_of(alloc, line)?)?;
    }
    Ok(items)
}

/// The reply to `log`.
fn log(alloc: Global, request: &Request<'_>) -> Result<Reply, Fault> {
    let items = commits_of(alloc, request.text)?;
    Ok(Reply::Logged {
        commits: LogList { items },
    })
}

/// The reply to `mod`.
fn tids(alloc: Global, request: &Request<'_>) -> Result<Reply, Fault> {
    let place = read_place(alloc, line_at(request.text, 0))?;
    let items = numbers_of(alloc, line_at(request.text, 1))?;
    Ok(Reply::Answered {
        query: Query::Mod(place),
        answer: Answer::Tids(TidList { items }),
    })
}

/// The answer to `from`.
fn from_answer(alloc: Global, request: &Request<'_>) -> Result<FromAnswer, Fault> {
    let tid = at(request.numbers, 0);
    match request.word {
        "start" => Ok(FromAnswer::Start),
        "new" => Ok(FromAnswer::New(tid)),
        _ => Ok(FromAnswer::At(read_place(alloc, line_at(request.text, 1))?, tid)),
    }
}

/// The reply to `from`.
fn from(alloc: Global, request: &Request<'_>) -> Result<Reply, Fault> {
    let place = read_place(alloc, line_at(request.text, 0))?;
    match from_answer(alloc, request) {
        Ok(answer) => Ok(Reply::Answered {
            query: Query::From(place),
            answer: Answer::From(answer),
        }),
        Err(fault) => {
            drop(place);
            Err(fault)
        }
    }
}

/// The reply that the tree of a store differs from the replay's.
fn tree_differs(alloc: Global, request: &Request<'_>) -> Result<Reply, Fault> {
    let place = read_place(alloc, line_at(request.text, 0))?;
    Ok(Reply::Verified {
        verdict: Verdict::TreeDiffers {
            at: at(request.numbers, 0),
            place,
        },
    })
}

/// The reply that a record of a store differs from the replay's.
fn record_differs(alloc: Global, request: &Request<'_>) -> Result<Reply, Fault> {
    let stored = record_or_none(alloc, line_at(request.text, 0))?;
    match record_or_none(alloc, line_at(request.text, 1)) {
        Ok(expected) => Ok(Reply::Verified {
            verdict: Verdict::Differs {
                at: at(request.numbers, 0),
                stored,
                expected,
            },
        }),
        Err(fault) => {
            drop(stored);
            Err(fault)
        }
    }
}

/// The replies that have places, records or commits; `None` for other words.
fn reply_of_text(alloc: Global, request: &Request<'_>) -> Result<Option<Reply>, Fault> {
    let reply = match request.word {
        "records" => records(alloc, request),
        "log" => log(alloc, request),
        "mod" => tids(alloc, request),
        "new" | "start" | "at" => from(alloc, request),
        "tree" => tree_differs(alloc, request),
        "differs" => record_differs(alloc, request),
        _ => return Ok(None),
    };
    Ok(Some(reply?))
}

/// The reply of these words and this text; `None` where they are none.
fn reply_of(alloc: Global, request: &Request<'_>) -> Result<Option<Reply>, Fault> {
    let reply = reply_of_numbers(request).or(refusal(request.word));
    if reply.is_some() {
        return Ok(reply);
    }
    drop(reply);
    reply_of_text(alloc, request)
}

/// The lines of a reply.
pub(crate) fn lines_alone(alloc: Global, reply: &Reply) -> Result<Vec<u8>, AllocError> {
    let mut out = Vec::new(alloc);
    lines(alloc, reply, &mut out)?;
    Ok(out)
}

/// The lines of a reply for a curator, or for nobody.
fn lines_to(alloc: Global, whose: &Option<Name>, reply: &Reply) -> Result<Vec<u8>, AllocError> {
    let mut out = Vec::new(alloc);
    lines_for(alloc, whose, reply, &mut out)?;
    Ok(out)
}

/// The text of why words or a text are refused.
fn refused(alloc: Global, fault: &Fault) -> Result<Option<Vec<u8>>, AllocError> {
    Ok(Some(bytes_of(alloc, fault.to_string(alloc)?.as_str())?))
}

/// The lines of a reply, or of why its words or its text are refused; `None` where there is none.
fn lines_found(
    alloc: Global,
    whose: &Option<Name>,
    found: &Result<Option<Reply>, Fault>,
) -> Result<Option<Vec<u8>>, AllocError> {
    match found {
        Ok(Some(reply)) => Ok(Some(lines_to(alloc, whose, reply)?)),
        Ok(None) => Ok(None),
        Err(fault) => refused(alloc, fault),
    }
}

/// For whom the lines are, and the words behind that.
fn whose_of(alloc: Global, words: &str) -> Result<(Option<Name>, &str), Fault> {
    let Some(rest) = words.strip_prefix("for ") else {
        return Ok((None, words));
    };
    let (name, words) = rest.split_once(' ').unwrap_or((rest, ""));
    Ok((Some(Name::read(alloc, name)?), words))
}

/// The lines for a curator, or for nobody, of the reply of these words and this text; `None` where they are none.
fn lines_of_words(
    alloc: Global,
    whose: &Option<Name>,
    words: &str,
    text: &[u8],
) -> Result<Option<Vec<u8>>, AllocError> {
    let (word, _) = words.split_once(' ').unwrap_or((words, ""));
    let numbers = numbers_of(alloc, words)?;
    let request = Request {
        word,
        words,
        numbers: numbers.as_slice(),
        text: std::str::from_utf8(text).unwrap_or(""),
    };
    let found = reply_of(alloc, &request);
    let lines = lines_found(alloc, whose, &found);
    drop(found);
    lines
}

/// The lines of the reply of these words and this text; `None` where they are none.
pub(crate) fn lines_of(
    alloc: Global,
    words: &str,
    text: &[u8],
) -> Result<Option<Vec<u8>>, AllocError> {
    match whose_of(alloc, words) {
        Ok((whose, words)) => {
            let lines = lines_of_words(alloc, &whose, words, text);
            drop(whose);
            lines
        }
        Err(fault) => refused(alloc, &fault),
    }
}
