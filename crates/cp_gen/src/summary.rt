//! What a history has come to, in numbers.
ghost use Rattle.std.specs.Prelude.{◌≡◌, ◌<◌, ◌≤◌, ◌+◌, length, IfOk, cond};
ghost use Rattle.cp_model.specs.Place.{at_target};
ghost use Rattle.cp_model.specs.Answers.{answer_to, stats};
ghost use Rattle.cp_model.specs.History.{State};
ghost use Rattle.cp_model.specs.declared.limits.TheConstants.{NODES_MAX};
ghost use Rattle.cp_db.specs.Databases.{IsDatabase};
ghost use Rattle.cp_gen.specs.Summaries.{IsAt, HasAnswered, is_born, copies_at, count_born, count_copies, has_tid, row_paths, summary_of, tid_count};

use cp_db::Db;
use cp_model::{Answer, Query, Row, Stats};
use cp_path::{Loc, Name, Path};
use cp_query::QueryFault;
use cp_reply::Reply;
use cp_tree::TreeRep;
use std::alloc::{AllocError, Global};

/// Of some places of T, at how many the data was inserted in a step, and how often it was copied.
#[derive(Clone, Copy)]
struct PlaceCounts {
    born: u32,
    copies: u64,
}

/// A place of T. Costs its bytes.
fn place_at(alloc: Global, path: &Path) -> Result<Loc, AllocError>
    ensures { IfOk result (λ q. q ≡ at_target path.now) }
{
    let db = Name::target(alloc)?;
    let path = path.clone()?;
    Ok(Loc { db, path })
}

/// The answer to a query, `None` where its place isn't there. Costs as the query.
fn answer_in<R: TreeRep, S: TreeRep>(
    alloc: Global,
    db: &mut Db<R, S>,
    query: &Query,
) -> Result<Option<Answer>, AllocError>
    requires stands { IsDatabase R.contents S.contents db.old }
    ensures answer { IfOk result (λ a. (t : State) → IsAt R.contents S.contents db.old t → a ≡ answer_to t query.now) }
    ensures same { HasAnswered R.contents S.contents db.old db.new }
{
    match db.query(alloc, query) {
        Ok(answer) => Ok(Some(answer)),
        Err(QueryFault::NoPlace) => Ok(None),
        Err(QueryFault::Disk) => unreachable!(),
        Err(QueryFault::Memory) => Err(AllocError),
    }
}

/// Whether an answer to `src` has a Tid.
fn has_tid(answer: &Answer) -> bool
    ensures { result ≡ has_tid answer.now }
{
    match answer {
        Answer::Src(tid) => tid.is_some(),
        Answer::Tids(_)
        | Answer::Trace(_)
        | Answer::From(_)
        | Answer::Records(_)
        | Answer::Stats(_) => false,
    }
}

/// The number of Tids in an answer to `hist`.
fn tid_count(answer: &Answer) -> u64
    ensures { result ≡ tid_count answer.now }
{
    match answer {
        Answer::Tids(tids) => tids.items.len() as u64,
        Answer::Src(_)
        | Answer::Trace(_)
        | Answer::From(_)
        | Answer::Records(_)
        | Answer::Stats(_) => 0,
    }
}

/// The numbers that an answer to `stats` gives.
fn numbers_in(answer: Answer) -> Result<Stats, AllocError>
    ensures { IfOk result (λ n. answer ≡ Answer.Stats n) }
{
    match answer {
        Answer::Stats(numbers) => Ok(numbers),
        // `stats` is answered by nothing else.
        _ => Err(AllocError),
    }
}

/// The numbers of the committed state.
fn numbers_of<R: TreeRep, S: TreeRep>(alloc: Global, db: &mut Db<R, S>) -> Result<Stats, AllocError>
    requires stands { IsDatabase R.contents S.contents db.old }
    ensures numbers { IfOk result (λ n. (t : State) → IsAt R.contents S.contents db.old t → n ≡ stats t) }
    ensures same { HasAnswered R.contents S.contents db.old db.new }
{
    let found = answer_in(alloc, db, &Query::Stats)?;
    // `stats` is always answered.
    let Some(answer) = found else {
        return Err(AllocError);
    };
    let numbers = numbers_in(answer)?;
    Ok(numbers)
}

/// Whether the data at a path of T was inserted in a step. Costs as `src`.
fn is_born<R: TreeRep, S: TreeRep>(
    alloc: Global,
    db: &mut Db<R, S>,
    path: &Path,
) -> Result<bool, AllocError>
    requires stands { IsDatabase R.contents S.contents db.old }
    ensures born { IfOk result (λ b. (t : State) → IsAt R.contents S.contents db.old t → b ≡ is_born t path.now) }
    ensures same { HasAnswered R.contents S.contents db.old db.new }
{
    let place = place_at(alloc, path)?;
    let query = Query::Src(place);
    let found = answer_in(alloc, db, &query);
    drop(query);
    let found = found?;
    match found {
        Some(answer) => {
            let born = has_tid(&answer);
            drop(answer);
            Ok(born)
        }
        None => Ok(false),
    }
}

/// How often the data at a path of T was copied. Costs as `hist`.
fn copies_at<R: TreeRep, S: TreeRep>(
    alloc: Global,
    db: &mut Db<R, S>,
    path: &Path,
) -> Result<u64, AllocError>
    requires stands { IsDatabase R.contents S.contents db.old }
    ensures copies { IfOk result (λ n. (t : State) → IsAt R.contents S.contents db.old t → n ≡ copies_at t path.now) }
    ensures same { HasAnswered R.contents S.contents db.old db.new }
{
    let place = place_at(alloc, path)?;
    let query = Query::Hist(place);
    let found = answer_in(alloc, db, &query);
    drop(query);
    let found = found?;
    match found {
        Some(answer) => {
            let copies = tid_count(&answer);
            drop(answer);
            Ok(copies)
        }
        None => Ok(0),
    }
}

/// A count of places, with one more where the test holds.
fn count_if(count: u32, test: bool) -> u32
    requires few { count < NODES_MAX }
    ensures counted { result ≡ count + cond test 1 0 }
    ensures few { result ≤ count + 1 }
{
    if test { count + 1 } else { count }
}

/// The counts with one place more. Costs as `src` and `hist` of the place.
fn with_place<R: TreeRep, S: TreeRep>(
    alloc: Global,
    db: &mut Db<R, S>,
    path: &Path,
    counts: PlaceCounts,
) -> Result<PlaceCounts, AllocError>
    requires stands { IsDatabase R.contents S.contents db.old }
    requires few { counts.born < NODES_MAX }
    ensures born { IfOk result (λ c. (t : State) → IsAt R.contents S.contents db.old t
        → c.born ≡ counts.born + cond (is_born t path.now) 1 0) }
    ensures copies { IfOk result (λ c. (t : State) → IsAt R.contents S.contents db.old t
        → c.copies ≡ counts.copies + copies_at t path.now) }
    ensures few { IfOk result (λ c. c.born ≤ counts.born + 1) }
    ensures same { HasAnswered R.contents S.contents db.old db.new }
{
    let born = is_born(alloc, db, path)?;
    let more = copies_at(alloc, db, path)?;
    // No memory has ever held so many Tids that their number doesn't fit.
    let Some(copies) = counts.copies.checked_add(more) else {
        return Err(AllocError);
    };
    Ok(PlaceCounts {
        born: count_if(counts.born, born),
        copies,
    })
}

/// At how many of the places of these rows of T the data was inserted in a step, and how often it was copied. Costs as
/// `src` and `hist` of each.
fn count_places<R: TreeRep, S: TreeRep>(
    alloc: Global,
    db: &mut Db<R, S>,
    rows: &[Row],
) -> Result<PlaceCounts, AllocError>
    requires stands { IsDatabase R.contents S.contents db.old }
    requires few { length rows.now ≤ NODES_MAX }
    ensures born { IfOk result (λ c. (t : State) → IsAt R.contents S.contents db.old t
        → c.born ≡ count_born t (row_paths rows.now)) }
    ensures copies { IfOk result (λ c. (t : State) → IsAt R.contents S.contents db.old t
        → c.copies ≡ count_copies t (row_paths rows.now)) }
    ensures same { HasAnswered R.contents S.contents db.old db.new }
{
    let mut counts = PlaceCounts { born: 0, copies: 0 };
    for row in rows {
        let more = with_place(alloc, db, &row.path, counts)?;
        counts = more;
    }
    Ok(counts)
}

/// What the history has come to: the numbers of the committed state, and of its places, how many there are, at how many
/// the data was inserted in a step, and how often it was copied.
///
/// Reads no disk. Costs the rows of the committed tree, and a `src` and a `hist` of each. An error changes nothing.
pub fn summary_in<R: TreeRep, S: TreeRep>(
    alloc: Global,
    db: &mut Db<R, S>,
) -> Result<Reply, AllocError>
    requires stands { IsDatabase R.contents S.contents db.old }
    ensures summary { IfOk result (λ r. (t : State) → IsAt R.contents S.contents db.old t → r ≡ summary_of t) }
    ensures same { HasAnswered R.contents S.contents db.old db.new }
{
    let numbers = numbers_of(alloc, db)?;
    let top = Path::root(alloc);
    let rows = db.tree().rows(alloc, &top)?;
    let counts = count_places(alloc, db, rows.items.as_slice())?;
    Ok(Reply::Gen {
        stats: numbers,
        places: numbers.nodes,
        born: counts.born,
        copies: counts.copies,
    })
}
