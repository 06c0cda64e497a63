//! What the operands of each command ask for.
ghost use Rattle.std.specs.Prelude.{◌≡◌, IfOk, option_map};
ghost use Rattle.cp_words.specs.Commands as row;

use crate::command::{Asked, Command, Start};
use crate::operand::{count_of, curator_by, form_by, kind_named, number_of, place_of, source_name};
use cp_lang::{Load, Stmt, StmtFault, parse};
use cp_model::Query;
use cp_path::Text;
use std::alloc::{AllocError, Global};

/// The start that a word names; without one it is a root alone.
fn start_by(alloc: Global, json: Option<&str>) -> Result<Start, AllocError>
    ensures { IfOk result (λ s. s ≡ row.start_by (option_map (λ w. w.now) json.entry)) }
{
    match json {
        Some(file) => Ok(Start::TreeIn(Text::copy_of(alloc, file)?)),
        None => Ok(Start::Alone),
    }
}

/// `scratch KIND [JSON]`
pub(crate) fn scratch_by(
    alloc: Global,
    kind: &str,
    json: Option<&str>,
) -> Result<Option<Command>, AllocError>
    ensures { IfOk result (λ o. o ≡ row.scratch_by kind.now (option_map (λ w. w.now) json.entry)) }
{
    let Some(kind) = kind_named(kind) else {
        return Ok(None);
    };
    let start = start_by(alloc, json)?;
    Ok(Some(Command::Scratch { kind, start }))
}

/// `init STORE KIND [JSON]`
pub(crate) fn init_by(
    alloc: Global,
    kind: &str,
    json: Option<&str>,
) -> Result<Option<Command>, AllocError>
    ensures { IfOk result (λ o. o ≡ row.init_by kind.now (option_map (λ w. w.now) json.entry)) }
{
    let Some(kind) = kind_named(kind) else {
        return Ok(None);
    };
    let start = start_by(alloc, json)?;
    Ok(Some(Command::Init { kind, start }))
}

/// `run STORE [CURATOR]`
pub(crate) fn run_by(alloc: Global, curator: Option<&str>) -> Result<Option<Command>, AllocError>
    ensures { IfOk result (λ o. o ≡ row.run_by (option_map (λ w. w.now) curator.entry)) }
{
    match curator_by(alloc, curator)? {
        Some(curator) => Ok(Some(Command::Run { curator })),
        None => Ok(None),
    }
}

/// `commit STORE FILE [CURATOR]`
pub(crate) fn commit_by(
    alloc: Global,
    file: &str,
    curator: Option<&str>,
) -> Result<Option<Command>, AllocError>
    ensures { IfOk result (λ o. o ≡ row.commit_by file.now (option_map (λ w. w.now) curator.entry)) }
{
    let Some(curator) = curator_by(alloc, curator)? else {
        return Ok(None);
    };
    let file = Text::copy_of(alloc, file)?;
    Ok(Some(Command::Commit { file, curator }))
}

/// `load STORE NAME FORM FILE [COLUMN]`
pub(crate) fn load_by(
    alloc: Global,
    name: &str,
    form: &str,
    file: &str,
    column: Option<&str>,
) -> Result<Option<Command>, AllocError>
    ensures { IfOk result (λ o. o ≡ row.load_by name.now form.now file.now (option_map (λ w. w.now) column.entry)) }
{
    let Some(name) = source_name(alloc, name)? else {
        return Ok(None);
    };
    let Some(form) = form_by(alloc, form, column)? else {
        return Ok(None);
    };
    let file = Text::copy_of(alloc, file)?;
    Ok(Some(Command::Load(Load { name, form, file })))
}

/// What a statement asks for, where it changes nothing.
fn asked_in(statement: Stmt) -> Option<Command>
    ensures { result ≡ row.asked_in statement }
{
    match statement {
        Stmt::Ask(query) => Some(Command::Ask(query)),
        Stmt::Show(place) => Some(Command::Show(place)),
        other => {
            drop(other);
            None
        }
    }
}

/// `query STORE STATEMENT`
pub(crate) fn query_by(alloc: Global, statement: &str) -> Result<Option<Command>, AllocError>
    ensures { IfOk result (λ o. o ≡ row.query_by statement.now) }
{
    match parse(alloc, statement) {
        Ok(found) => Ok(asked_in(found)),
        Err(StmtFault::Memory) => Err(AllocError),
        Err(_) => Ok(None),
    }
}

/// `gen SEED COUNT KIND`
pub(crate) fn generate_by(
    alloc: Global,
    seed: &str,
    count: &str,
    kind: &str,
) -> Result<Option<Command>, AllocError>
    ensures { IfOk result (λ o. o ≡ row.generate_by seed.now count.now kind.now) }
{
    let Some(seed) = number_of(alloc, seed)? else {
        return Ok(None);
    };
    let Some(count) = count_of(alloc, count)? else {
        return Ok(None);
    };
    match kind_named(kind) {
        Some(kind) => Ok(Some(Command::Generate { seed, count, kind })),
        None => Ok(None),
    }
}

/// Whether the query is about a place of T.
fn asks_of_target(query: &Query) -> bool
    ensures { result ≡ row.asks_of_target query.now }
{
    match query {
        Query::Src(place)
        | Query::Hist(place)
        | Query::Mod(place)
        | Query::Trace(place)
        | Query::From(place) => place.db.is_target(),
        Query::Records(_) | Query::Stats => false,
    }
}

/// Whether what is asked of a version is about a place of T.
fn is_of_target(asked: &Asked) -> bool
    ensures { result ≡ row.is_of_target asked.now }
{
    match asked {
        Asked::Ask(query) => asks_of_target(query),
        Asked::Show(place) => place.db.is_target(),
    }
}

/// What is asked of a version, where it is about a place of T.
fn where_of_target(asked: Asked) -> Option<Asked>
    ensures { result ≡ row.where_of_target asked }
{
    if is_of_target(&asked) {
        Some(asked)
    } else {
        None
    }
}

/// What a statement asks of a version, where it may ask that.
fn asked_of_version(statement: Stmt) -> Option<Asked>
    ensures { result ≡ row.asked_of_version statement }
{
    match statement {
        Stmt::Ask(query) => where_of_target(Asked::Ask(query)),
        Stmt::Show(place) => where_of_target(Asked::Show(place)),
        other => {
            drop(other);
            None
        }
    }
}

/// What a word asks of a version, where it is a statement that may.
fn asked_by(alloc: Global, statement: &str) -> Result<Option<Asked>, AllocError>
    ensures { IfOk result (λ o. o ≡ row.asked_by statement.now) }
{
    match parse(alloc, statement) {
        Ok(found) => Ok(asked_of_version(found)),
        Err(StmtFault::Memory) => Err(AllocError),
        Err(_) => Ok(None),
    }
}

/// `at STORE TID STATEMENT`
pub(crate) fn at_by(
    alloc: Global,
    tid: &str,
    statement: &str,
) -> Result<Option<Command>, AllocError>
    ensures { IfOk result (λ o. o ≡ row.at_by tid.now statement.now) }
{
    let Some(tid) = number_of(alloc, tid)? else {
        return Ok(None);
    };
    match asked_by(alloc, statement)? {
        Some(asked) => Ok(Some(Command::At { tid, asked })),
        None => Ok(None),
    }
}

/// `uses STORE PLACE`
pub(crate) fn uses_by(alloc: Global, place: &str) -> Result<Option<Command>, AllocError>
    ensures { IfOk result (λ o. o ≡ row.uses_by place.now) }
{
    match place_of(alloc, place)? {
        Some(place) => Ok(Some(Command::Uses(place))),
        None => Ok(None),
    }
}
