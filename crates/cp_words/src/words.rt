//! The words of a call are read.
ghost use Rattle.std.specs.Prelude.{◌≡◌, ◌≤◌, length, map, string_bytes, IfOk, IfSome, option_map};
ghost use Rattle.clap.specs.Words.{first_of, found_of, rows_of, subcommand_rows_of};
ghost use Rattle.cp_words.specs.Commands.{command_of, IsWrittenCommand};
ghost use Rattle.cp_words.specs.Matches as found;

use crate::command::Command;
use crate::operand::are_operands;
use crate::parser::parser;
use crate::row::{
    at_by, commit_by, generate_by, init_by, load_by, query_by, run_by, scratch_by, uses_by,
};
use clap::ArgMatches;
use clap::error::ErrorKind;
use std::alloc::{AllocError, Global};

/// The operand with this name.
#[tactic(auto, using(crate::proofs::Getters::getter_rows))]
fn operand<'a>(matches: &ArgMatches<'a>, id: &str) -> Option<&'a str>
    ensures { option_map (λ w. w.now) result ≡ first_of id.now (rows_of (found_of matches.now)) }
{
    matches.get_str(id)
}

fn scratch(alloc: Global, matches: &ArgMatches<'_>) -> Result<Option<Command>, AllocError>
    ensures { IfOk result (λ o. o ≡ found.scratch_from (rows_of (found_of matches.now))) }
{
    match operand(matches, "KIND") {
        Some(kind) => scratch_by(alloc, kind, operand(matches, "JSON")),
        None => Ok(None),
    }
}

fn init(alloc: Global, matches: &ArgMatches<'_>) -> Result<Option<Command>, AllocError>
    ensures { IfOk result (λ o. o ≡ found.init_from (rows_of (found_of matches.now))) }
{
    match operand(matches, "KIND") {
        Some(kind) => init_by(alloc, kind, operand(matches, "JSON")),
        None => Ok(None),
    }
}

fn run(alloc: Global, matches: &ArgMatches<'_>) -> Result<Option<Command>, AllocError>
    ensures { IfOk result (λ o. o ≡ found.run_from (rows_of (found_of matches.now))) }
{
    run_by(alloc, operand(matches, "CURATOR"))
}

fn commit(alloc: Global, matches: &ArgMatches<'_>) -> Result<Option<Command>, AllocError>
    ensures { IfOk result (λ o. o ≡ found.commit_from (rows_of (found_of matches.now))) }
{
    match operand(matches, "FILE") {
        Some(file) => commit_by(alloc, file, operand(matches, "CURATOR")),
        None => Ok(None),
    }
}

fn load(alloc: Global, matches: &ArgMatches<'_>) -> Result<Option<Command>, AllocError>
    ensures { IfOk result (λ o. o ≡ found.load_from (rows_of (found_of matches.now))) }
{
    let Some(name) = operand(matches, "NAME") else {
        return Ok(None);
    };
    let Some(form) = operand(matches, "FORM") else {
        return Ok(None);
    };
    let Some(file) = operand(matches, "FILE") else {
        return Ok(None);
    };
    load_by(alloc, name, form, file, operand(matches, "COLUMN"))
}

fn query(alloc: Global, matches: &ArgMatches<'_>) -> Result<Option<Command>, AllocError>
    ensures { IfOk result (λ o. o ≡ found.query_from (rows_of (found_of matches.now))) }
{
    match operand(matches, "STATEMENT") {
        Some(statement) => query_by(alloc, statement),
        None => Ok(None),
    }
}

fn generate(alloc: Global, matches: &ArgMatches<'_>) -> Result<Option<Command>, AllocError>
    ensures { IfOk result (λ o. o ≡ found.generate_from (rows_of (found_of matches.now))) }
{
    let Some(seed) = operand(matches, "SEED") else {
        return Ok(None);
    };
    let Some(count) = operand(matches, "COUNT") else {
        return Ok(None);
    };
    match operand(matches, "KIND") {
        Some(kind) => generate_by(alloc, seed, count, kind),
        None => Ok(None),
    }
}

fn at(alloc: Global, matches: &ArgMatches<'_>) -> Result<Option<Command>, AllocError>
    ensures { IfOk result (λ o. o ≡ found.at_from (rows_of (found_of matches.now))) }
{
    let Some(tid) = operand(matches, "TID") else {
        return Ok(None);
    };
    match operand(matches, "STATEMENT") {
        Some(statement) => at_by(alloc, tid, statement),
        None => Ok(None),
    }
}

fn uses(alloc: Global, matches: &ArgMatches<'_>) -> Result<Option<Command>, AllocError>
    ensures { IfOk result (λ o. o ≡ found.uses_from (rows_of (found_of matches.now))) }
{
    match operand(matches, "PLACE") {
        Some(place) => uses_by(alloc, place),
        None => Ok(None),
    }
}

/// What the command that was found asks for, with its operands.
fn command_in(alloc: Global, matches: &ArgMatches<'_>) -> Result<Option<Command>, AllocError>
    ensures { IfOk result (λ o. o ≡ found.command_from (subcommand_rows_of matches.now)) }
{
    let Some((name, operands)) = matches.subcommand() else {
        return Ok(None);
    };
    match name {
        "scratch" => scratch(alloc, operands),
        "init" => init(alloc, operands),
        "run" => run(alloc, operands),
        "commit" => commit(alloc, operands),
        "load" => load(alloc, operands),
        "query" => query(alloc, operands),
        "gen" => generate(alloc, operands),
        "log" => Ok(Some(Command::Log)),
        "verify" => Ok(Some(Command::Verify)),
        "at" => at(alloc, operands),
        "archive" => Ok(Some(Command::Archive)),
        "share" => Ok(Some(Command::Share)),
        "uses" => uses(alloc, operands),
        _ => Ok(None),
    }
}

/// What the words ask for, of which the first is the program's name.
fn read_words(alloc: Global, words: &[String]) -> Result<Option<Command>, AllocError>
    requires { 1 ≤ length words.now }
    ensures { IfOk result (λ o. o ≡ command_of (map string_bytes words.now)) }
{
    if !are_operands(&words[1..]) {
        return Ok(None);
    }
    match parser(alloc)?.try_get_matches_from(words) {
        Ok(matches) => command_in(alloc, &matches),
        Err(error) => match error.kind() {
            ErrorKind::OutOfMemory => Err(AllocError),
            _ => Ok(None),
        },
    }
}

/// What the words of a call ask for, the program's name first, or `None` where they fit no row.
/// Costs their bytes.
#[tactic(auto, using(crate::proofs::Rows::no_words_ask))]
pub fn command_of(alloc: Global, words: &[String]) -> Result<Option<Command>, AllocError>
    ensures command { IfOk result (λ o. o ≡ command_of (map string_bytes words.now)) }
    ensures written { IfOk result (λ o. IfSome o IsWrittenCommand) }
{
    if words.is_empty() {
        return Ok(None);
    }
    read_words(alloc, words)
}
