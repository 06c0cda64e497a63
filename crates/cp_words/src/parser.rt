//! The commands and their operands, as the parser of words is told of them.
//!
//! They stand in a table, and a command is made of each of its rows.
ghost use Rattle.std.specs.Prelude.{◌≡◌, IfOk};
ghost use Rattle.std.specs.List.{fold};
ghost use Rattle.clap.specs.Words.{App, app_of, new_app, new_rule, with_rule};
ghost use Rattle.cp_words.specs.Shapes as shape;

use clap::{Arg, Command};
use std::alloc::{AllocError, Global};

/// A command, or the program with its commands, if it could be made.
type Made<'a> = Result<Command<'a>, AllocError>;

/// A command: its name and its operands, each with whether it has to be there.
struct Row<'a> {
    name: &'a str,
    operands: &'a [(&'a str, bool)],
}

/// All commands.
static ROWS: [Row<'static>; 13] = [
    Row {
        name: "scratch",
        operands: &[("KIND", true), ("JSON", false)],
    },
    Row {
        name: "init",
        operands: &[("STORE", true), ("KIND", true), ("JSON", false)],
    },
    Row {
        name: "run",
        operands: &[("STORE", true), ("CURATOR", false)],
    },
    Row {
        name: "commit",
        operands: &[("STORE", true), ("FILE", true), ("CURATOR", false)],
    },
    Row {
        name: "load",
        operands: &[
            ("STORE", true),
            ("NAME", true),
            ("FORM", true),
            ("FILE", true),
            ("COLUMN", false),
        ],
    },
    Row {
        name: "query",
        operands: &[("STORE", true), ("STATEMENT", true)],
    },
    Row {
        name: "gen",
        operands: &[("SEED", true), ("COUNT", true), ("KIND", true)],
    },
    Row {
        name: "log",
        operands: &[("STORE", true)],
    },
    Row {
        name: "verify",
        operands: &[("STORE", true)],
    },
    Row {
        name: "at",
        operands: &[("STORE", true), ("TID", true), ("STATEMENT", true)],
    },
    Row {
        name: "archive",
        operands: &[("STORE", true)],
    },
    Row {
        name: "share",
        operands: &[("STORE", true)],
    },
    Row {
        name: "uses",
        operands: &[("STORE", true), ("PLACE", true)],
    },
];

/// The command with one more operand.
fn with_operand<'a>(alloc: Global, command: Command<'a>, id: &'a str, is_wanted: bool) -> Made<'a>
    requires { shape.IsLocal command }
    ensures { shape.IsCommand (with_rule (app_of command.entry) (record (new_rule id.entry.now) { required = is_wanted })) result }
{
    command.arg(Arg::new(alloc, id).required(is_wanted))
}

/// The command of a row.
fn row_command<'a>(alloc: Global, row: &Row<'a>) -> Made<'a>
    ensures { shape.IsCommand (fold (λ a o. with_rule a (record (new_rule o.0.now) { required = o.1 }))
        (new_app row.entry.now.name.now) row.entry.now.operands.now) result }
{
    let mut command = Command::new(alloc, row.name);
    for operand in row.operands {
        command = with_operand(alloc, command, operand.0, operand.1)?;
    }
    Ok(command)
}

/// The program with one more command, if that could be made.
fn with_made<'a>(program: Command<'a>, command: Made<'a>) -> Made<'a>
    requires { IfOk command shape.IsLocal }
    ensures { (b : App) → shape.IsCommand b command.entry
        → shape.IsProgram (shape.with_command (app_of program.entry) b) result }
{
    match command {
        Ok(command) => program.subcommand(command),
        Err(fault) => {
            drop(program);
            Err(fault)
        }
    }
}

/// The program with the commands of these rows.
fn with_rows<'a>(alloc: Global, program: Command<'a>, rows: &[Row<'a>]) -> Made<'a>
    ensures { shape.IsProgram (fold (λ a row. shape.with_command a (fold (λ b o. with_rule b (record (new_rule o.0.now) { required = o.1 }))
        (new_app row.name.now) row.operands.now)) (app_of program.entry) rows.entry.now) result }
{
    let mut whole = program;
    for row in rows {
        whole = with_made(whole, row_command(alloc, row))?;
    }
    Ok(whole)
}

fn top<'a>(alloc: Global) -> Command<'a>
    ensures { app_of result ≡ shape.top_app }
{
    Command::new(alloc, "cpdb")
        .disable_help_flag(true)
        .disable_help_subcommand(true)
        .subcommand_required(true)
}

/// The program with all commands.
pub(crate) fn parser<'a>(alloc: Global) -> Made<'a>
    ensures { IfOk result (λ c. app_of c ≡ shape.whole) }
{
    with_rows(alloc, top(alloc), &ROWS)
}
