//! Plays the cases of files, and counts them.

use crate::document;
use crate::sheet::{Case, Part, Row, Sheet, Step};
use std::alloc::{AllocError, Global};
use std::process::ExitCode;
use std::rt::{Env, Files};
use std::{fs, io};

/// How the names begin of the files whose cases are tables of calls.
const TABLES: &str = "tables/";

/// What plays cases, one after another.
pub trait Player {
    /// Whether it can take parts with this keyword.
    fn can_take(&self, key: &str) -> bool;

    /// Begins a case, over the real files or over files in memory.
    fn begin(&mut self, alloc: Global, real: bool);

    /// Takes the next part, and says what is wrong, if anything is.
    fn take(&mut self, alloc: Global, step: &Step) -> Result<Option<String>, AllocError>;

    /// Ends the case.
    fn end(&mut self, alloc: Global) -> Result<(), AllocError>;
}

/// What is wrong with a case, and the line that says otherwise.
#[derive(Drop)]
struct Fault {
    line: u64,
    text: String,
}

/// How many cases passed, failed and were passed over; each row of a table is one.
#[derive(Clone, Copy)]
struct Counts {
    passed: u64,
    failed: u64,
    skipped: u64,
}

/// Whether the player can take all parts of the case.
fn is_playable<P: Player>(player: &P, case: &Case) -> bool {
    for part in case.parts.iter() {
        if !player.can_take(part.key.as_str()) {
            return false;
        }
    }
    true
}

/// Has the player take these parts, with a row's columns in them, and says what is wrong.
fn take_all<P: Player>(
    alloc: Global,
    player: &mut P,
    parts: &[Part],
    row: Option<&Row>,
) -> Result<Option<Fault>, AllocError> {
    for part in parts {
        let step = part.step(alloc, row)?;
        if let Some(text) = player.take(alloc, &step)? {
            let line = match row {
                Some(row) => row.line,
                None => part.line,
            };
            return Ok(Some(Fault { line, text }));
        }
    }
    Ok(None)
}

/// What is wrong with a case, or with a row of a table, if anything is.
fn fault_of<P: Player>(
    alloc: Global,
    player: &mut P,
    sheet: &Sheet,
    case: &Case,
    row: Option<&Row>,
) -> Result<Option<Fault>, AllocError> {
    player.begin(alloc, case.real);
    if let Some(fault) = take_all(alloc, player, sheet.common.as_slice(), row)? {
        return Ok(Some(fault));
    }
    if let Some(fault) = take_all(alloc, player, case.parts.as_slice(), row)? {
        return Ok(Some(fault));
    }
    player.end(alloc)?;
    Ok(None)
}

/// Plays a case, or a row of a table, counts it, and writes a line where it differs.
fn play_once<P: Player>(
    rt: &(impl Eprint + AllocGlobal),
    player: &mut P,
    sheet: &Sheet,
    case: &Case,
    row: Option<&Row>,
    counts: &mut Counts,
) -> io::Result<()> {
    match fault_of(rt.alloc(), player, sheet, case, row)? {
        None => counts.passed = counts.passed.saturating_add(1),
        Some(fault) => {
            counts.failed = counts.failed.saturating_add(1);
            eprintln!(rt;
                "{}:{}: {}: {}",
                sheet.name, fault.line, case.name, fault.text
            )?;
        }
    }
    Ok(())
}

/// Plays a case once, or a table once for each of its rows.
fn play_case<P: Player>(
    rt: &(impl Eprint + AllocGlobal),
    player: &mut P,
    sheet: &Sheet,
    case: &Case,
    counts: &mut Counts,
) -> io::Result<()> {
    if case.rows.is_empty() {
        return play_once(rt, player, sheet, case, None, counts);
    }
    for row in case.rows.iter() {
        play_once(rt, player, sheet, case, Some(row), counts)?;
    }
    Ok(())
}

/// Adds the case of a script, whose output stands beside it.
fn add_script(
    rt: &(impl Files + AllocGlobal),
    sheet: &mut Sheet,
    stem: &str,
    script: &str,
) -> io::Result<()> {
    let alloc = rt.alloc();
    let beside = format!(in alloc; "{stem}.out")?;
    let output = fs::read_to_string(rt, beside.as_str())?;
    Ok(document::add_script(alloc, sheet, script, output.as_str())?)
}

/// Adds the cases of a file with this name and this text.
fn add_cases(
    rt: &(impl Files + AllocGlobal),
    sheet: &mut Sheet,
    name: &str,
    text: &str,
) -> io::Result<()> {
    if let Some(stem) = name.strip_suffix(".cpdb") {
        return add_script(rt, sheet, stem, text);
    }
    let added = if name.ends_with(".md") {
        document::add_examples(rt.alloc(), sheet, text)
    } else {
        sheet.add_lines(rt.alloc(), text)
    };
    Ok(added?)
}

/// Adds the cases of a file.
fn add_file(rt: &(impl Files + AllocGlobal), sheet: &mut Sheet, name: &str) -> io::Result<()> {
    let text = fs::read_to_string(rt, name)?;
    add_cases(rt, sheet, name, text.as_str())
}

/// The cases of a file.
fn read_sheet(rt: &(impl Files + AllocGlobal), name: &str) -> io::Result<Sheet> {
    let mut sheet = Sheet::new(rt.alloc(), name)?;
    add_file(rt, &mut sheet, name)?;
    Ok(sheet)
}

/// Plays the cases of a sheet that hold up to this stage, and writes a line for each that differs.
fn play_sheet<P: Player>(
    rt: &(impl Eprint + AllocGlobal),
    player: &mut P,
    sheet: &Sheet,
    upto: u64,
    counts: &mut Counts,
) -> io::Result<()> {
    for case in sheet.cases.iter() {
        if case.since > upto || !is_playable(player, case) {
            counts.skipped = counts.skipped.saturating_add(1);
        } else {
            play_case(rt, player, sheet, case, counts)?;
        }
    }
    Ok(())
}

/// Plays the cases of a file that hold up to this stage, and writes a line for each that differs.
fn play_file<P: Player>(
    rt: &(impl Files + Eprint + AllocGlobal),
    player: &mut P,
    file: &str,
    upto: u64,
    counts: &mut Counts,
) -> io::Result<()> {
    let sheet = read_sheet(rt, file)?;
    play_sheet(rt, player, &sheet, upto, counts)
}

/// Plays the cases of files that hold up to this stage, and counts them. Those of the folder of tables are played by the
/// second player.
fn play_all<P: Player, Q: Player>(
    rt: &(impl Files + Eprint + AllocGlobal),
    player: &mut P,
    of_tables: &mut Q,
    files: &[String],
    upto: u64,
) -> io::Result<Counts> {
    let mut counts = Counts {
        passed: 0,
        failed: 0,
        skipped: 0,
    };
    for file in files {
        let file = file.as_str();
        if file.starts_with(TABLES) {
            play_file(rt, of_tables, file, upto, &mut counts)?;
        } else {
            play_file(rt, player, file, upto, &mut counts)?;
        }
    }
    Ok(counts)
}

/// Writes the line with the counts.
fn write_counts(rt: &impl Print, counts: &Counts) -> io::Result<()> {
    println!(rt;
        "{} passed, {} failed, {} skipped",
        counts.passed, counts.failed, counts.skipped
    )
}

/// Plays the cases that these words name, and gives the exit status.
fn play_words<P: Player, Q: Player>(
    rt: &(impl Files + Eprint + Print + AllocGlobal),
    player: &mut P,
    of_tables: &mut Q,
    words: &[String],
) -> io::Result<ExitCode> {
    let [_, upto, files @ ..] = words else {
        return Ok(ExitCode::from(2));
    };
    let upto = upto.as_str().parse::<u64>().unwrap_or(0);
    let counts = play_all(rt, player, of_tables, files, upto)?;
    write_counts(rt, &counts)?;
    Ok(ExitCode::from(u8::from(counts.failed > 0)))
}

/// Plays the cases that the program's words name, those of the folder `tables` by the second player.
/// Writes a line of standard error for each that differs and one line of standard output with their
/// counts, and gives the exit status: 1 where a case differs, 2 where the words aren't a number and
/// files.
pub fn play_files<P: Player, Q: Player>(
    rt: &(impl Files + Env + Eprint + Print + AllocGlobal),
    player: &mut P,
    of_tables: &mut Q,
) -> io::Result<ExitCode> {
    let words = std::env::args(rt)?.collect::<Vec<String>>(rt.alloc())?;
    play_words(rt, player, of_tables, words.as_slice())
}
