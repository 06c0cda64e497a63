//! Reads files of cases.
//!
//! A case is `case NAME`, then `since N`, the stage of the program from which it holds, then its parts in order. A table is the same with
//! `table NAME` and, as its last lines, rows `- COLUMN -> COLUMN`: it is played once for each row, with the row's columns in
//! place of `@1`, `@2` and `@3`. Parts before the first case, below `common`, come first in every case. Empty lines, and lines
//! that begin with `#`, are passed over.
//!
//! A part is a keyword, the rest of its line, and a text: the lines below it that begin with `| `, each ended by a line feed.
//! Where `-` stands at the end of the keyword's line, the last line feed is left out. `escape` says what `%<..>` stands for,
//! and each program that plays cases what its keywords mean.

use crate::escape::add_line;
use std::alloc::{AllocError, Global};

/// A keyword, the rest of its line, and the lines of the text below.
#[derive(Drop)]
pub(crate) struct Part {
    /// The number of its line in the file.
    pub(crate) line: u64,
    pub(crate) key: String,
    pub(crate) rest: String,
    pub(crate) lines: Vec<String>,
}

/// A part as it is taken: with a row's columns in it.
#[derive(Drop)]
pub struct Step {
    pub key: String,
    /// The rest of the keyword's line, without the `-` at its end.
    pub rest: String,
    pub text: Vec<u8>,
}

/// A row of a table.
#[derive(Drop)]
pub(crate) struct Row {
    /// The number of its line in the file.
    pub(crate) line: u64,
    pub(crate) columns: String,
}

#[derive(Drop)]
pub(crate) struct Case {
    pub(crate) name: String,
    /// The stage of the program from which it holds.
    pub(crate) since: u64,
    /// Whether its files are the real ones, by their paths.
    pub(crate) real: bool,
    pub(crate) parts: Vec<Part>,
    pub(crate) rows: Vec<Row>,
}

/// The cases of a file, and the parts that all of them begin with.
#[derive(Drop)]
pub(crate) struct Sheet {
    /// The file's name.
    pub(crate) name: String,
    pub(crate) common: Vec<Part>,
    pub(crate) cases: Vec<Case>,
}

/// The mark that stands for a row's column with this number, from 0.
fn mark_of(column: usize) -> &'static str {
    match column {
        0 => "@1",
        1 => "@2",
        _ => "@3",
    }
}

/// The line with these columns in place of `@1`, `@2` and `@3`.
fn with_columns(alloc: Global, line: &str, columns: &str) -> Result<String, AllocError> {
    let mut filled = line.to_string(alloc)?;
    for (number, column) in columns.split(" -> ").enumerate() {
        filled = filled.replace(alloc, mark_of(number), column)?;
    }
    Ok(filled)
}

/// The line with a row's columns in it.
fn filled(alloc: Global, line: &str, row: Option<&Row>) -> Result<String, AllocError> {
    match row {
        Some(row) => with_columns(alloc, line, row.columns.as_str()),
        None => line.to_string(alloc),
    }
}

impl Part {
    fn new(alloc: Global, line: u64, key: &str, rest: &str) -> Result<Part, AllocError> {
        Ok(Part {
            line,
            key: key.to_string(alloc)?,
            rest: rest.to_string(alloc)?,
            lines: Vec::new(alloc),
        })
    }

    /// Adds a line to the text.
    pub(crate) fn add(&mut self, alloc: Global, line: &str) -> Result<(), AllocError> {
        self.lines.push(line.to_string(alloc)?)?;
        Ok(())
    }

    /// The rest of the keyword's line, without a `-` at its end.
    fn words(&self, alloc: Global, row: Option<&Row>) -> Result<String, AllocError> {
        let rest = self.rest.as_str();
        let words = match rest.strip_suffix(" -") {
            Some(words) => words,
            None if rest == "-" => "",
            None => rest,
        };
        filled(alloc, words, row)
    }

    /// The text, without its last line feed where a `-` leaves it out.
    fn text(&self, alloc: Global, row: Option<&Row>) -> Result<Vec<u8>, AllocError> {
        let mut text = Vec::new(alloc);
        for line in self.lines.iter() {
            let line = filled(alloc, line.as_str(), row)?;
            add_line(alloc, &mut text, line.as_str())?;
        }
        let rest = self.rest.as_str();
        if rest == "-" || rest.ends_with(" -") {
            text.pop();
        }
        Ok(text)
    }

    /// The part with a row's columns in it.
    pub(crate) fn step(&self, alloc: Global, row: Option<&Row>) -> Result<Step, AllocError> {
        Ok(Step {
            key: self.key.as_str().to_string(alloc)?,
            rest: self.words(alloc, row)?,
            text: self.text(alloc, row)?,
        })
    }
}

impl Case {
    pub(crate) fn new(alloc: Global, name: &str) -> Result<Case, AllocError> {
        Ok(Case {
            name: name.to_string(alloc)?,
            since: 0,
            real: false,
            parts: Vec::new(alloc),
            rows: Vec::new(alloc),
        })
    }

    /// Begins a part with this keyword and this rest of its line.
    pub(crate) fn begin_part(
        &mut self,
        alloc: Global,
        line: u64,
        key: &str,
        rest: &str,
    ) -> Result<(), AllocError> {
        begin_part(alloc, &mut self.parts, line, key, rest)
    }

    /// Adds a row of a table.
    fn add_row(&mut self, alloc: Global, line: u64, columns: &str) -> Result<(), AllocError> {
        let columns = columns.to_string(alloc)?;
        self.rows.push(Row { line, columns })?;
        Ok(())
    }

    /// Takes a line below the case's name.
    fn add(&mut self, alloc: Global, number: u64, line: &str) -> Result<(), AllocError> {
        if let Some(since) = line.strip_prefix("since ") {
            self.since = since.parse::<u64>().unwrap_or(u64::MAX);
            return Ok(());
        }
        if let Some(columns) = line.strip_prefix("- ") {
            return self.add_row(alloc, number, columns);
        }
        add_part(alloc, &mut self.parts, number, line)
    }
}

/// Begins a part after these.
fn begin_part(
    alloc: Global,
    parts: &mut Vec<Part>,
    line: u64,
    key: &str,
    rest: &str,
) -> Result<(), AllocError> {
    parts.push(Part::new(alloc, line, key, rest)?)?;
    Ok(())
}

/// Takes a line of a text, or a new part.
fn add_part(
    alloc: Global,
    parts: &mut Vec<Part>,
    number: u64,
    line: &str,
) -> Result<(), AllocError> {
    let (key, rest) = line.split_once(' ').unwrap_or((line, ""));
    match parts.last_mut() {
        Some(part) if key == "|" => part.add(alloc, rest),
        _ => begin_part(alloc, parts, number, key, rest),
    }
}

impl Sheet {
    pub(crate) fn new(alloc: Global, name: &str) -> Result<Sheet, AllocError> {
        Ok(Sheet {
            name: name.to_string(alloc)?,
            common: Vec::new(alloc),
            cases: Vec::new(alloc),
        })
    }

    /// Begins a case with this name.
    fn begin_case(&mut self, alloc: Global, name: &str) -> Result<(), AllocError> {
        self.cases.push(Case::new(alloc, name)?)?;
        Ok(())
    }

    /// Takes the next line.
    fn add(&mut self, alloc: Global, number: u64, line: &str) -> Result<(), AllocError> {
        if line.is_empty() || line == "common" || line.starts_with('#') {
            return Ok(());
        }
        let name = line.strip_prefix("case ");
        if let Some(name) = name.or(line.strip_prefix("table ")) {
            return self.begin_case(alloc, name);
        }
        match self.cases.last_mut() {
            Some(case) => case.add(alloc, number, line),
            None => add_part(alloc, &mut self.common, number, line),
        }
    }

    /// Takes the lines of a file of cases.
    pub(crate) fn add_lines(&mut self, alloc: Global, text: &str) -> Result<(), AllocError> {
        let mut number = 0u64;
        for line in text.split('\n') {
            number = number.saturating_add(1);
            self.add(alloc, number, line)?;
        }
        Ok(())
    }
}
