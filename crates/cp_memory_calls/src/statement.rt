//! Statements as they are read, and cuts of an input.

use crate::replies::lines_alone;
use crate::word::bytes_of;
use cp_cases::number_of;
use cp_lang::{Cut, Cutter, StmtFault, first_offset, parse, parse_bytes, print};
use cp_reply::{Of, Reply, Why};
use std::alloc::{AllocError, Global};

/// The statement that a text is, as it is printed.
fn statement(alloc: Global, text: &str) -> Result<String, StmtFault> {
    let statement = parse(alloc, text)?;
    let text = print(alloc, &statement);
    drop(statement);
    Ok(text?)
}

/// Why a text is no statement, as a reply says it.
fn refusal(alloc: Global, fault: StmtFault) -> Result<Vec<u8>, AllocError> {
    let why = match fault {
        StmtFault::Syntax(at) => Why::Syntax(at),
        StmtFault::Place(at, fault) => Why::Place(at, fault),
        StmtFault::Memory => return Err(AllocError),
    };
    let of = Of::Statement;
    let reply = Reply::Refused { of, why };
    let lines = lines_alone(alloc, &reply);
    drop(reply);
    lines
}

/// The line of the statement that bytes are, as it is printed, or its refusal.
pub(crate) fn printed(alloc: Global, bytes: &[u8]) -> Result<Option<Vec<u8>>, AllocError> {
    if let Some(fault) = parse_bytes(alloc, bytes).err() {
        return Ok(Some(refusal(alloc, fault)?));
    }
    let text = std::str::from_utf8(bytes).unwrap_or("");
    match statement(alloc, text) {
        Ok(text) => Ok(Some(bytes_of(alloc, text.as_str())?)),
        Err(fault) => Ok(Some(refusal(alloc, fault)?)),
    }
}

/// The line of the offset at which the first token begins.
pub(crate) fn offset(alloc: Global, bytes: &[u8]) -> Result<Option<Vec<u8>>, AllocError> {
    let number = first_offset(bytes).to_string(alloc)?;
    Ok(Some(bytes_of(alloc, number.as_str())?))
}

/// Adds the line of a cut.
fn add_cut(lines: &mut Vec<u8>, cut: &Cut) -> Result<(), AllocError> {
    let (mark, bytes) = match cut {
        Cut::Text(bytes) => ("= ", bytes.as_slice()),
        Cut::TooLong => ("too long", b"".as_slice()),
        Cut::Unfinished(bytes) => ("~ ", bytes.as_slice()),
    };
    lines.extend_from_slice(mark.as_bytes())?;
    lines.extend_from_slice(bytes)?;
    lines.push(b'\n')?;
    Ok(())
}

/// The cuts of an input that comes in pieces of one size.
fn cuts_of(alloc: Global, input: &[u8], size: usize) -> Result<Vec<Cut>, AllocError> {
    let mut cutter = Cutter::new(alloc);
    let mut cuts = Vec::new(alloc);
    for piece in input.chunks(size.max(1)) {
        cutter.feed(piece, &mut cuts)?;
    }
    if let Some(rest) = cutter.rest() {
        cuts.push(rest)?;
    }
    Ok(cuts)
}

/// The cuts of an input that comes in pieces of this size, each on a line: `= ` and a text,
/// `too long`, and `~ ` and a text that the input's end leaves unfinished.
pub(crate) fn cuts(alloc: Global, size: &str, input: &[u8]) -> Result<Option<Vec<u8>>, AllocError> {
    let cuts = cuts_of(alloc, input, number_of(size) as usize)?;
    let mut lines = Vec::new(alloc);
    for cut in cuts.iter() {
        add_cut(&mut lines, cut)?;
    }
    Ok(Some(lines))
}
