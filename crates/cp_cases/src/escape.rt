//! Escapes in the lines of a text.
//!
//! `%<TEXT*N>` stands for the text N times, with a line feed in place of each `\n` and the number of the time, from 0, in
//! place of each `#`; `%<0A FF>` for the bytes of these hexadecimal numbers.

use std::alloc::{AllocError, Global};

/// Adds the piece so many times.
fn add_copies(
    alloc: Global,
    text: &mut Vec<u8>,
    piece: &str,
    times: usize,
) -> Result<(), AllocError> {
    let all = piece.repeat(alloc, times)?;
    text.extend_from_slice(all.as_bytes())
}

/// Adds the piece with the number of the time for each `#`.
fn add_numbered(
    alloc: Global,
    text: &mut Vec<u8>,
    piece: &str,
    time: usize,
) -> Result<(), AllocError> {
    let number = time.to_string(alloc)?;
    let numbered = piece.replace(alloc, "#", number.as_str())?;
    text.extend_from_slice(numbered.as_bytes())
}

/// Adds the piece so many times, with a line feed for each `\n` and the number of the time for each `#`.
fn add_times(
    alloc: Global,
    text: &mut Vec<u8>,
    piece: &str,
    times: usize,
) -> Result<(), AllocError> {
    let piece = piece.replace(alloc, "\\n", "\n")?;
    if !piece.as_str().contains('#') {
        return add_copies(alloc, text, piece.as_str(), times);
    }
    for time in 0..times {
        add_numbered(alloc, text, piece.as_str(), time)?;
    }
    Ok(())
}

/// Adds what an escape stands for.
fn add_escape(alloc: Global, text: &mut Vec<u8>, escape: &str) -> Result<(), AllocError> {
    if let Some((piece, times)) = escape.rsplit_once('*') {
        return add_times(alloc, text, piece, times.parse::<usize>().unwrap_or(0));
    }
    for word in escape.split_whitespace() {
        if let Ok(byte) = u8::from_str_radix(word, 16) {
            text.push(byte)?;
        }
    }
    Ok(())
}

/// Adds what stands after a `%<`: what the escape stands for, and what comes after it.
fn add_escaped(alloc: Global, text: &mut Vec<u8>, piece: &str) -> Result<(), AllocError> {
    let (escape, plain) = piece.split_once('>').unwrap_or(("", piece));
    add_escape(alloc, text, escape)?;
    text.extend_from_slice(plain.as_bytes())
}

/// Adds a line to a text, with what its escapes stand for, and a line feed.
pub(crate) fn add_line(alloc: Global, text: &mut Vec<u8>, line: &str) -> Result<(), AllocError> {
    let mut pieces = line.split("%<");
    text.extend_from_slice(pieces.next().unwrap_or("").as_bytes())?;
    for piece in pieces {
        add_escaped(alloc, text, piece)?;
    }
    text.push(b'\n')?;
    Ok(())
}
