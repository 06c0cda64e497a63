//! Sources and sinks: those in memory, and the real ones over bytes, over a list, and over what fails.

use crate::lines::{add_answer, add_bytes, add_line};
use crate::outside::word_and_rest;
use cp_host::{StdinSource, StdoutSink};
use cp_outside::{MemSink, MemSource, Sink, Source, write_all};
use std::alloc::{AllocError, Global};
use std::io;
use std::io::{Error, ErrorKind, Read, Write};

/// A reader and a writer that fail; as a writer it takes nothing, where `takes_none` says so.
#[derive(Drop)]
struct Broken {
    takes_none: bool,
}

impl Read for Broken {
    fn read(&mut self, _into: &mut [u8]) -> io::Result<usize> {
        Err(Error::from(ErrorKind::Other))
    }
}

impl Write for Broken {
    fn write(&mut self, _bytes: &[u8]) -> io::Result<usize> {
        if self.takes_none {
            return Ok(0);
        }
        Err(Error::from(ErrorKind::Other))
    }

    fn flush(&mut self) -> io::Result<()> {
        Ok(())
    }
}

/// Adds how many bytes a read into a room that holds these gives, and what it holds then.
fn add_read<S: Source>(
    alloc: Global,
    source: &mut S,
    room: &str,
    lines: &mut Vec<u8>,
) -> Result<(), AllocError> {
    let mut room = room.as_bytes().to_vec(alloc)?;
    if room.is_empty() {
        return add_line(alloc, &"not asked", lines);
    }
    match source.read(&mut room) {
        Ok(count) => add_given(alloc, count, room.as_slice(), lines),
        Err(fault) => add_line(alloc, &fault, lines),
    }
}

/// Adds how many bytes came, and what the room holds.
fn add_given(
    alloc: Global,
    count: usize,
    room: &[u8],
    lines: &mut Vec<u8>,
) -> Result<(), AllocError> {
    let count = format!(in alloc; "{count} ")?;
    lines.extend_from_slice(count.as_bytes())?;
    add_bytes(room, lines)
}

/// Adds a line for a read into each of these rooms.
fn add_reads<S: Source + Drop>(
    alloc: Global,
    mut source: S,
    rooms: &str,
    lines: &mut Vec<u8>,
) -> Result<(), AllocError> {
    for room in rooms.split_terminator('\n') {
        add_read(alloc, &mut source, room, lines)?;
    }
    Ok(())
}

/// Adds what reads of the source of these words give.
pub(crate) fn add_source(
    alloc: Global,
    words: &str,
    rooms: &str,
    lines: &mut Vec<u8>,
) -> Result<(), AllocError> {
    let (kind, bytes) = word_and_rest(words);
    let bytes = bytes.as_bytes();
    match kind {
        "memory" => add_reads(alloc, MemSource::new(alloc, bytes)?, rooms, lines),
        "real" => add_reads(alloc, StdinSource::new(bytes), rooms, lines),
        _ => {
            let broken = Broken { takes_none: false };
            add_reads(alloc, StdinSource::new(broken), rooms, lines)
        }
    }
}

/// Adds what a write, or writes until all is taken, give.
fn add_write<S: Sink>(
    alloc: Global,
    sink: &mut S,
    call: &str,
    lines: &mut Vec<u8>,
) -> Result<(), AllocError> {
    let (word, bytes) = word_and_rest(call);
    if bytes.is_empty() {
        return add_line(alloc, &"not asked", lines);
    }
    if word == "all" {
        let written = write_all(sink, bytes.as_bytes()).and(Ok("done"));
        return add_answer(alloc, &written, lines);
    }
    add_answer(alloc, &sink.write(bytes.as_bytes()), lines)
}

/// Adds a line for each of these calls.
fn add_writes<S: Sink>(
    alloc: Global,
    sink: &mut S,
    calls: &str,
    lines: &mut Vec<u8>,
) -> Result<(), AllocError> {
    for call in calls.split_terminator('\n') {
        add_write(alloc, sink, call, lines)?;
    }
    Ok(())
}

/// Adds what calls of a sink in memory give, and what it holds then.
fn add_memory(alloc: Global, calls: &str, lines: &mut Vec<u8>) -> Result<(), AllocError> {
    let mut sink = MemSink::new(alloc)?;
    add_writes(alloc, &mut sink, calls, lines)?;
    add_bytes(sink.bytes(), lines)
}

/// Adds what calls of a real sink over a list give, and what the list holds then.
fn add_list(alloc: Global, calls: &str, lines: &mut Vec<u8>) -> Result<(), AllocError> {
    let mut list = Vec::new(alloc);
    add_writes(alloc, &mut StdoutSink::new(&mut list), calls, lines)?;
    add_bytes(list.as_slice(), lines)
}

/// Adds what calls of the sink of this kind give.
pub(crate) fn add_sink(
    alloc: Global,
    kind: &str,
    calls: &str,
    lines: &mut Vec<u8>,
) -> Result<(), AllocError> {
    match kind {
        "memory" => add_memory(alloc, calls, lines),
        "real" => add_list(alloc, calls, lines),
        _ => {
            let takes_none = kind == "full";
            let mut sink = StdoutSink::new(Broken { takes_none });
            add_writes(alloc, &mut sink, calls, lines)
        }
    }
}
