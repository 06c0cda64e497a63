//! Calls of sources, sinks, files, clocks and disks, the real ones and those in memory.

use crate::{clocks, faults, folder, source_files, streams};
use cp_cases::Step;
use std::alloc::AllocError;

/// The first word of a line, and what comes after the space behind it.
pub(crate) fn word_and_rest(line: &str) -> (&str, &str) {
    line.split_once(' ').unwrap_or((line, ""))
}

/// Adds what the call of this keyword gives; `None` where there is no such call.
fn add_answer(
    rt: &HostRuntime,
    step: &Step,
    text: &str,
    lines: &mut Vec<u8>,
) -> Option<Result<(), AllocError>> {
    let words = step.rest.as_str();
    Some(match step.key.as_str() {
        "source" => streams::add_source(rt.alloc(), words, text, lines),
        "sink" => streams::add_sink(rt.alloc(), words, text, lines),
        "files" => source_files::add_files(rt.alloc(), words, text, lines),
        "clock" => clocks::add_moments(rt.alloc(), words, text, lines),
        "time" => clocks::add_time(rt, words, lines),
        "faults" => faults::add_texts(rt.alloc(), lines),
        "grown" => faults::add_grown(rt.alloc(), lines),
        "folder" => folder::add_folder(rt, words, text, lines),
        _ => return None,
    })
}

/// What the call of this keyword gives; `None` where there is no such call.
pub(crate) fn answer(rt: &HostRuntime, step: &Step) -> Result<Option<Vec<u8>>, AllocError> {
    let text = std::str::from_utf8(step.text.as_slice()).unwrap_or("");
    let mut lines = Vec::new(rt.alloc());
    match add_answer(rt, step, text, &mut lines) {
        Some(Ok(())) => Ok(Some(lines)),
        Some(Err(refused)) => Err(refused),
        None => Ok(None),
    }
}
