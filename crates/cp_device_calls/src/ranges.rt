//! Numbers from 0 on that have the same text, written as one range, and the numbers of a line.

use cp_cases::numbers_of;
use std::alloc::{AllocError, Global};

/// Writes `FIRST..LAST TEXT` for each run of numbers that have the same text.
#[derive(Drop)]
pub(crate) struct Ranges {
    first: usize,
    next: usize,
    text: String,
    written: String,
    between: &'static str,
}

impl Ranges {
    /// No number yet; the ranges have this between them.
    pub(crate) fn new(alloc: Global, between: &'static str) -> Ranges {
        Ranges {
            first: 0,
            next: 0,
            text: String::new(alloc),
            written: String::new(alloc),
            between,
        }
    }

    /// Writes the range that has come to its end.
    fn close(&mut self, alloc: Global) -> Result<(), AllocError> {
        if self.first == self.next {
            return Ok(());
        }
        if !self.written.is_empty() {
            self.written.push_str(self.between)?;
        }
        let last = self.next.saturating_sub(1);
        let range = format!(in alloc; "{}..{} {}", self.first, last, self.text)?;
        self.written.push_str(range.as_str())
    }

    /// The next number has this text.
    pub(crate) fn add(&mut self, alloc: Global, text: String) -> Result<(), AllocError> {
        if text.as_str() != self.text.as_str() {
            self.close(alloc)?;
            self.first = self.next;
            self.text = text;
        }
        self.next = self.next.saturating_add(1);
        Ok(())
    }

    /// The ranges of all numbers.
    pub(crate) fn end(mut self, alloc: Global) -> Result<String, AllocError> {
        self.close(alloc)?;
        Ok(self.written)
    }
}

/// The number at this index, or 0.
pub(crate) fn number_at(numbers: &[u64], index: usize) -> u64 {
    match numbers.get(index) {
        Some(number) => *number,
        None => 0,
    }
}

/// The first two numbers of these words, 0 for one that they don't have.
pub(crate) fn two_numbers(alloc: Global, words: &str) -> Result<(u64, u64), AllocError> {
    let numbers = numbers_of(alloc, words)?;
    Ok((number_at(&numbers, 0), number_at(&numbers, 1)))
}
