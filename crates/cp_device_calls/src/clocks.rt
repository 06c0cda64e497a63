//! The clock in memory, and the real one.

use crate::lines::{add_answer, add_line};
use crate::outside::word_and_rest;
use cp_cases::{number_of, numbers_of};
use cp_host::HostClock;
use cp_outside::{Clock, MemClock};
use std::alloc::{AllocError, Global};

/// A clock that tells these moments, where the calls with these numbers fail.
fn clock_of(alloc: Global, moments: &str, fails: &str) -> Result<MemClock, AllocError> {
    let moments = numbers_of(alloc, moments)?;
    let fails = numbers_of(alloc, fails)?;
    MemClock::with_faults(alloc, moments.as_slice(), fails.as_slice())
}

/// Adds what so many calls of such a clock give.
pub(crate) fn add_moments(
    alloc: Global,
    words: &str,
    moments: &str,
    lines: &mut Vec<u8>,
) -> Result<(), AllocError> {
    let (calls, fails) = word_and_rest(words);
    let mut clock = clock_of(alloc, moments, fails)?;
    for _ in 0..number_of(calls) {
        add_answer(alloc, &clock.now(), lines)?;
    }
    Ok(())
}

/// Adds whether the time lies between two moments, and whether it doesn't go back from one call to the next.
pub(crate) fn add_time(
    rt: &HostRuntime,
    words: &str,
    lines: &mut Vec<u8>,
) -> Result<(), AllocError> {
    let (after, before) = word_and_rest(words);
    let mut clock = HostClock::new(rt);
    let first = clock.now();
    let second = clock.now();
    let time = first.unwrap_or(0);
    let between = time > number_of(after) && time < number_of(before);
    let in_order = time <= second.unwrap_or(0);
    add_line(rt.alloc(), &between, lines)?;
    add_line(rt.alloc(), &in_order, lines)
}
