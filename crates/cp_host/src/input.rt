//! Real input.
ghost use Rattle.std.specs.Prelude.{◌≡◌, ◌<◌, length, OnErr};
ghost use Rattle.std.specs.Io.{ReadsAtMost};
ghost use Rattle.std.specs.Io.KnownBytes.{ReadConsumes};
ghost use Rattle.cp_outside.specs.Causes.{Accounts, AnyError, CountsBytes, one_more};
ghost use Rattle.cp_host.specs.Adapters.{source_inner, source_given, source_faults};

use cp_outside::{Failed, Source};
use std::io::Read;

/// A source over a reader, as over standard input. It tells the bytes that the reader has left,
/// where the reader does. Every error of the reader is a failure, an interrupted read too, and is
/// counted. So is a read whose bytes might no longer be counted in a `u64`.
#[derive(Drop)]
pub struct StdinSource<R> {
    inner: R,
    given: u64,
    faults: u64,
}

impl<R> StdinSource<R> {
    /// A source over this reader, which has given nothing and has not failed yet.
    pub fn new(inner: R) -> StdinSource<R>
        ensures inner { source_inner result ≡ inner }
        ensures given { source_given result ≡ 0 }
        ensures faults { source_faults result ≡ 0 }
    {
        StdinSource {
            inner,
            given: 0,
            faults: 0,
        }
    }

    // Counts a failure.
    fn fail(&mut self) -> Failed
        ensures inner { source_inner self.new ≡ source_inner self.old }
        ensures given { source_given self.new ≡ source_given self.old }
        ensures faults { source_faults self.new ≡ one_more (source_faults self.old) }
    {
        self.faults = self.faults.saturating_add(1);
        Failed
    }
}

impl<R: Read> Source for StdinSource<R> {
    ghost left = { λ s. R.remaining (source_inner s) };

    ghost given = { source_given };

    ghost faults = { source_faults };

    fn read(&mut self, into: &mut [u8]) -> Result<usize, Failed>
        requires { 0 < length into.old }
        ensures bound { ReadsAtMost result into.new }
        ensures bytes { ReadConsumes (R.remaining (source_inner self.old))
            (R.remaining (source_inner self.new)) result into.new }
        ensures counted { CountsBytes (source_given self.old) (source_given self.new) result }
        ensures cause { Accounts AnyError (source_faults self.old) (source_faults self.new) result }

        // A failure is counted once.
        ensures failed { OnErr result (source_faults self.new ≡ one_more (source_faults self.old)) }
    {
        if self.given.checked_add(into.len() as u64).is_none() {
            return Err(self.fail());
        }
        match self.inner.read(into) {
            Ok(count) => {
                self.given += count as u64;
                Ok(count)
            }
            Err(_) => Err(self.fail()),
        }
    }
}
