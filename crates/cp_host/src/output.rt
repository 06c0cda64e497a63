//! Real output.
ghost use Rattle.std.specs.Prelude.{◌≡◌, ◌<◌, length, IfErr};
ghost use Rattle.std.specs.Io.KnownBytes.{WriteAppends};
ghost use Rattle.cp_outside.specs.Causes.{Accounts, one_more};
ghost use Rattle.cp_outside.specs.Sinks.{CountsRefusal, CountsSince, TakesSome};
ghost use Rattle.cp_host.specs.Adapters.{sink_inner, sink_faults, sink_since};

use cp_outside::{Sink, SinkFault};
use std::io::Write;

/// A sink over a writer, as over standard output. It tells the bytes that the writer holds, where
/// the writer does. Every error of the writer is a failure, an interrupted write too, and so is a
/// write that takes nothing; each is counted, and no write is refused without one.
#[derive(Drop)]
pub struct StdoutSink<W> {
    inner: W,
    faults: u64,
    since_failure: u64,
}

impl<W> StdoutSink<W> {
    /// A sink over this writer, which has not failed yet.
    pub fn new(inner: W) -> StdoutSink<W>
        ensures inner { sink_inner result ≡ inner }
        ensures faults { sink_faults result ≡ 0 }
    {
        StdoutSink {
            inner,
            faults: 0,
            since_failure: 0,
        }
    }
}

impl<W: Write> Sink for StdoutSink<W> {
    ghost contents = { λ s. W.contents (sink_inner s) };

    ghost faults = { sink_faults };

    ghost refusals = { sink_faults };

    ghost since_refusal = { sink_since };

    fn write(&mut self, bytes: &[u8]) -> Result<usize, SinkFault>
        requires { 0 < length bytes.now }
        ensures some { TakesSome result bytes.now }
        ensures bytes { WriteAppends (W.contents (sink_inner self.old)) (W.contents (sink_inner self.new))
            result bytes.now }
        ensures cause { Accounts (λ e. e ≡ SinkFault.Failed) (sink_faults self.old) (sink_faults self.new) result }
        ensures refused { CountsRefusal (sink_faults self.old) (sink_faults self.new) result }
        ensures since { CountsSince (sink_since self.old) (sink_since self.new) result }

        // Each refusal is a failure, and is counted once.
        ensures failed { IfErr result (λ e. (e ≡ SinkFault.Failed)
            × (sink_faults self.new ≡ one_more (sink_faults self.old))) }
    {
        match self.inner.write(bytes) {
            Ok(count) if 0 < count => {
                self.since_failure = self.since_failure.saturating_add(count as u64);
                Ok(count)
            }
            _ => {
                self.faults = self.faults.saturating_add(1);
                self.since_failure = 0;
                Err(SinkFault::Failed)
            }
        }
    }
}
