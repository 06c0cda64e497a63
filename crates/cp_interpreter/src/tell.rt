//! Lines that go to the output: replies, and the last line of a call that doesn't end with one.
ghost use Rattle.std.specs.Prelude.{◌≡◌, ◌≤◌, []};
ghost use Rattle.cp_outside.specs.Causes.{Accounts};
ghost use Rattle.cp_reply.specs.Lines.{lines, said_lines};
ghost use Rattle.cp_interpreter.specs.Job.{is_difference, is_refusal, says_refusal};
ghost use Rattle.cp_interpreter.specs.Texts.{memory_line, no_store_line};
ghost use Rattle.cp_interpreter.specs.Outside.{known_output};
ghost use Rattle.cp_interpreter.specs.Replied.{IsNamed};
ghost use Rattle.cp_interpreter.specs.Story.{SaidLine, WritesLast, result_of};
ghost use Rattle.cp_interpreter.specs.Turns.{SendsOut, TellsStop, UsesOutput, end_of_stop};

use crate::end::End;
use crate::stop::Stop;
use cp_model::Verdict;
use cp_outside::{Sink, write_all};
use cp_reply::{Reply, Said, lines, said_lines};
use itoa::Buffer;
use std::alloc::Global;

/// Whether a verdict tells of a difference.
fn is_difference(verdict: &Verdict) -> bool
    ensures { result ≡ is_difference verdict.now }
{
    !matches!(verdict, Verdict::Agrees(_))
}

/// Whether a reply refuses something, or tells of a difference.
fn is_refusal(reply: &Reply) -> bool
    ensures { result ≡ is_refusal reply.now }
{
    match reply {
        Reply::Refused { .. } => true,
        Reply::Verified { verdict } => is_difference(verdict),
        _ => false,
    }
}

/// The same of what is said, to nobody or to a curator, whose name is one.
pub(crate) fn says_refusal(said: &Said) -> bool
    ensures refusal { result ≡ says_refusal said.now }
    ensures named { IsNamed said.now.whose }
{
    if let Some(name) = &said.whose {
        // Its text says that the name is one.
        let _text = name.as_str();
    }
    is_refusal(&said.reply)
}

/// Writes the lines of a reply to whom it goes, by way of `text`, whose old contents are dropped.
pub(crate) fn tell<O: Sink>(
    alloc: Global,
    said: &Said,
    text: &mut Vec<u8>,
    output: &mut O,
) -> Result<(), Stop>
    ensures went { SendsOut (said_lines said.now) (O.contents output.old)
        (O.contents output.new) result }
    ensures used { UsesOutput (known_output O.Sink output.old)
        (known_output O.Sink output.new) result }
{
    text.clear();
    said_lines(alloc, said, text)?;
    write_all(output, text)?;
    Ok(())
}

/// Writes the last line, and takes no memory for it. What becomes of it doesn't change how the call ends.
pub fn last_line<O: Sink>(output: &mut O, line: &[u8])
    ensures wrote { WritesLast (known_output O.Sink output.old)
        (known_output O.Sink output.new) [] line.now }
    ensures later { O.faults output.old ≤ O.faults output.new }
{
    let _ = write_all(output, line);
}

/// Writes the last line of a call that met no store: that it is none from this offset on. Takes no memory.
fn no_store_line<O: Sink>(output: &mut O, at: u64)
    ensures wrote { WritesLast (known_output O.Sink output.old) (known_output O.Sink output.new) []
        (no_store_line at) }
    ensures later { O.faults output.old ≤ O.faults output.new }
{
    if write_all(output, b"error: not a store at ").is_err() {
        return;
    }
    let mut digits = Buffer::new();
    if write_all(output, digits.format(at).as_bytes()).is_err() {
        return;
    }
    last_line(output, b"\n");
}

/// There was no memory to begin with, or to go on: writes the last line, which needs none, and gives the end.
pub fn out_of_memory<O: Sink>(output: &mut O) -> End
    ensures end { result ≡ End.Memory }
    ensures wrote { WritesLast (known_output O.Sink output.old)
        (known_output O.Sink output.new) [] memory_line }
    ensures later { O.faults output.old ≤ O.faults output.new }
{
    last_line(output, b"error: memory\n");
    End::Memory
}

/// The end of a call whose session stopped so.
fn end_of(stop: Stop) -> End
    ensures { result ≡ end_of_stop stop }
{
    match stop {
        Stop::Output => End::Output,
        Stop::Full | Stop::Memory => End::Memory,
        Stop::File => End::File,
        Stop::Disk => End::Disk,
        Stop::NoStore(at) => End::NoStore(at),
        Stop::Clock => End::Clock,
    }
}

/// How a call ends whose session was stopped, or wasn't begun. Writes the last line, unless it was the output that stopped it,
/// and takes no memory for that.
pub fn stopped<O: Sink>(output: &mut O, stop: Stop) -> End
    ensures end { result ≡ end_of_stop stop }
    ensures wrote { TellsStop (known_output O.Sink output.old)
        (known_output O.Sink output.new) stop }
    ensures later { O.faults output.old ≤ O.faults output.new }
{
    match stop {
        Stop::Output | Stop::Full => {}
        Stop::File => last_line(output, b"error: file\n"),
        Stop::Disk => last_line(output, b"error: disk\n"),
        Stop::NoStore(at) => no_store_line(output, at),
        Stop::Clock => last_line(output, b"error: clock\n"),
        Stop::Memory => last_line(output, b"error: memory\n"),
    }
    end_of(stop)
}

/// Writes the lines of a reply that stands alone.
fn tell_alone<O: Sink>(alloc: Global, reply: &Reply, output: &mut O) -> Result<(), Stop>
    ensures went { SendsOut (lines reply.now) (O.contents output.old)
        (O.contents output.new) result }
    ensures used { UsesOutput (known_output O.Sink output.old)
        (known_output O.Sink output.new) result }
{
    let mut text = Vec::new(alloc);
    lines(alloc, reply, &mut text)?;
    write_all(output, &text)?;
    Ok(())
}

/// Writes the lines of a reply with which a call ends, and gives the end: whether the reply refuses something or tells of a
/// difference, or that the output failed, or memory ran out, of which it takes as much as the lines have bytes.
pub fn end_with<O: Sink>(alloc: Global, reply: Reply, output: &mut O) -> End
    ensures said { SaidLine (lines reply) (is_refusal reply) (known_output O.Sink output.old)
        (known_output O.Sink output.new) result }
    ensures cause { Accounts (λ e. e ≡ End.Output) (O.faults output.old) (O.faults output.new)
        (result_of result) }
{
    let told = tell_alone(alloc, &reply, output);
    let refused = is_refusal(&reply);
    reply.discard();
    match told {
        Ok(()) if refused => End::Refused,
        Ok(()) => End::Done,
        Err(stop) => stopped(output, stop),
    }
}
