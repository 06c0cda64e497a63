//! The run of a generated workload.
ghost use Rattle.std.specs.Prelude.{◌≡◌};
ghost use Rattle.cp_workspace.specs.Files.{KnownFiles};
ghost use Rattle.cp_program.specs.Answering.{Generated};
ghost use Rattle.cp_interpreter.specs.Outside.{KnownInput, KnownClock, known_output};
ghost use Rattle.cp_interpreter.specs.Story.{HasCauses};

use cp_interpreter::{End, end_with, out_of_memory};
use cp_model::Kind;
use cp_outside::Sink;
use cp_scratch::run_workload;
use cp_tree::TreeRep;
use std::alloc::Global;

/// Runs the workload of a seed in memory, and writes the numbers that it comes to.
pub(crate) fn generate<R: TreeRep, S: TreeRep, O: Sink>(
    alloc: Global,
    seed: u64,
    count: u32,
    kind: Kind,
    output: &mut O,
) -> End
    ensures ran { (i : KnownInput) (f : KnownFiles) (k : KnownClock) → Generated kind seed count
        (record { input = i; files = f; clock = k; output = known_output O.Sink output.old })
        (record { input = i; files = f; clock = k; output = known_output O.Sink output.new })
        result }
    ensures causes { (i : KnownInput) (f : KnownFiles) (k : KnownClock) → HasCauses
        (record { input = i; files = f; clock = k; output = known_output O.Sink output.old })
        (record { input = i; files = f; clock = k; output = known_output O.Sink output.new })
        result }
    ensures disk { result ≡ End.Disk → ⊥ }
    ensures short { result ≡ End.TooLong → ⊥ }
{
    match run_workload::<R, S>(alloc, kind, seed, count) {
        Ok(reply) => end_with(alloc, reply, output),
        Err(_) => out_of_memory(output),
    }
}
