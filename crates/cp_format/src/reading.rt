ghost use Rattle.std.specs.Prelude.{◌≡◌, ◌≤◌, ◌-◌, ℕ, length, drop, IfErr, IfOk};
ghost use Rattle.std.specs.declared.result.Result.TheVariants.{Err};
ghost use Rattle.cp_format.specs.declared.fault.FormatFault.TheVariants.{BadByte};
ghost use Rattle.cp_format.specs.Faults.{FaultAt};
ghost use Rattle.cp_format.specs.Formats.{ReadsAt, StandsAt};
ghost use Rattle.cp_format.specs.Parts.{record_format, source_format};
ghost use Rattle.cp_format.specs.Spelled.{Spells, StopsAt};

use crate::fault::FormatFault;
use crate::number::{letter_at, number_at};
use crate::place::{path_end, place_end};
use cp_model::RecOp;
use cp_path::LOC_MAX;
use cp_record::PackedRecord;

/// The offset after what follows the path in a record of this operation: of a copy the place that it came from.
fn source_end(op: RecOp, bytes: &[u8], at: usize) -> Result<usize, FormatFault>
    requires { at ≤ length bytes.now }
    ensures read { IfOk result (StandsAt (source_format op) bytes.now at) }
    ensures fault { IfErr result (FaultAt (source_format op) bytes.now at) }
{
    match op {
        RecOp::C => place_end(bytes, at),
        _ => Ok(at),
    }
}

/// The offset after the record in the next bytes. The name of T, which isn't spelled, takes 1 of the place's size.
fn record_end(bytes: &[u8], at: usize) -> Result<usize, FormatFault>
    requires { at ≤ length bytes.now }
    ensures read { IfOk result (StandsAt record_format bytes.now at) }
    ensures fault { IfErr result (FaultAt record_format bytes.now at) }
{
    let (_tid, at) = number_at(bytes, at)?;
    let (op, at) = letter_at(bytes, at)?;
    let end = path_end(bytes, at, LOC_MAX - 1)?;
    source_end(op, bytes, end)
}

/// The record in the next bytes, as it stands there, and the offset after it. The fault is the first byte with which no record
/// goes on. Costs its bytes, and takes no memory.
pub fn record_at(bytes: &[u8], at: usize) -> Result<(PackedRecord<'_>, usize), FormatFault>
    requires { at ≤ length bytes.now }
    ensures read { IfOk result (λ x. ReadsAt record_format bytes.now at x.0 x.1) }
    ensures fault { IfErr result (FaultAt record_format bytes.now at) }
{
    let end = record_end(bytes, at)?;
    Ok((PackedRecord::of(&bytes[at..end]), end))
}

/// The record whose bytes begin at the offset `at`, and the offset after them. Costs its bytes, and takes no memory.
pub fn take(bytes: &[u8], at: usize) -> Result<(PackedRecord<'_>, usize), FormatFault>
    requires { at ≤ length bytes.now }
    ensures record { IfOk result (λ x. (at ≤ x.1) × Spells (drop at bytes.now) x.0 (x.1 - at)) }
    ensures bad { (n : ℕ) → result ≡ Err (BadByte n) → (at ≤ n) × StopsAt (drop at bytes.now) (n - at) }
{
    record_at(bytes, at)
}
