//! Records in the order of their Tids, and then of their places, as they are packed.
ghost use Rattle.std.specs.Prelude.{◌≡◌, ◌≤◌, ◌<◌, ◌+◌, ◌^◌, ◌++◌, length, IfErr, IfOk, OnErr, OnOk, None};
ghost use Rattle.std.specs.List.{AllByRecursion};
ghost use Rattle.std.specs.Option.{option_map};
ghost use Rattle.cp_record.specs.Kept.{IsPackable};
ghost use Rattle.cp_record.specs.Packed.{Grew};
ghost use Rattle.cp_format.specs.Faults.{FaultAt};
ghost use Rattle.cp_format.specs.Formats.{ReadsAt};
ghost use Rattle.cp_frame.specs.Entries.{counted_records};
ghost use Rattle.cp_frame.specs.EntryReading.{next_record_format, counted_records_format};

use crate::order::{read_to, record_early};
use crate::tree::put_number;
use cp_format::{FormatFault, bounded_at, record_at};
use cp_record::{PackedRecord, PackedRecords};
use std::alloc::{AllocError, Global};

/// The record in the next bytes. One that doesn't come after `elder`, the one before, is refused at the
/// byte that decides so.
fn next_record_at<'a>(
    bytes: &'a [u8],
    at: usize,
    elder: Option<&PackedRecord<'a>>,
) -> Result<(PackedRecord<'a>, usize), FormatFault>
    requires { at ≤ length bytes.now }
    ensures read { IfOk result (λ x. ReadsAt (next_record_format (option_map (λ r. r.now) elder.entry)) bytes.now at x.0 x.1) }
    ensures fault { IfErr result (FaultAt (next_record_format (option_map (λ r. r.now) elder.entry)) bytes.now at) }
{
    let read = record_at(bytes, at);
    let Some(elder) = elder else {
        return read;
    };
    match record_early(elder, &bytes[at..read_to(&read, at)]) {
        Some(early) => Err(FormatFault::BadByte(at + early)),
        None => read,
    }
}

/// The number of records, and these. Costs their bytes.
pub(crate) fn records_at(
    alloc: Global,
    bytes: &[u8],
    at: usize,
) -> Result<(PackedRecords, usize), FormatFault>
    requires { at ≤ length bytes.now }
    ensures read { IfOk result (λ x. ReadsAt counted_records_format bytes.now at x.0 x.1) }
    ensures fault { IfErr result (FaultAt counted_records_format bytes.now at) }
{
    let (count, at) = bounded_at(bytes, at, 0, u32::MAX as usize)?;
    let mut records = PackedRecords::new(alloc);
    let mut elder: Option<PackedRecord<'_>> = None;
    let mut next = at;
    for _ in 0..count {
        let (record, behind) = next_record_at(bytes, next, elder.as_ref())?;
        records.push_packed(&record)?;
        elder = Some(record);
        next = behind;
    }
    Ok((records, next))
}

/// Appends the number of records, and these as they are packed. Costs their bytes.
pub(crate) fn put_records(records: &PackedRecords, out: &mut Vec<u8>) -> Result<(), AllocError>
    requires counted { length records.now < 2 ^ 32 }
    ensures ok { OnOk result (out.new.items ≡ out.old.items ++ counted_records records.now) }
    ensures kept { OnOk result (AllByRecursion IsPackable records.now) }
    ensures err { OnErr result (Grew out.old.items out.new.items) }
{
    put_number(records.count(), out)?;
    out.extend_from_slice(records.as_bytes())?;
    Ok(())
}
