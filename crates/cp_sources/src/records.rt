ghost use Rattle.std.specs.Prelude.{◌≡◌, [], ◌∷◌, IfOk, IfErr, IfSome, MatchOption};
ghost use Rattle.csv.specs.Reading.{records, default_config, strip_bom, error_kind};
ghost use Rattle.csv.specs.Records.{fields_of};
ghost use Rattle.cp_sources.specs.Steps.{IsOpen, records_left, IsIoOrMemory};
ghost use Rattle.cp_sources.specs.declared.csv_fault.CsvFault.TheVariants.{Memory};

use crate::csv_fault::CsvFault;
use csv::{ByteRecord, ByteRecordsIntoIter, Error, ReaderBuilder};
use std::alloc::Global;

/// The records of a text, of any lengths, read one by one.
pub(crate) fn records_of<'a>(alloc: Global, bytes: &'a [u8]) -> ByteRecordsIntoIter<&'a [u8]>
    ensures open { IsOpen result }
    ensures all { records_left result ≡ records default_config (strip_bom bytes.now) }
{
    ReaderBuilder::new()
        .has_headers(false)
        .flexible(true)
        .from_reader(alloc, bytes)
        .into_byte_records()
}

/// What a failed read comes to. Memory had no room; that a slice fails to be read never comes, though the contract of
/// `csv` can't tell so, and counts as memory that ran out.
fn failed(error: Error) -> CsvFault
    requires { IsIoOrMemory (error_kind error) }
    ensures { result ≡ Memory }
{
    drop(error);
    CsvFault::Memory
}

/// The next record, if there is one. Costs its bytes.
pub(crate) fn next_record(
    records: &mut ByteRecordsIntoIter<&[u8]>,
) -> Result<Option<ByteRecord>, CsvFault>
    requires open { IsOpen records.old }
    ensures next { IfOk result (λ o. MatchOption o (records_left records.old ≡ []) (λ r. records_left records.old ≡ fields_of r ∷ records_left records.new)) }
    ensures open { IfOk result (λ o. IfSome o (λ r. IsOpen records.new)) }
    ensures memory { IfErr result (λ e. e ≡ Memory) }
{
    match records.next() {
        None => Ok(None),
        Some(Ok(record)) => Ok(Some(record)),
        Some(Err(error)) => Err(failed(error)),
    }
}
