ghost use Rattle.std.specs.Prelude.{◌≡◌, length, false, if◌then◌else◌, IfOk};
ghost use Rattle.std.specs.List.{list_all, list_any};
ghost use Rattle.std.specs.Str.{is_utf8};
ghost use Rattle.std.specs.declared.option.Option.TheVariants.{None, Some};
ghost use Rattle.csv.specs.Records.{fields_of};
ghost use Rattle.cp_sources.specs.CsvTrees.{row_label, field_fault, is_long_label, is_long_text};
ghost use Rattle.cp_sources.specs.Steps.{key_of, IsColumns, TellsRefusal};
ghost use Rattle.cp_sources.specs.declared.csv_fault.CsvFault.TheVariants.{LabelTooLong};

use crate::columns::{Columns, has_longer, text_of};
use crate::csv_fault::CsvFault;
use cp_path::{LABEL_MAX, Label, TEXT_MAX};
use csv::{ByteRecord, StringRecord};
use std::alloc::Global;

/// A row that is fit to be put into a tree: its label and its fields, as many as there are columns.
#[derive(Drop)]
pub(crate) struct Row {
    pub(crate) label: Label,
    pub(crate) fields: StringRecord,
}

/// A label with this text, if it isn't too long.
fn short_label(alloc: Global, text: &str) -> Result<Label, CsvFault>
    ensures text { IfOk result (λ a. a ≡ text.now) }
    ensures told { TellsRefusal result (if is_long_label text.now then Some LabelTooLong else None) }
{
    if text.len() > LABEL_MAX {
        return Err(CsvFault::LabelTooLong);
    }
    Ok(Label::copy_of(alloc, text)?)
}

/// The label of the row of this number.
fn row_label(
    alloc: Global,
    columns: &Columns,
    number: u64,
    fields: &StringRecord,
) -> Result<Label, CsvFault>
    requires columns { IsColumns columns.now.labels.items columns.now.key }
    requires even { length (fields_of fields.now) ≡ length columns.now.labels.items }
    ensures text { IfOk result (λ a. a ≡ row_label columns.now.labels.items (key_of columns.now.labels.items columns.now.key) number (fields_of fields.now)) }
    ensures told { TellsRefusal result (if is_long_label (row_label columns.now.labels.items (key_of columns.now.labels.items columns.now.key) number (fields_of fields.now)) then Some LabelTooLong else None) }
{
    let Some(at) = columns.key else {
        let digits = number.to_string(alloc)?;
        return short_label(alloc, digits.as_str());
    };
    match fields.get(at) {
        Some(text) => short_label(alloc, text),
        None => unreachable!(),
    }
}

/// The record as the row of this number.
pub(crate) fn row_of(
    alloc: Global,
    columns: &Columns,
    number: u64,
    raw: ByteRecord,
) -> Result<Row, CsvFault>
    requires columns { IsColumns columns.now.labels.items columns.now.key }
    ensures label { IfOk result (λ r. r.label ≡ row_label columns.now.labels.items (key_of columns.now.labels.items columns.now.key) number (fields_of raw)) }
    ensures fields { IfOk result (λ r. fields_of r.fields ≡ fields_of raw) }
    ensures even { IfOk result (λ r. length (fields_of r.fields) ≡ length columns.now.labels.items) }
    ensures texts { IfOk result (λ r. list_any is_long_text (fields_of r.fields) ≡ false) }
    ensures told { TellsRefusal result (field_fault columns.now.labels.items (key_of columns.now.labels.items columns.now.key) number (fields_of raw)) }
{
    if raw.len() != columns.labels.len() {
        return Err(CsvFault::Ragged(number));
    }
    let Some(fields) = text_of(raw) else {
        return Err(CsvFault::NotUtf8(number));
    };
    if has_longer(&fields, TEXT_MAX) {
        return Err(CsvFault::TextTooLong);
    }
    let label = row_label(alloc, columns, number, &fields)?;
    Ok(Row { label, fields })
}
