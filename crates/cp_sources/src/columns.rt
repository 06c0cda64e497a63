ghost use Rattle.std.specs.Prelude.{◌≡◌, [], true, false, length, IfOk, IfErr, MatchOption, nat_lt};
ghost use Rattle.std.specs.List.{list_all, list_any};
ghost use Rattle.std.specs.Str.{is_utf8};
ghost use Rattle.std.specs.declared.option.Option.TheVariants.{None, Some};
ghost use Rattle.csv.specs.Records.{fields_of};
ghost use Rattle.cp_model.specs.Place.{label_eq, option_map};
ghost use Rattle.cp_sources.specs.CsvTrees.{is_long_label, repeated_column, header_fault};
ghost use Rattle.cp_sources.specs.Steps.{column_of, key_of, IsColumns, TellsRefusal};

use crate::csv_fault::CsvFault;
use cp_path::{LABEL_MAX, Label};
use csv::{ByteRecord, StringRecord};
use std::alloc::{AllocError, Global};
use std::collections::BTreeSet;

/// The columns of a text: their headers, which differ, and which of them names the rows, if one does.
#[derive(Drop)]
pub(crate) struct Columns {
    pub(crate) labels: Vec<Label>,
    pub(crate) key: Option<usize>,
}

/// The record as text, if each field is UTF-8.
pub(crate) fn text_of(raw: ByteRecord) -> Option<StringRecord>
    ensures { MatchOption result (list_all is_utf8 (fields_of raw) ≡ false) (λ s. (list_all is_utf8 (fields_of raw) ≡ true) × (fields_of s ≡ fields_of raw)) }
{
    match StringRecord::from_byte_record(raw) {
        Ok(fields) => Some(fields),
        Err(_) => None,
    }
}

/// Whether some field has more bytes than this.
pub(crate) fn has_longer(fields: &StringRecord, most: usize) -> bool
    ensures { result ≡ list_any (λ f. nat_lt most (length f)) (fields_of fields.now) }
{
    for field in fields {
        if field.len() > most {
            return true;
        }
    }
    false
}

/// The fields as labels. Costs their bytes.
fn labels_of(alloc: Global, fields: &StringRecord) -> Result<Vec<Label>, AllocError>
    requires short { list_any is_long_label (fields_of fields.now) ≡ false }
    ensures { IfOk result (λ v. v.items ≡ fields_of fields.now) }
{
    let mut labels = Vec::new(alloc);
    for field in fields {
        labels.push(Label::copy_of(alloc, field)?)?;
    }
    Ok(labels)
}

/// The first column, counted from 1, whose header stood in an earlier one. Costs a search among the headers for each.
fn repeated_column(alloc: Global, labels: &[Label]) -> Result<Option<u64>, AllocError>
    ensures { IfOk result (λ n. n ≡ repeated_column [] 1 labels.now) }
{
    let mut seen = BTreeSet::new(alloc);
    let mut column = 0;
    for label in labels {
        column += 1;
        if !seen.insert(label.clone()?)? {
            return Ok(Some(column));
        }
    }
    Ok(None)
}

/// The first column with this header.
fn column_of(labels: &[Label], key: &Label) -> Option<usize>
    ensures { result ≡ column_of key.now labels.now }
{
    let mut at = 0;
    for label in labels {
        if key == label {
            return Some(at);
        }
        at += 1;
    }
    None
}

/// The columns of the header, with those of this key, if there is to be one.
pub(crate) fn columns_of(
    alloc: Global,
    header: ByteRecord,
    key: Option<&Label>,
) -> Result<Columns, CsvFault>
    ensures made { IfOk result (λ c. c.labels.items ≡ fields_of header) }
    ensures keyed { IfOk result (λ c. key_of (fields_of header) c.key ≡ option_map (λ k. k.now) key.entry) }
    ensures sound { IfOk result (λ c. IsColumns (fields_of header) c.key) }
    ensures told { TellsRefusal result (header_fault (fields_of header) (option_map (λ k. k.now) key.entry)) }
{
    let Some(fields) = text_of(header) else {
        return Err(CsvFault::NotUtf8(0));
    };
    if has_longer(&fields, LABEL_MAX) {
        return Err(CsvFault::LabelTooLong);
    }
    let labels = labels_of(alloc, &fields)?;
    if let Some(column) = repeated_column(alloc, labels.as_slice())? {
        return Err(CsvFault::RepeatedHeader(column));
    }
    let Some(name) = key else {
        return Ok(Columns { labels, key: None });
    };
    let Some(at) = column_of(labels.as_slice(), name) else {
        return Err(CsvFault::NoColumn);
    };
    Ok(Columns {
        labels,
        key: Some(at),
    })
}
