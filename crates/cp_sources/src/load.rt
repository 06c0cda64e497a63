ghost use Rattle.std.specs.Prelude.{◌≡◌, ◌<◌, [], false, true, IfOk, OnOk};
ghost use Rattle.std.specs.Result.{result_map_both};
ghost use Rattle.std.specs.declared.option.Option.TheVariants.{Some};
ghost use Rattle.cp_path.specs.Answers.{Answers};
ghost use Rattle.csv.specs.Records.{fields_of};
ghost use Rattle.cp_model.specs.Keyed.{get, len};
ghost use Rattle.cp_model.specs.Place.{Path, over_limit, option_map};
ghost use Rattle.cp_model.specs.Subtrees.{is_there};
ghost use Rattle.cp_model.specs.declared.row.Content.TheVariants.{Node};
ghost use Rattle.cp_sources.specs.CsvTrees.{csv_tree, records_tree, row_fault, row_label, rows_tree, with_row};
ghost use Rattle.cp_sources.specs.Steps.{IsColumns, IsOpen, IsShallow, TellsRefusal, key_of, records_left};

use crate::columns::{Columns, columns_of};
use crate::csv_fault::CsvFault;
use crate::place::put_row;
use crate::records::{next_record, records_of};
use crate::row::row_of;
use cp_model::Content;
use cp_path::{Label, Name};
use cp_tree::TreeRep;
use csv::{ByteRecord, ByteRecordsIntoIter};
use std::alloc::Global;

/// Puts the record into the tree as the row of this number, if it is fit. Costs a search for each field.
fn add_row<R: TreeRep>(
    alloc: Global,
    columns: &Columns,
    number: u64,
    raw: ByteRecord,
    tree: &mut R,
) -> Result<(), CsvFault>
    requires columns { IsColumns columns.now.labels.items columns.now.key }
    requires root { get (R.contents tree.old) [] ≡ Some Node }
    requires shallow { IsShallow (R.contents tree.old) }
    ensures put { OnOk result (R.contents tree.new ≡ with_row (row_label columns.now.labels.items (key_of columns.now.labels.items columns.now.key) number (fields_of raw)) columns.now.labels.items (fields_of raw) (R.contents tree.old)) }
    ensures told { TellsRefusal result (row_fault columns.now.labels.items (key_of columns.now.labels.items columns.now.key) number (fields_of raw) (R.contents tree.old)) }
    ensures root { OnOk result (get (R.contents tree.new) [] ≡ Some Node) }
    ensures grows { OnOk result (len (R.contents tree.old) < len (R.contents tree.new)) }
    ensures shallow { OnOk result (IsShallow (R.contents tree.new)) }
{
    let row = row_of(alloc, columns, number, raw)?;
    put_row(alloc, columns, number, &row, tree)?;
    Ok(())
}

/// Puts the rows into the tree one after the other.
fn put_rows<R: TreeRep>(
    alloc: Global,
    columns: &Columns,
    records: &mut ByteRecordsIntoIter<&[u8]>,
    tree: &mut R,
) -> Result<(), CsvFault>
    requires open { IsOpen records.old }
    requires columns { IsColumns columns.now.labels.items columns.now.key }
    requires root { get (R.contents tree.old) [] ≡ Some Node }
    requires shallow { IsShallow (R.contents tree.old) }
    ensures answers { let key = key_of columns.now.labels.items columns.now.key in
        let defined = rows_tree columns.now.labels.items key 1 (records_left records.old) (R.contents tree.old) in
        Answers CsvFault.Memory defined (result_map_both (λ _. R.contents tree.new) (λ e. e) result) }
    ensures shallow { OnOk result (IsShallow (R.contents tree.new)) }
{
    let mut number = 0;
    while let Some(raw) = next_record(records)? {
        let _nodes = tree.count();
        number += 1;
        add_row(alloc, columns, number, raw, tree)?;
    }
    Ok(())
}

/// The tree of the records that are left, of which the first is the header. Costs for each field a search among the rows and
/// the headers.
fn tree_of_records<R: TreeRep>(
    alloc: Global,
    records: &mut ByteRecordsIntoIter<&[u8]>,
    key: Option<&Label>,
) -> Result<R, CsvFault>
    requires open { IsOpen records.old }
    ensures answers { let defined = records_tree (records_left records.old) (option_map (λ k. k.now) key.entry) in
        Answers CsvFault.Memory defined (result_map_both R.contents (λ e. e) result) }
    ensures shallow { IfOk result (λ t. IsShallow (R.contents t)) }
{
    let header = match next_record(records)? {
        Some(header) => header,
        None => return Err(CsvFault::NoHeader),
    };
    let columns = columns_of(alloc, header, key)?;
    let mut tree = R::single(alloc, &Content::Node)?;
    put_rows(alloc, &columns, records, &mut tree)?;
    Ok(tree)
}

/// Reads the tree of a CSV text that is loaded under `name`, its rows named by the key column, or else numbered. The
/// first record is the header, and each later one a row below the root, with its fields as texts under their headers.
/// A text that can't be read because memory runs out is refused with `Memory`, and so would be one whose reader fails,
/// which a slice never does. Costs the text's bytes, and for each field a search among the rows and the headers.
pub fn tree_of_csv<R: TreeRep>(
    alloc: Global,
    name: &Name,
    bytes: &[u8],
    key: Option<&Label>,
) -> Result<R, CsvFault>
    ensures answers { let defined = csv_tree bytes.now (option_map (λ k. k.now) key.entry) in
        Answers CsvFault.Memory defined (result_map_both R.contents (λ e. e) result) }
    ensures places { IfOk result (λ t. (p : Path) → is_there (R.contents t) p ≡ true → over_limit (record { db = name.now; path = p }) ≡ false) }
{
    let _short = name.as_str();
    tree_of_records(alloc, &mut records_of(alloc, bytes), key)
}
