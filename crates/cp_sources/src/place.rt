ghost use Rattle.std.specs.Prelude.{◌≡◌, ◌≤◌, ◌<◌, ◌+◌, ◌*◌, [], ◌∷◌, length, true, false, IfOk, OnOk};
ghost use Rattle.std.specs.List.{list_any};
ghost use Rattle.std.specs.declared.option.Option.TheVariants.{None, Some};
ghost use Rattle.csv.specs.Records.{fields_of};
ghost use Rattle.cp_path.specs.declared.value.Value.TheVariants as value;
ghost use Rattle.cp_model.specs.declared.row.Content.TheVariants.{Node, Leaf};
ghost use Rattle.cp_model.specs.Keyed.{get, len};
ghost use Rattle.cp_model.specs.Tree.{weight};
ghost use Rattle.cp_sources.specs.CsvTrees.{is_long_label, is_long_text, with_fields, with_row, tree_fault};
ghost use Rattle.cp_sources.specs.Steps.{IsEmptyRow, IsColumns, TellsRefusal, fields_weight};

use crate::columns::Columns;
use crate::csv_fault::CsvFault;
use crate::row::Row;
use cp_model::{Content, NODES_MAX, PLACE_WEIGHT, WEIGHT_MAX};
use cp_path::{LABEL_MAX, Path, TEXT_MAX, Text, Value};
use cp_tree::TreeRep;
use std::alloc::{AllocError, Global};

/// A leaf with this text. Costs its bytes.
fn leaf_of(alloc: Global, text: &str) -> Result<Content, AllocError>
    ensures { IfOk result (λ c. c ≡ Leaf (value.Text text.now)) }
{
    let text = Text::copy_of(alloc, text)?;
    Ok(Content::Leaf(Value::Text(text)))
}

/// What the fields of the row weigh below it.
fn fields_weight(columns: &Columns, row: &Row) -> u64
    requires few { length columns.now.labels.items < NODES_MAX }
    requires even { length (fields_of row.now.fields) ≡ length columns.now.labels.items }
    requires texts { list_any is_long_text (fields_of row.now.fields) ≡ false }
    ensures weight { result ≡ fields_weight columns.now.labels.items (fields_of row.now.fields) }
    ensures bound { result ≤ length columns.now.labels.items * (PLACE_WEIGHT + LABEL_MAX + TEXT_MAX) }
{
    let mut weight = 0;
    let mut texts = row.fields.iter();
    for label in &columns.labels {
        match texts.next() {
            Some(text) => weight += PLACE_WEIGHT + label.as_str().len() as u64 + text.len() as u64,
            None => unreachable!(),
        }
    }
    weight
}

/// Puts each field under its header below the row's node, which is there. Costs a search among siblings for each.
fn put_fields<R: TreeRep>(
    alloc: Global,
    columns: &Columns,
    row: &Row,
    tree: &mut R,
) -> Result<(), AllocError>
    requires short { length row.now.label ≤ LABEL_MAX }
    requires headers { list_any is_long_label columns.now.labels.items ≡ false }
    requires bare { IsEmptyRow (R.contents tree.old) row.now.label columns.now.labels.items }
    requires even { length (fields_of row.now.fields) ≡ length columns.now.labels.items }
    requires texts { list_any is_long_text (fields_of row.now.fields) ≡ false }
    requires few { len (R.contents tree.old) + length columns.now.labels.items ≤ NODES_MAX }
    requires light { weight (R.contents tree.old) + fields_weight columns.now.labels.items (fields_of row.now.fields) ≤ WEIGHT_MAX }
    ensures put { OnOk result (R.contents tree.new ≡ with_fields row.now.label columns.now.labels.items (fields_of row.now.fields) (R.contents tree.old)) }
{
    let place = Path::root(alloc).child(&row.label)?;
    let mut texts = row.fields.iter();
    for label in &columns.labels {
        match texts.next() {
            Some(text) => tree.insert_leaf(alloc, &place, label, &leaf_of(alloc, text)?)?,
            None => unreachable!(),
        }
    }
    Ok(())
}

/// Puts the row of this number into the tree, if it is fit. Costs a search for each field.
pub(crate) fn put_row<R: TreeRep>(
    alloc: Global,
    columns: &Columns,
    number: u64,
    row: &Row,
    tree: &mut R,
) -> Result<(), CsvFault>
    requires columns { IsColumns columns.now.labels.items columns.now.key }
    requires root { get (R.contents tree.old) [] ≡ Some Node }
    requires even { length (fields_of row.now.fields) ≡ length columns.now.labels.items }
    requires texts { list_any is_long_text (fields_of row.now.fields) ≡ false }
    ensures put { OnOk result (R.contents tree.new ≡ with_row row.now.label columns.now.labels.items (fields_of row.now.fields) (R.contents tree.old)) }
    ensures told { TellsRefusal result (tree_fault row.now.label columns.now.labels.items number (fields_of row.now.fields) (R.contents tree.old)) }
{
    let root = Path::root(alloc);
    if tree.has_child(&root, &row.label) {
        return Err(CsvFault::RepeatedKey(number));
    }
    if columns.labels.len() as u64 >= u64::from(NODES_MAX - tree.count()) {
        return Err(CsvFault::TooMany);
    }
    let weight = PLACE_WEIGHT + row.label.as_str().len() as u64 + fields_weight(columns, row);
    if weight > WEIGHT_MAX - tree.weight() {
        return Err(CsvFault::TooBig);
    }
    tree.insert_leaf(alloc, &root, &row.label, &Content::Node)?;
    put_fields(alloc, columns, row, tree)?;
    Ok(())
}
