//! Reduced records from full ones.
ghost use Rattle.std.specs.Prelude.{◌≡◌, ℕ, List, IfOk};
ghost use Rattle.std.specs.Option.{option_copied};
ghost use Rattle.std.specs.declared.option.Option.TheVariants.{None};
ghost use Rattle.std.specs.List.{find};
ghost use Rattle.cp_model.specs.Place.{place_eq};
ghost use Rattle.cp_model.specs.declared.op.Op.{Op};
ghost use Rattle.cp_model.specs.Tree.{Tree, Source, IsTree, refusal};
ghost use Rattle.cp_model.specs.Step.{open_tree, apply_op};
ghost use Rattle.cp_model.specs.Rows.{full_rows, reduced_rows};
ghost use Rattle.cp_model.specs.History.{IsWritten, with_tid};
ghost use Rattle.cp_model.specs.Laws.{AreSources};
ghost use Rattle.cp_reduce.specs.Written.{written_by};

use cp_model::{Record, RecordList};
use cp_path::Loc;
use std::alloc::{AllocError, Global};

/// The reduced records of a step of one operation from its full ones; `written` is the place that the operation wrote. Costs
/// the records.
pub fn reduce(alloc: Global, rows: &[Record], written: &Loc) -> Result<RecordList, AllocError>
    ensures { (ss : List Source) (t : Tree) (op : Op) (n : ℕ) → AreSources ss → IsTree t → IsWritten op → refusal ss t op ≡ None → written.now ≡ written_by op
        → rows.now ≡ with_tid n (full_rows t (apply_op ss (open_tree t) op)) → IfOk result (λ l. l ≡ with_tid n (reduced_rows t (apply_op ss (open_tree t) op))) }
{
    let mut items = Vec::new(alloc);
    if let Some(row) = row_of(rows, written) {
        items.push(copy_of(row)?)?;
    }
    Ok(RecordList { items })
}

/// A copy of a record. Costs its places' sizes.
fn copy_of(row: &Record) -> Result<Record, AllocError>
    ensures { IfOk result (λ r. r ≡ row.now) }
{
    row.clone()
}

/// The first record of a place. Costs the records before it.
fn row_of<'a>(rows: &'a [Record], place: &Loc) -> Option<&'a Record>
    ensures { option_copied result ≡ find (λ r. place_eq r.loc place.now) rows.now }
{
    rows.iter().find(|row| row.loc == *place)
}
