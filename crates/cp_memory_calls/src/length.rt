//! The bytes of operations in a commit's entry.
ghost use Rattle.std.specs.Prelude.{◌≤◌, sum_by, IsTrue};
ghost use Rattle.cp_model.specs.Literals.{literal_rows};
ghost use Rattle.cp_model.specs.Tree.{text_bytes, weight_of};
ghost use Rattle.cp_model.specs.declared.row.Content.TheVariants.{Leaf};
ghost use Rattle.cp_record.specs.Packed.{IsSmall};

use crate::fault::Fault;
use crate::row::add_line;
use cp_lang::{Stmt, parse};
use cp_model::{Literal, Op, WEIGHT_MAX};
use cp_path::{TEXT_MAX, Value};
use cp_record::op_length;
use std::alloc::Global;

/// Whether a value's text, if it is one, is within the limit.
fn is_short(value: &Value) -> bool
    ensures { IsTrue result → text_bytes (Leaf value.now) ≤ TEXT_MAX }
{
    match value {
        Value::Text(text) => text.items.as_str().len() <= TEXT_MAX,
        _ => true,
    }
}

/// Whether a tree is a root alone.
fn is_root(tree: &Literal) -> bool
    ensures { IsTrue result → sum_by weight_of (literal_rows tree.now) ≤ WEIGHT_MAX }
{
    match tree {
        Literal::Leaf(value) => is_short(value),
        Literal::Node(list) => list.items.is_empty(),
    }
}

/// Whether an operation inserts no places below a root.
fn is_small(op: &Op) -> bool
    ensures { IsTrue result → IsSmall op.now }
{
    match op {
        Op::Ins { tree, .. } => is_root(tree),
        Op::Del { .. } | Op::Copy { .. } => true,
    }
}

/// The bytes of the operation that a statement is; `None` where it is none, or inserts places below a root.
fn length_of(stmt: &Stmt) -> Option<u64> {
    match stmt {
        Stmt::Op(op) if is_small(op) => Some(op_length(op)),
        _ => None,
    }
}

/// Adds the bytes of the operation that a text is.
pub(crate) fn add_length(alloc: Global, text: &str, lines: &mut String) -> Result<(), Fault> {
    let stmt = parse(alloc, text)?;
    let bytes = length_of(&stmt);
    drop(stmt);
    let Some(bytes) = bytes else {
        return Err(Fault::Operation);
    };
    let line = format!(in alloc; "{bytes} bytes")?;
    add_line(lines, line.as_str())?;
    Ok(())
}
