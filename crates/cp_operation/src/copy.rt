ghost use Rattle.std.specs.Prelude.{◌≡◌, ◌∷◌, ◌++◌, [], IfOk, OnOk};
ghost use Rattle.cp_model.specs.declared.op.Op.TheVariants.{Ins, Del, Copy};

use cp_model::{LitEdge, LitList, Literal, Op};
use cp_path::{Label, Loc};
use std::alloc::{AllocError, Global};

/// An equal operation. Its only error is that memory runs out. Costs its places and what it inserts, and goes one call deeper for
/// each level of that.
pub fn copy_op(alloc: Global, op: &Op) -> Result<Op, AllocError>
    ensures { IfOk result (λ o. o ≡ op.now) }
{
    match op {
        Op::Ins { into, label, tree } => copy_insertion(alloc, into, label, tree),
        Op::Del { label, from } => copy_deletion(label, from),
        Op::Copy { from, into } => copy_of_copy(from, into),
    }
}

/// An equal insertion.
fn copy_insertion(
    alloc: Global,
    into: &Loc,
    label: &Label,
    tree: &Literal,
) -> Result<Op, AllocError>
    ensures { IfOk result (λ o. o ≡ Ins into.now label.now tree.now) }
{
    Ok(Op::Ins {
        into: into.clone()?,
        label: label.clone()?,
        tree: copy_literal(alloc, tree)?,
    })
}

/// An equal deletion.
fn copy_deletion(label: &Label, from: &Loc) -> Result<Op, AllocError>
    ensures { IfOk result (λ o. o ≡ Del label.now from.now) }
{
    Ok(Op::Del {
        label: label.clone()?,
        from: from.clone()?,
    })
}

/// An equal copy.
fn copy_of_copy(from: &Loc, into: &Loc) -> Result<Op, AllocError>
    ensures { IfOk result (λ o. o ≡ Copy from.now into.now) }
{
    Ok(Op::Copy {
        from: from.clone()?,
        into: into.clone()?,
    })
}

/// An equal literal. Goes one call deeper for each of its levels.
#[cycle(copying)]
fn copy_literal(alloc: Global, literal: &Literal) -> Result<Literal, AllocError>
    ensures { IfOk result (λ l. l ≡ literal.now) }
{
    match literal {
        Literal::Leaf(value) => Ok(Literal::Leaf(value.clone()?)),
        Literal::Node(below) => Ok(Literal::Node(copy_edges(alloc, below)?)),
    }
}

#[cycle(copying)]
fn copy_edges(alloc: Global, below: &LitList) -> Result<LitList, AllocError>
    ensures { IfOk result (λ l. l ≡ below.now) }
{
    let mut items = Vec::new(alloc);
    for edge in &below.items {
        push_edge(&mut items, edge, copy_literal(alloc, &edge.tree))?;
    }
    Ok(LitList { items })
}

/// Appends an equal edge, whose tree is this copy, unless it couldn't be made.
fn push_edge(
    items: &mut Vec<LitEdge>,
    edge: &LitEdge,
    tree: Result<Literal, AllocError>,
) -> Result<(), AllocError>
    requires copied { IfOk tree (λ l. l ≡ edge.now.tree) }
    ensures { OnOk result (items.new.items ≡ items.old.items ++ edge.now ∷ []) }
{
    let tree = tree?;
    let label = edge.label.clone()?;
    items.push(LitEdge { label, tree })?;
    Ok(())
}
