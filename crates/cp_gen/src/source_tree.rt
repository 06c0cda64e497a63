//! The source that drawn scripts copy from.
ghost use Rattle.std.specs.Prelude.{◌≡◌, ◌<◌, pos, [], ◌∷◌, length, IfOk};
ghost use Rattle.cp_path.specs.declared.value.Value.TheVariants as value;
ghost use Rattle.cp_model.specs.Literals.{edge_rows, literal_rows};
ghost use Rattle.cp_model.specs.declared.literal.Literal.TheVariants as literal;
ghost use Rattle.cp_gen.specs.Source.{node_rows, source_label, source_name, source_rows, source_tree};

use crate::limits::SOURCE_NODES;
use cp_model::{LitEdge, LitList, Literal};
use cp_path::{Label, Name, PathFault, Value, Whole};
use cp_tree::{TreeRep, tree_of};
use std::alloc::{AllocError, Global};

/// The name of the source.
pub fn source_name(alloc: Global) -> Result<Name, AllocError>
    ensures { IfOk result (λ n. n ≡ source_name) }
{
    match Name::read(alloc, "G") {
        Ok(name) => Ok(name),
        Err(PathFault::Memory) => Err(AllocError),
        Err(_) => unreachable!(),
    }
}

/// The label of the node with this number.
pub(crate) fn source_label(alloc: Global, number: u64) -> Result<Label, AllocError>
    ensures { IfOk result (λ a. a ≡ source_label number) }
{
    let text = format!(in alloc; "g{number}")?;
    Label::copy_of(alloc, text.as_str())
}

/// A leaf with this number.
fn leaf(alloc: Global, label: &str, number: u64) -> Result<LitEdge, AllocError>
    requires short { length label.now < 256 }
    ensures label { IfOk result (λ e. e.label ≡ label.now) }
    ensures tree { IfOk result (λ e. e.tree ≡ literal.Leaf (value.Whole (pos number))) }
{
    let label = Label::copy_of(alloc, label)?;
    let tree = Literal::Leaf(Value::Whole(Whole::from(number)));
    Ok(LitEdge { label, tree })
}

/// The node with this number.
fn node(alloc: Global, number: u64) -> Result<LitEdge, AllocError>
    requires small { number < SOURCE_NODES }
    ensures { IfOk result (λ e. edge_rows (e ∷ []) ≡ node_rows number) }
{
    let mut items = Vec::new(alloc);
    items.push(leaf(alloc, "a", number)?)?;
    items.push(leaf(alloc, "b", number * number)?)?;
    let tree = Literal::Node(LitList { items });
    let label = source_label(alloc, number)?;
    Ok(LitEdge { label, tree })
}

/// The source as a literal.
fn literal(alloc: Global) -> Result<Literal, AllocError>
    ensures { IfOk result (λ l. literal_rows l ≡ source_rows) }
{
    let mut items = Vec::new(alloc);
    for number in 0..SOURCE_NODES {
        items.push(node(alloc, number)?)?;
    }
    Ok(Literal::Node(LitList { items }))
}

/// The source that scripts copy from: `g0` to `g9`, each with its number as `a` and the number times itself as `b`.
pub fn source<S: TreeRep>(alloc: Global) -> Result<S, AllocError>
    ensures { IfOk result (λ s. S.contents s ≡ source_tree) }
{
    tree_of(alloc, &literal(alloc)?)
}
