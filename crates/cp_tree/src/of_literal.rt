//! The tree of a literal.
ghost use Rattle.std.specs.Prelude.{◌≡◌, ◌∷◌, [], IfOk};
ghost use Rattle.cp_model.specs.History.{IsLiteral};
ghost use Rattle.cp_model.specs.Keyed.{from_entries};
ghost use Rattle.cp_model.specs.Literals.{literal_rows};
ghost use Rattle.cp_model.specs.Tree.{IsTree};
ghost use Rattle.cp_model.specs.declared.row.Content.TheVariants.{Node};

use crate::build::insert_tree;
use crate::rep::TreeRep;
use cp_model::{Content, LitList, Literal};
use cp_path::Path;
use std::alloc::{AllocError, Global};

/// The tree of a literal. Costs each place once, with the way to it; of the rows those of one child
/// of the root at a time are in memory.
pub fn tree_of<R: TreeRep>(alloc: Global, literal: &Literal) -> Result<R, AllocError>
    requires literal { IsLiteral (literal_rows literal.now) }
    requires tree { IsTree (from_entries (literal_rows literal.now)) }
    ensures { IfOk result (λ t. R.contents t ≡ from_entries (literal_rows literal.now)) }
{
    match literal {
        Literal::Leaf(value) => R::single(alloc, &Content::Leaf(value.clone()?)),
        Literal::Node(below) => tree_below(alloc, below),
    }
}

// The tree of a node and what is below it.
fn tree_below<R: TreeRep>(alloc: Global, below: &LitList) -> Result<R, AllocError>
    requires literal { IsLiteral (([], Node) ∷ below.now) }
    requires tree { IsTree (from_entries (([], Node) ∷ below.now)) }
    ensures { IfOk result (λ t. R.contents t ≡ from_entries (([], Node) ∷ below.now)) }
{
    let root = Path::root(alloc);
    let mut tree = R::single(alloc, &Content::Node)?;
    for edge in &below.items {
        insert_tree(alloc, &mut tree, &root, &edge.label, &edge.tree)?;
    }
    Ok(tree)
}
