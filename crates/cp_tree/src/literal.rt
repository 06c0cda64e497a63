//! The literal of a tree.
ghost use Rattle.std.specs.Prelude.{◌≡◌, true, ◌∷◌, [], IfOk};
ghost use Rattle.std.specs.declared.option.Option.TheVariants.{Some};
ghost use Rattle.cp_model.specs.History.{IsLiteral};
ghost use Rattle.cp_model.specs.Keyed.{entries, from_entries, get};
ghost use Rattle.cp_model.specs.Literals.{literal_rows};
ghost use Rattle.cp_model.specs.Subtrees.{below, is_there};
ghost use Rattle.cp_model.specs.declared.row.Content.TheVariants.{Node};

use crate::rep::TreeRep;
use cp_model::{Content, LitEdge, LitList, Literal};
use cp_path::Path;
use std::alloc::{AllocError, Global};

/// The literal that has the places of the tree. Costs each place once, with the way to it; its calls
/// nest once for each label of a path.
pub fn literal_of<R: TreeRep>(alloc: Global, tree: &R) -> Result<Literal, AllocError>
    ensures rows { IfOk result (λ l. literal_rows l ≡ entries (R.contents tree.now)) }
    ensures tree { IfOk result (λ l. from_entries (literal_rows l) ≡ R.contents tree.now) }
    ensures literal { IfOk result (λ l. IsLiteral (literal_rows l)) }
{
    Ok(literal_at(alloc, tree, &Path::root(alloc))?)
}

// The literal of the subtree at the place.
#[cycle(subtree)]
fn literal_at<R: TreeRep>(alloc: Global, tree: &R, place: &Path) -> Result<Literal, AllocError>
    requires there { is_there (R.contents tree.now) place.now ≡ true }
    ensures { IfOk result (λ l. literal_rows l ≡ below place.now (R.contents tree.now)) }
{
    match tree.content_at(alloc, place)? {
        Some(Content::Leaf(value)) => Ok(Literal::Leaf(value)),
        Some(Content::Node) => Ok(Literal::Node(edges_at(alloc, tree, place)?)),
        None => unreachable!(),
    }
}

// The edges below the node at the place.
#[cycle(subtree)]
fn edges_at<R: TreeRep>(alloc: Global, tree: &R, place: &Path) -> Result<LitList, AllocError>
    requires node { get (R.contents tree.now) place.now ≡ Some Node }
    ensures { IfOk result (λ es. ([], Node) ∷ es ≡ below place.now (R.contents tree.now)) }
{
    let labels = tree.labels_of(alloc, place)?;
    let mut items = Vec::new(alloc);
    for label in &labels {
        let below = literal_at(alloc, tree, &place.child(label)?)?;
        items.push(LitEdge {
            label: label.clone()?,
            tree: below,
        })?;
    }
    Ok(LitList { items })
}
