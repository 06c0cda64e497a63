//! The operation of a choice, and what it does to the list of places.
ghost use Rattle.std.specs.Prelude.{◌≡◌, ◌≤◌, ◌+◌, [], ◌∷◌, length, IfOk, OnOk, OnErr};
ghost use Rattle.cp_model.specs.History.{IsWritten};
ghost use Rattle.cp_path.specs.Place.{at_target};
ghost use Rattle.cp_gen.specs.Choices.{HasPositions};
ghost use Rattle.cp_gen.specs.Source.{at_source, source_label};
ghost use Rattle.cp_gen.specs.Operations.{insertion, next_after, chosen_op, place_label, there_after};

use crate::choice::Choice;
use crate::source_tree::{source_label, source_name};
use cp_model::{LitList, Literal, Op};
use cp_path::{Label, Loc, Path};
use std::alloc::{AllocError, Global};

/// The label of the place with this number.
fn place_label(alloc: Global, number: u32) -> Result<Label, AllocError>
    ensures { IfOk result (λ a. a ≡ place_label number) }
{
    let text = format!(in alloc; "e{number}")?;
    Label::copy_of(alloc, text.as_str())
}

/// The place with this number.
fn place_at(alloc: Global, number: u32) -> Result<Loc, AllocError>
    ensures { IfOk result (λ q. q ≡ at_target (place_label number ∷ [])) }
{
    let Loc { db, path } = Loc::target(alloc)?;
    let path = path.child(&place_label(alloc, number)?)?;
    Ok(Loc { db, path })
}

/// The node of the source with this number.
fn node_at(alloc: Global, number: u64) -> Result<Loc, AllocError>
    ensures { IfOk result (λ q. q ≡ at_source (source_label number ∷ [])) }
{
    let db = source_name(alloc)?;
    let path = Path::root(alloc).child(&source_label(alloc, number)?)?;
    Ok(Loc { db, path })
}

/// The insertion of a place with this number.
fn insertion(alloc: Global, number: u32) -> Result<Op, AllocError>
    ensures operation { IfOk result (λ o. o ≡ insertion number) }
    ensures written { IfOk result IsWritten }
{
    let into = Loc::target(alloc)?;
    let label = place_label(alloc, number)?;
    let items = Vec::new(alloc);
    let tree = Literal::Node(LitList { items });
    Ok(Op::Ins { into, label, tree })
}

/// The operation of the choice, where these places are there and `next` is the next new number.
pub(crate) fn operation(
    alloc: Global,
    choice: Choice,
    there: &[u32],
    next: u32,
) -> Result<Op, AllocError>
    requires within { HasPositions choice (length there.now) }
    ensures operation { IfOk result (λ o. o ≡ chosen_op choice there.now next) }
    ensures written { IfOk result IsWritten }
{
    match choice {
        Choice::Insert => insertion(alloc, next),
        Choice::CopyIn { node, into } => {
            let from = node_at(alloc, node)?;
            let into = place_at(alloc, there[into])?;
            Ok(Op::Copy { from, into })
        }
        Choice::CopyInside { from, into } => {
            let from = place_at(alloc, there[from])?;
            let into = place_at(alloc, there[into])?;
            Ok(Op::Copy { from, into })
        }
        Choice::Delete { at } => {
            let label = place_label(alloc, there[at])?;
            let from = Loc::target(alloc)?;
            Ok(Op::Del { label, from })
        }
    }
}

/// Makes the list of places that of the places after the choice. A deletion costs the places listed after it.
/// After an error the list is as it was.
pub(crate) fn follow(choice: Choice, there: &mut Vec<u32>, next: u32) -> Result<(), AllocError>
    requires within { HasPositions choice (length there.old.items) }
    ensures ok { OnOk result (there.new.items ≡ there_after choice there.old.items next) }
    ensures err { OnErr result (there.new.items ≡ there.old.items) }
{
    match choice {
        Choice::Insert => there.push(next)?,
        Choice::Delete { at } => {
            let _gone = there.remove(at);
        }
        Choice::CopyIn { .. } | Choice::CopyInside { .. } => {}
    }
    Ok(())
}

/// The next new number after the choice.
pub(crate) fn next_after(choice: Choice, next: u32) -> u32
    requires room { next + 1 ≤ u32.MAX }
    ensures next { result ≡ next_after choice next }
    ensures bound { result ≤ next + 1 }
{
    match choice {
        Choice::Insert => next + 1,
        _ => next,
    }
}
