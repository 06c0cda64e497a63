//! What a drawn number chooses.
ghost use Rattle.std.specs.Prelude.{◌≡◌};
ghost use Rattle.cp_gen.specs.Choices.{HasPositions, choice};

use crate::limits::{FEW_PLACES, SOURCE_NODES};

/// What an operation of a drawn script does. Places are named by their positions in the list of those that are there.
#[derive(Clone, Copy, Drop)]
pub(crate) enum Choice {
    /// A new place is inserted.
    Insert,
    /// A place becomes a copy of a node of the source.
    CopyIn { node: u64, into: usize },
    /// A place becomes a copy of another, or of itself.
    CopyInside { from: usize, into: usize },
    /// A place is deleted.
    Delete { at: usize },
}

/// What the number chooses where so many places are there.
#[tactic(auto, unfolding(crate::specs::Choices::choice))]
pub(crate) fn choose(count: usize, number: usize) -> Choice
    ensures choice { result ≡ choice count number }
    ensures within { HasPositions result count }
{
    if count < FEW_PLACES || number % 4 == 0 {
        return Choice::Insert;
    }
    match number % 4 {
        1 => Choice::CopyIn {
            node: (number / 4) as u64 % SOURCE_NODES,
            into: number / 64 % count,
        },
        2 => Choice::CopyInside {
            from: number / 4 % count,
            into: number / 65_536 % count,
        },
        _ => Choice::Delete {
            at: number / 4 % count,
        },
    }
}
