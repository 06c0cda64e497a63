use cp_model::{Form, Op, Query};
use cp_path::{Loc, Name, PathFault, Text};
use std::alloc::{AllocError, AllocFailed};
use thiserror::Error;

/// A source file that is to be loaded under a name.
#[derive(Drop)]
pub struct Load {
    pub name: Name,
    pub form: Form,
    pub file: Text,
}

/// A statement.
#[derive(Drop)]
pub enum Stmt {
    Op(Op),
    Commit,
    Abort,
    Load(Load),
    Ask(Query),
    /// What stands at and below a place of any database.
    Show(Loc),
}

/// Why a text is no statement. Offsets count from the text's first byte.
#[derive(Clone, Copy, Debug, Drop, Error)]
pub enum StmtFault {
    /// The first token that can't stand, or the text's end.
    #[error("syntax at {0}")]
    Syntax(usize),
    /// A token that reads as no place, label or value.
    #[error("{1} in the token at {0}")]
    Place(usize, PathFault),
    #[error("out of memory")]
    Memory,
}

impl From<AllocError> for StmtFault {
    ghost use Rattle.std.specs.Prelude.{◌≡◌};
    ghost use Rattle.cp_lang.specs.declared.syntax_tree.StmtFault.TheVariants.{Memory};

    ghost from_gives = { λ _ fault. fault ≡ Memory };

    fn from(_refused: AllocError) -> StmtFault {
        StmtFault::Memory
    }
}

impl<T: Drop> From<AllocFailed<T>> for StmtFault {
    ghost use Rattle.std.specs.Prelude.{◌≡◌};
    ghost use Rattle.cp_lang.specs.declared.syntax_tree.StmtFault.TheVariants.{Memory};

    ghost from_gives = { λ _ fault. fault ≡ Memory };

    fn from(_refused: AllocFailed<T>) -> StmtFault {
        StmtFault::Memory
    }
}
