//! The statements of a drawn script.
ghost use Rattle.std.specs.Prelude.{◌≡◌, IfOk, IfSome, OnErr};
ghost use Rattle.cp_lang.specs.Written.{IsWrittenStmt};
ghost use Rattle.cp_gen.specs.Script.{GivesNext, IsOpOrCommit, script};

use crate::drawing::Drawing;
use crate::limits::COMMIT_EVERY;
use cp_lang::Stmt;
use std::alloc::{AllocError, Global};
use std::marker::Model;

/// The statements of a drawn script that are still to come.
#[derive(Drop)]
pub struct Generator {
    alloc: Global,
    drawing: Drawing,
    /// The operations that are still to come.
    left: u32,
    /// The operations since the last commit.
    pending: u32,
}

impl Model for Generator {
    ghost use Rattle.std.specs.Prelude.{◌+◌, ◌≤◌, ◌<◌, ◌^◌, List};
    ghost use Rattle.cp_lang.specs.declared.syntax_tree.Stmt.{Stmt};
    ghost use Rattle.cp_gen.specs.declared.limits.TheConstants.{COMMIT_EVERY};
    ghost use Rattle.cp_gen.specs.Operations.{operations};
    ghost use Rattle.cp_gen.specs.Script.{statements_left};

    ghost Value = { List Stmt };

    ghost view = { λ a. statements_left (operations a.left a.drawing) a.pending };

    ghost invariant = { λ a. (a.pending ≤ COMMIT_EVERY) × (a.drawing.next + a.left < 2 ^ 32) };
}

impl Generator {
    /// The script of so many operations that the seed gives.
    pub fn new(alloc: Global, seed: u64, count: u32) -> Generator
        ensures { result ≡ script seed count }
    {
        Generator {
            alloc,
            drawing: Drawing::new(alloc, seed),
            left: count,
            pending: 0,
        }
    }

    /// The next statement, or none after the last. A deletion costs the places that are listed after the deleted
    /// one. After an error the script is as it was.
    pub fn next(&mut self) -> Result<Option<Stmt>, AllocError>
        ensures gives { IfOk result (λ o. GivesNext o self.old self.new) }
        ensures written { IfOk result (λ o. IfSome o IsWrittenStmt) }
        ensures only { IfOk result (λ o. IfSome o IsOpOrCommit) }
        ensures err { OnErr result (self.new ≡ self.old) }
    {
        if self.pending == COMMIT_EVERY || (self.left == 0 && self.pending > 0) {
            self.pending = 0;
            return Ok(Some(Stmt::Commit));
        }
        if self.left == 0 {
            return Ok(None);
        }
        let op = self.drawing.next(self.alloc)?;
        self.left -= 1;
        self.pending += 1;
        Ok(Some(Stmt::Op(op)))
    }
}
