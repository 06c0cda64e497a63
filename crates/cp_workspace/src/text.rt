//! What a text says.
ghost use Rattle.std.specs.Prelude.{IfOk};
ghost use Rattle.cp_workspace.specs.Texts.{SaysAs};

use cp_lang::{Stmt, StmtFault, parse_bytes};
use cp_reply::Why;
use std::alloc::{AllocError, Global};

/// What a text says: a statement, or why it is refused. Costs the text's bytes.
#[tactic(auto, using(crate::proofs::Readings::says_ok))]
pub(crate) fn read(alloc: Global, text: &[u8]) -> Result<Result<Stmt, Why>, AllocError>
    ensures { IfOk result (λ r. SaysAs text.now r) }
{
    match parse_bytes(alloc, text) {
        Ok(statement) => Ok(Ok(statement)),
        Err(StmtFault::Syntax(at)) => Ok(Err(Why::Syntax(at))),
        Err(StmtFault::Place(at, fault)) => Ok(Err(Why::Place(at, fault))),
        Err(StmtFault::Memory) => Err(AllocError),
    }
}
