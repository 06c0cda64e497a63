ghost use Rattle.std.specs.Prelude.{◌≡◌};
ghost use Rattle.cp_reply.specs.Lines.{kind_text, letter_text, refused_front};

use crate::reply::Of;
use cp_model::{Kind, RecOp};

/// The word of a kind.
pub(crate) fn kind_text(kind: Kind) -> &'static str
    ensures { result.now ≡ kind_text kind }
{
    match kind {
        Kind::N => "n",
        Kind::T => "t",
        Kind::H => "h",
        Kind::HT => "ht",
    }
}

/// The letter of a record.
pub(crate) fn letter_text(op: RecOp) -> &'static str
    ensures { result.now ≡ letter_text op }
{
    match op {
        RecOp::I => "I",
        RecOp::C => "C",
        RecOp::D => "D",
        RecOp::K => "K",
    }
}

/// The front of a refusal's line.
pub(crate) fn refused_front(of: Of) -> &'static str
    ensures { result.now ≡ refused_front of }
{
    match of {
        Of::Statement => "refused: ",
        Of::Commit => "refused commit: ",
        Of::Load => "refused load: ",
        Of::Init => "refused init: ",
        Of::Scratch => "refused scratch: ",
        Of::Checkpoint => "refused checkpoint: ",
    }
}
