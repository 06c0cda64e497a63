ghost use Rattle.std.specs.Prelude.{◌≡◌};
ghost use Rattle.cp_model.specs.declared.op.Op.TheVariants.{Ins, Del, Copy};
ghost use Rattle.cp_model.specs.declared.literal.Literal.{Literal as LiteralValue};
ghost use Rattle.cp_reply.specs.Session.{why_refused};

use cp_model::{Op, Refusal};
use cp_path::{Label, Loc};
use cp_reply::{Of, Reply, Why};

/// The refusal of a statement.
pub(super) fn refused(why: Why) -> Reply
    ensures { result ≡ Reply.Refused Of.Statement why }
{
    Reply::Refused {
        of: Of::Statement,
        why,
    }
}

/// The refusal of a commit.
pub(super) fn refused_commit(why: Why) -> Reply
    ensures { result ≡ Reply.Refused Of.Commit why }
{
    Reply::Refused {
        of: Of::Commit,
        why,
    }
}

/// The refusal of a load.
pub(super) fn refused_load(why: Why) -> Reply
    ensures { result ≡ Reply.Refused Of.Load why }
{
    Reply::Refused { of: Of::Load, why }
}

/// Why a change at the label below the place is refused.
fn why_of_change(refusal: Refusal, place: Loc, label: Label) -> Why
    ensures insertion { (tree : LiteralValue)
        → result ≡ why_refused (Ins place label tree) refusal }
    ensures deletion { result ≡ why_refused (Del label place) refusal }
{
    match refusal {
        Refusal::NoPlace => Why::NoPlace(place),
        Refusal::LabelThere => Why::LabelThere(label, place),
        Refusal::NoLabel => Why::NoLabel(label, place),
        Refusal::NotANode => Why::NotANode(place),
        Refusal::ReadOnly => Why::ReadOnly(place),
        Refusal::NoSource => Why::NoSource(place.db),
        Refusal::NoOrigin => Why::NoOrigin(place),
        Refusal::TooDeep => Why::TooDeep,
        Refusal::TooMany => Why::TooMany,
        Refusal::TooBig => Why::TooBig,
        Refusal::TooManyOps => Why::TooManyOps,
    }
}

/// Why a copy is refused.
fn why_of_copy(refusal: Refusal, from: Loc, into: Loc) -> Why
    ensures { result ≡ why_refused (Copy from into) refusal }
{
    match refusal {
        Refusal::NoPlace | Refusal::LabelThere | Refusal::NoLabel => Why::NoPlace(into),
        Refusal::NotANode => Why::NotANode(into),
        Refusal::ReadOnly => Why::ReadOnly(into),
        Refusal::NoSource => Why::NoSource(from.db),
        Refusal::NoOrigin => Why::NoOrigin(from),
        Refusal::TooDeep => Why::TooDeep,
        Refusal::TooMany => Why::TooMany,
        Refusal::TooBig => Why::TooBig,
        Refusal::TooManyOps => Why::TooManyOps,
    }
}

/// Why an operation is refused.
pub(super) fn why_of(op: Op, refusal: Refusal) -> Why
    ensures { result ≡ why_refused op refusal }
{
    match op {
        Op::Ins { into, label, .. } => why_of_change(refusal, into, label),
        Op::Del { label, from } => why_of_change(refusal, from, label),
        Op::Copy { from, into } => why_of_copy(refusal, from, into),
    }
}
