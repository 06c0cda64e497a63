use crate::literal::Literal;
use cp_path::{Label, Loc};
use std::marker::Model;

/// One of the three operations of scripts.
#[derive(Drop)]
pub enum Op {
    /// Adds the tree at the label below the place.
    Ins {
        into: Loc,
        label: Label,
        tree: Literal,
    },
    /// Removes what stands at the label below the place, and all below it.
    Del {
        label: Label,
        from: Loc,
    },
    /// Replaces the subtree at `into` by a copy of the one at `from`.
    Copy {
        from: Loc,
        into: Loc,
    },
}

/// Operations in the order of a script.
#[derive(Drop)]
pub struct OpList {
    pub items: Vec<Op>,
}

impl Model for OpList {
    ghost use Rattle.std.specs.Prelude.{List};
    ghost use Rattle.cp_model.specs.declared.op.Op.{Op};

    ghost Value = { List Op };

    ghost view = { λ a. a.items.items };
}
