//! The draws of a script, and where they have led.
ghost use Rattle.std.specs.Prelude.{◌≡◌, ◌+◌, ◌<◌, ◌^◌, IfOk, OnOk, OnErr};
ghost use Rattle.cp_model.specs.History.{IsWritten};
ghost use Rattle.cp_gen.specs.Drawing.{drawn_number, next_draw};
ghost use Rattle.cp_gen.specs.Operations.{first_state, next_operation, next_state};

use crate::choice::{Choice, choose};
use crate::limits::{INCREMENT, MULTIPLIER};
use crate::operation::{follow, next_after, operation};
use cp_model::Op;
use std::alloc::{AllocError, Global};
use std::marker::Model;

/// Where a drawn script stands.
#[derive(Drop)]
pub(crate) struct Drawing {
    /// The state of the draws.
    draws: u64,
    /// The numbers of the places that are there, in the order in which they were inserted.
    there: Vec<u32>,
    /// The number of the next new place.
    next: u32,
}

impl Model for Drawing {
    ghost use Rattle.cp_gen.specs.Operations.{ScriptState};

    ghost Value = { ScriptState };

    ghost view = { λ a. record { draws = a.draws; there = a.there.items; next = a.next } };
}

/// The state after a draw: a linear congruential generator of 64 bits, with the constants of Knuth's MMIX.
#[tactic(auto, unfolding(crate::specs::Drawing::next_draw))]
fn next_draw(state: u64) -> u64
    ensures { result ≡ next_draw state }
{
    state.wrapping_mul(MULTIPLIER).wrapping_add(INCREMENT)
}

/// The number that a state gives.
#[tactic(auto, unfolding(crate::specs::Drawing::drawn_number))]
fn drawn_number(state: u64) -> usize
    ensures { result ≡ drawn_number state }
{
    (state >> 33) as usize
}

impl Drawing {
    /// Where the script of the seed begins.
    pub(crate) fn new(alloc: Global, seed: u64) -> Drawing
        ensures { result ≡ first_state seed }
    {
        Drawing {
            draws: seed,
            there: Vec::new(alloc),
            next: 0,
        }
    }

    /// Draws the next operation. A deletion costs the places that are listed after the deleted one. After an error
    /// nothing was drawn.
    pub(crate) fn next(&mut self, alloc: Global) -> Result<Op, AllocError>
        requires room { self.old.next + 1 < 2 ^ 32 }
        ensures operation { IfOk result (λ o. o ≡ next_operation self.old) }
        ensures written { IfOk result IsWritten }
        ensures ok { OnOk result (self.new ≡ next_state self.old) }
        ensures err { OnErr result (self.new ≡ self.old) }
    {
        let draws = next_draw(self.draws);
        let choice = choose(self.there.len(), drawn_number(draws));
        let op = operation(alloc, choice, self.there.as_slice(), self.next)?;
        follow(choice, &mut self.there, self.next)?;
        self.next = next_after(choice, self.next);
        self.draws = draws;
        Ok(op)
    }
}
