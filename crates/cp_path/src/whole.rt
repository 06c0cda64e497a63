ghost use Rattle.std.specs.Prelude.{◌≡◌, ◌↔◌, ℤ, IsSome, IfSome};
ghost use Rattle.cp_path.specs.Whole.{IsWhole};

use std::marker::Model;

/// A whole number from -2^63 to 2^64-1.
#[derive(Clone, Copy, PartialEq, Eq)]
pub struct Whole {
    number: i128,
}

impl Model for Whole {
    ghost use Rattle.std.specs.Prelude.{ℤ};
    ghost use Rattle.cp_path.specs.Whole.{IsWhole};

    ghost Value = { ℤ };

    ghost view = { λ a. a.number };

    ghost invariant = { λ a. IsWhole a.number };

    ghost inverse = { λ n. record { number = n } };
}

impl Whole {
    /// The number, unless it is out of the range.
    pub fn new(n: i128) -> Option<Whole>
        ensures some { IsSome result ↔ IsWhole n }
        ensures value { IfSome result (λ w. w ≡ n) }
    {
        if n < -0x8000_0000_0000_0000 || n > 0xffff_ffff_ffff_ffff {
            None
        } else {
            Some(Whole { number: n })
        }
    }

    pub fn get(&self) -> i128
        ensures number { result ≡ self.now }
        ensures range { IsWhole self.now }
    {
        self.number
    }
}

impl From<u64> for Whole {
    ghost use Rattle.std.specs.Prelude.{◌≡◌, pos};

    ghost from_gives = { λ n w. w ≡ pos n };

    fn from(n: u64) -> Whole {
        Whole { number: n as i128 }
    }
}
