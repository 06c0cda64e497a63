ghost use Rattle.std.specs.Prelude.{◌≡◌, OnOk, IfOk, [], ◌++◌, ◌∷◌};
ghost use Rattle.std.specs.Option.{option_to_list};
ghost use Rattle.cp_lang.specs.Cuts.{Scan, scan_start, scan_bytes, rest_of};
ghost use Rattle.cp_lang.specs.CutterState.{held_of, held_cut, grow, byte_cuts, byte_held, Begins};

use crate::cut::{Cut, Mode, after, ends, is_space};
use crate::limits::STATEMENT_MAX;
use cp_path::Bytes;
use std::alloc::{AllocError, Global};
use std::marker::Model;
use std::mem;

/// Cuts input that comes in pieces into the texts of statements. Keeps the bytes since the last statement's end,
/// [`STATEMENT_MAX`] at most: of a longer text it keeps only whether it is white space alone.
#[derive(Drop)]
pub struct Cutter {
    alloc: Global,
    mode: Mode,
    text: Vec<u8>,
    blank: bool,
    long: bool,
}

impl Model for Cutter {
    ghost use Rattle.cp_lang.specs.CutterState.{CutterState};

    ghost Value = { CutterState };

    ghost view = { λ a. record { mode = a.mode; text = a.text.items; blank = a.blank; long = a.long } };
}

impl Cutter {
    /// A cutter that stands at the start of the input. Allocates nothing.
    pub fn new(alloc: Global) -> Cutter
        ensures { result ≡ held_of scan_start }
    {
        Cutter {
            alloc,
            mode: Mode::Outside,
            text: Vec::new(alloc),
            blank: true,
            long: false,
        }
    }

    /// Puts a byte that ends no statement behind the text; lets go of a text that grows too long.
    fn grow(&mut self, byte: u8) -> Result<(), AllocError>
        ensures ok { OnOk result (self.new ≡ grow self.old byte) }
    {
        self.mode = after(self.mode, byte);
        self.blank = self.blank && is_space(byte);
        if self.long {
            return Ok(());
        }
        if self.text.len() < STATEMENT_MAX {
            self.text.push(byte)?;
        } else {
            self.text = Vec::new(self.alloc);
            self.long = true;
        }
        Ok(())
    }

    /// Cuts the text out, which a byte has ended.
    fn end(&mut self) -> Option<Cut>
        ensures cut { option_to_list result ≡ held_cut self.old }
        ensures anew { self.new ≡ held_of scan_start }
    {
        let ended = mem::replace(self, Cutter::new(self.alloc));
        if ended.blank {
            return None;
        }
        if ended.long {
            return Some(Cut::TooLong);
        }
        Some(Cut::Text(Bytes { items: ended.text }))
    }

    /// Takes one byte, and gives the cut that ends with it, if one does. After an `Err` the cutter's place in the
    /// input is lost.
    pub fn push(&mut self, byte: u8) -> Result<Option<Cut>, AllocError>
        ensures ok { IfOk result (λ cut. (option_to_list cut ≡ byte_cuts self.old byte) × (self.new ≡ byte_held self.old byte)) }
    {
        if ends(self.mode, byte) {
            return Ok(self.end());
        }
        self.grow(byte)?;
        Ok(None)
    }

    /// Takes one byte, and puts the cut that ends with it behind `out`.
    fn byte(&mut self, byte: u8, out: &mut Vec<Cut>) -> Result<(), AllocError>
        ensures ok { OnOk result ((out.new.items ≡ out.old.items ++ byte_cuts self.old byte) × (self.new ≡ byte_held self.old byte)) }
        ensures front { Begins out.old.items out.new.items }
    {
        match self.push(byte)? {
            Some(cut) => {
                out.push(cut)?;
                Ok(())
            }
            None => Ok(()),
        }
    }

    /// Puts the cuts that end in this piece of the input behind `out`. Costs the piece's bytes.
    /// After an `Err` the cutter's place in the input is lost, and `out` holds some of the cuts behind what it held.
    pub fn feed(&mut self, piece: &[u8], out: &mut Vec<Cut>) -> Result<(), AllocError>
        ensures ok { OnOk result
            ((s : Scan) → self.old ≡ held_of s
            → (out.new.items ≡ out.old.items ++ (scan_bytes s piece.now).cuts) × (self.new ≡ held_of (scan_bytes s piece.now).scan)) }
        ensures front { Begins out.old.items out.new.items }
    {
        for byte in piece {
            self.byte(*byte, out)?;
        }
        Ok(())
    }

    /// What is left at the input's end, if it isn't white space alone. Allocates nothing.
    pub fn rest(self) -> Option<Cut>
        ensures { (s : Scan) → self ≡ held_of s → option_to_list result ≡ rest_of s }
    {
        if self.blank {
            return None;
        }
        if self.long {
            return Some(Cut::TooLong);
        }
        Some(Cut::Unfinished(Bytes { items: self.text }))
    }
}
