//! Cases as data: reads files of them, and has a player play each.
//!
//! A program that plays cases gives a `Player`, one more for the files of the folder `tables`, and
//! the words it was called with: the stage of the program up to which cases hold, a number, and the
//! names of files. These are files of cases in the form that `sheet` tells, documents with examples,
//! which end in `.md`, and scripts, which end in `.cpdb` and have beside them, ending in `.out`, what
//! they write.
#![tactic(auto)]

mod document;
mod escape;
mod hex;
mod player;
mod sheet;
mod words;

pub use hex::{bytes_in, hex_of};
pub use player::{Player, play_files};
pub use sheet::Step;
pub use words::{compare, line_of, number_of, numbers_of, words_of};
