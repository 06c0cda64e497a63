//! What the program replies to a statement or a command, and the lines of each reply.
//!
//! The lines stand in `specs/Lines.antt`. What each cut of a whole session's input brings, from the statements to the lines of
//! the replies, stands in `specs/Session.antt`, so that the program and the crates above cite one text.
#![tactic(auto)]

mod answer;
mod examples;
mod places;
mod record;
mod refusal;
mod reply;
mod said;
mod stated;
mod tree;
mod word;
mod write;

pub use examples::worked_examples;
pub use record::record_text;
pub use reply::{Of, PlaceList, Reply, Why};
pub use said::Said;
pub use stated::laws;
pub use write::{lines, lines_for, said_lines};
