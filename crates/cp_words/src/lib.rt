//! The words of a call, and what they ask for.
#![tactic(auto)]

mod command;
mod limits;
mod operand;
mod parser;
mod row;
mod words;

pub use command::{Asked, Command, Start};
pub use limits::COUNT_MAX;
pub use words::command_of;
