//! The statements that a curator writes, how the input is cut into them, and how they are read.
#![tactic(auto)]

mod cut;
mod cutter;
mod decimal;
mod lexer;
mod limits;
mod parser;
mod printer;
mod syntax_tree;
mod token_reading;
mod verb;

pub use cut::Cut;
pub use cutter::Cutter;
pub use limits::STATEMENT_MAX;
pub use parser::{first_offset, parse, parse_bytes};
pub use printer::print;
pub use syntax_tree::{Load, Stmt, StmtFault};
