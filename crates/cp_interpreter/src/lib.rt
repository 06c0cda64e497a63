//! What every command shares: how an input is read in pieces and fed to a session, how replies are written, how a session
//! stops and a call ends; and the laws of what calls on stores do, by how they end.
#![tactic(auto)]

mod end;
mod interpreter;
mod limits;
mod script;
mod session;
mod stop;
mod tell;

pub use end::{End, Status};
pub use interpreter::Interpreter;
pub use limits::{INPUT_MAX, PIECE_MAX};
pub use script::{Script, read_script};
pub use session::turns;
pub use stop::Stop;
pub use tell::{end_with, last_line, out_of_memory, stopped};
