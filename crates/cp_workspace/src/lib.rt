//! Where statements are run: a database in a file with an open transaction, or with those of several curators. Each cut of an
//! input makes a turn.
//!
//! A crash at any moment of a turn leaves the history before it or after it.
#![tactic(auto)]

mod fault;
mod limits;
mod owner;
mod source_file;
mod stated;
mod text;
mod workspace;

pub use fault::WorkspaceFault;
pub use limits::FILE_MAX;
pub use source_file::fetch;
pub use stated::laws;
pub use workspace::{Workspace, shown, unanswered};
