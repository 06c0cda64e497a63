//! Everything that the program does but for the real disk, files, clock, input and output: words, statements and source
//! files to replies, a store and an exit status.
#![tactic(auto)]

mod answer;
mod commit;
mod generate;
mod init;
mod load;
mod run;
mod scratch;
mod store;
mod uses;
mod version;

pub use cp_interpreter::Status;
pub use run::run_cpdb;
