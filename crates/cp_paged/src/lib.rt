//! Rows that lie in pages, and those after them in memory.
#![tactic(auto)]

mod answers;
mod by_key;
mod keyed;
mod looking;
mod losing;
mod marks;
mod newest;
mod on_disk;
mod paged;
mod places;
mod room;
mod run_rows;

pub use keyed::KeyedRows;
pub use losing::losses_on;
pub use newest::newest_change;
pub use paged::{LaterRows, Paged, PagedStore};
pub use places::{PlaceRow, PlaceRows};
pub use run_rows::RunRows;
