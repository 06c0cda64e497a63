//! Pages of rows, each a key and a value, whose keys rise; and keys of places that keep the order of places.
//!
//! A page has [`PAGE_SIZE`] bytes: the number of its rows in two bytes, then of each row the key after its length in two bytes
//! and the value likewise, then zeros. Numbers have their highest byte first. A page without rows is a page.
#![tactic(auto)]

mod fault;
mod finding;
mod listing;
mod maker;
mod order;
mod page;
mod place_key;
mod ranging;
mod row;
mod stated;

pub use fault::PageFault;
pub use finding::{find, find_cell};
pub use listing::rows;
pub use maker::PageMaker;
pub use order::{
    loss_of, put_place_tid, put_tid_place, record_by_place, record_by_step, row_by_loser,
    row_by_place, row_by_step,
};
pub use page::{PAGE_SIZE, Page};
pub use place_key::{place_of_key, put_place_key};
pub use ranging::add_rows_between;
pub use row::{BadPage, Cell, PageRow, is_after};
pub use stated::laws;
