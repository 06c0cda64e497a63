//! Calls of the layers below the program that need no device: of words and statements as they are read, of rows of
//! provenance, of replies, and of trees in every form.
//!
//! | Part | What it gives |
//! |---|---|
//! | `place`, `label`, `name`, `value`, `text` and a text | what the text is read as |
//! | `order` and a text | whether the places in it are in their order |
//! | `statement` and a text | the statement as it is printed, or its refusal |
//! | `offset` and a text | where the first token begins |
//! | `cuts SIZE` and a text | the cuts of an input that comes in pieces of this size |
//! | `reply WORDS` and a text | the lines of a reply, as `replies` says |
//! | `store KIND UPTO TIDS`, rows and questions | what a store tells that keeps the rows, as `store` says |
//! | `counted KIND TIDS`, rows and steps | the rows of each step, and how many calls there were, of a store that keeps the rows as they are, and of one that keeps them packed, as `counted` says |
//! | `modified KIND TIDS`, a line of JSON, rows and places | the steps that changed each place or one below it, and by how many calls of the store they are found, as `modified` says |
//! | `uses KIND TIDS`, a line of JSON, rows and places | which places use each place, or by how many calls of the store they are found, as `uses` says |
//! | `turns KIND COUNT` and places | the same of a store in which two places were copied on in turn, so many times in all |
//! | `reduce PLACE` and rows | the reduced rows of an operation that wrote the place |
//! | `expand`, two lines of JSON and rows | the full rows of a step, from the trees before and after it |
//! | `effects`, a line of JSON, rows and places | what the step has done to each place, where the tree is the one after it |
//! | `packed COUNT` and rows | the rows that come back, where the last labels of each place, so many, stand below the others |
//! | `page` and bytes | the rows of the page that begins with these bytes and is zero after them, and the key with which it begins, as `pages` says |
//! | `find`, a line of bytes and keys | what is found for each key in the page of these bytes |
//! | `altered KEY` and bytes | what the page is, and what is found for the key, with each of its bytes as its complement, as 0 and as 1 |
//! | `pages` and rows of pages | the bytes of the pages into which they are put |
//! | `rows ORDER`, `records ORDER` | the rows of records in an order, and the records of rows, as `orders` says |
//! | `varied ORDER` and a row of a page | for each of its bytes with which bytes in its place it is of a record |
//! | `runs RUNS`, pages and questions | what is found in the runs, as `runs` says |
//! | `altered_run KEY` and a page | what is found for the key in a run of this page, and its rows, with each byte as its complement, as 0 and as 1 |
//! | `paged KIND UPTO TIDS RUNS`, pages, rows and questions | what a store tells whose rows up to a step lie in the runs, as `paged` says |
//! | `length` and a statement | the bytes of its operation in a commit's entry |
//! | `copied LEVELS WIDTH` | how many copies of a tree, from every form into every form, are the same as what they are copied from; the tree has so many levels below its root, and so many members are given to each node |
//! | `wide COUNT` | how many places a tree with so many leaves below its root has in each form |
//! | `deep COUNT` | the same of a tree with so many places below its root, each the only one below the one before |
//! | `often COUNT TIMES` | how many places so many copies of a `ShareTree` with so many leaves have, of which each is dropped before the next is made |
//!
//! Rows stand one a line, as `row` says.
#![tactic(auto)]

mod copies;
mod counted;
mod digits;
mod fault;
mod length;
mod modified;
mod next;
mod orders;
mod packed;
mod paged;
mod pages;
mod question;
mod read_disk;
mod replies;
mod row;
mod rows;
mod runs;
mod series;
mod statement;
mod step;
mod store;
mod text;
mod trees;
mod uses;
mod word;

pub use crate::trees::count_in_file;
use cp_cases::Step;
use std::alloc::{AllocError, Global};

/// What the call of this keyword gives, of words, of a statement or of a reply; `None` where there is no such call.
fn answer_of_text(alloc: Global, step: &Step) -> Result<Option<Vec<u8>>, AllocError> {
    let text = step.text.as_slice();
    match step.key.as_str() {
        "reply" => replies::lines_of(alloc, step.rest.as_str(), text),
        "cuts" => statement::cuts(alloc, step.rest.as_str(), text),
        "statement" => statement::printed(alloc, text),
        "offset" => statement::offset(alloc, text),
        key => word::read(alloc, key, text),
    }
}

/// What the call of this keyword gives; `None` where there is no such call. The error is that memory ran out.
pub fn answer(alloc: Global, step: &Step) -> Result<Option<Vec<u8>>, AllocError> {
    if let Some(lines) = answer_of_text(alloc, step)? {
        return Ok(Some(lines));
    }
    if let Some(lines) = rows::answer(alloc, step)? {
        return Ok(Some(lines));
    }
    trees::answer(alloc, step)
}
