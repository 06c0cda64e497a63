//! Pages of rows.
//!
//! A row is `KEY = VALUE`, each in hexadecimal digits; `digits` says how bytes are written. A page is given by the bytes at its
//! front, after which zeros come.
ghost use Rattle.std.specs.Prelude.{◌≡◌, ◌≤◌, ◌+◌, [], length, true};
ghost use Rattle.std.specs.Option.{option_map};
ghost use Rattle.cp_page.specs.Rows.{is_after};
ghost use Rattle.cp_page.specs.Spelled.{row_bytes};

use crate::digits::digits_of;
use crate::fault::Fault;
use crate::orders;
use crate::question::{add_part, or_none};
use crate::row::{add_answer, add_line, first_line};
use crate::series::Series;
use cp_cases::{Step, bytes_in};
use cp_page::{PAGE_SIZE, Page, PageFault, PageMaker, PageRow, find, is_after, rows};
use cp_path::Bytes;
use std::alloc::{AllocError, Global};

const NO_PAGE: &str = "not a page of rows";

/// The bytes of a text of digits.
fn bytes_of(alloc: Global, digits: &str) -> Result<Bytes, AllocError> {
    let items = bytes_in(alloc, digits.as_bytes())?;
    Ok(Bytes { items })
}

/// The row on a line.
pub(crate) fn row_on(alloc: Global, line: &str) -> Result<PageRow, AllocError> {
    let (key, value) = line.split_once('=').unwrap_or((line, ""));
    let key = bytes_of(alloc, key)?;
    let value = bytes_of(alloc, value)?;
    Ok(PageRow { key, value })
}

/// The line of a row.
pub(crate) fn row_text(alloc: Global, row: &PageRow) -> Result<String, AllocError> {
    let mut text = digits_of(alloc, row.key.as_slice())?;
    if !text.is_empty() {
        text.push(' ')?;
    }
    text.push('=')?;
    let value = digits_of(alloc, row.value.as_slice())?;
    if !value.is_empty() {
        text.push(' ')?;
        text.push_str(value.as_str())?;
    }
    Ok(text)
}

/// The rows on the lines of a text.
fn rows_on(alloc: Global, text: &str) -> Result<Vec<PageRow>, AllocError> {
    let mut rows = Vec::new(alloc);
    for line in text.split_terminator('\n') {
        let row = row_on(alloc, line)?;
        rows.push(row)?;
    }
    Ok(rows)
}

/// The page with these bytes at its front.
pub(crate) fn page_of(alloc: Global, digits: &str) -> Result<Page, AllocError> {
    let bytes = bytes_in(alloc, digits.as_bytes())?;
    let mut page = Page::blank();
    let size = bytes.len().min(PAGE_SIZE);
    page.bytes[..size].copy_from_slice(&bytes[..size]);
    Ok(page)
}

// ---- What a page has

/// The rows as parts of an answer.
pub(crate) fn parts_of(alloc: Global, rows: &[PageRow]) -> Result<String, AllocError> {
    let mut text = String::new(alloc);
    for row in rows {
        let row = row_text(alloc, row)?;
        add_part(&mut text, row.as_str())?;
    }
    or_none(alloc, text)
}

/// The rows of a page.
fn rows_text(alloc: Global, page: &Page) -> Result<String, AllocError> {
    match rows(alloc, page) {
        Ok(rows) => parts_of(alloc, rows.as_slice()),
        Err(PageFault::BadPage) => NO_PAGE.to_string(alloc),
        Err(PageFault::Memory) => Err(AllocError),
    }
}

/// The row of a page with the greatest key that isn't above this one.
fn found_text(alloc: Global, page: &Page, key: &[u8]) -> Result<String, AllocError> {
    match find(alloc, page, key) {
        Ok(Some(row)) => row_text(alloc, &row),
        Ok(None) => "none".to_string(alloc),
        Err(PageFault::BadPage) => NO_PAGE.to_string(alloc),
        Err(PageFault::Memory) => Err(AllocError),
    }
}

/// The key with which a page begins.
fn first_text(alloc: Global, page: &Page) -> Result<String, AllocError> {
    match page.first_key() {
        Ok(Some(key)) => digits_of(alloc, key),
        Ok(None) => "none".to_string(alloc),
        Err(_) => NO_PAGE.to_string(alloc),
    }
}

/// Adds the rows of a page, and the key with which it begins.
fn add_page(alloc: Global, text: &str, lines: &mut String) -> Result<(), Fault> {
    let page = page_of(alloc, text)?;
    let rows = rows_text(alloc, &page)?;
    add_line(lines, rows.as_str())?;
    let first = first_text(alloc, &page)?;
    let line = format!(in alloc; "first {first}")?;
    add_line(lines, line.as_str())?;
    Ok(())
}

/// Adds each key, and what is found for it in the page that stands on the first line.
fn add_found(alloc: Global, text: &str, lines: &mut String) -> Result<(), Fault> {
    let (page, keys) = first_line(text);
    let page = page_of(alloc, page)?;
    for key in keys.split_terminator('\n') {
        let bytes = bytes_in(alloc, key.as_bytes())?;
        let found = found_text(alloc, &page, bytes.as_slice())?;
        add_answer(lines, key, found.as_str())?;
    }
    Ok(())
}

// ---- A page with other bytes

/// What a page is: its rows, and what is found for a key.
fn told(alloc: Global, page: &Page, key: &[u8]) -> Result<String, AllocError> {
    let rows = rows_text(alloc, page)?;
    let found = found_text(alloc, page, key)?;
    format!(in alloc; "{rows} | {found}")
}

/// What a page is with this byte at an offset, or that it is the same as before.
fn told_with(
    alloc: Global,
    page: &Page,
    at: usize,
    byte: u8,
    key: &[u8],
    before: &str,
) -> Result<String, AllocError> {
    let mut other = *page;
    if let Some(place) = other.bytes.get_mut(at) {
        *place = byte;
    }
    let after = told(alloc, &other, key)?;
    if after.as_str() == before {
        return "the same".to_string(alloc);
    }
    Ok(after)
}

/// What a page is with the byte at an offset as its complement, as 0 and as 1.
fn altered_at(
    alloc: Global,
    page: &Page,
    at: usize,
    key: &[u8],
    before: &str,
) -> Result<String, AllocError> {
    let byte = match page.bytes.get(at) {
        Some(byte) => *byte,
        None => 0,
    };
    let first = told_with(alloc, page, at, !byte, key, before)?;
    let second = told_with(alloc, page, at, 0, key, before)?;
    let third = told_with(alloc, page, at, 1, key, before)?;
    format!(in alloc; "{first}, {second}, {third}")
}

/// Adds what a page is, and what is found for a key, with each byte altered.
fn add_altered(alloc: Global, key: &str, text: &str, lines: &mut String) -> Result<(), Fault> {
    let key = bytes_in(alloc, key.as_bytes())?;
    let page = page_of(alloc, text)?;
    let before = told(alloc, &page, key.as_slice())?;
    let mut series = Series::new(alloc, "\n");
    for at in 0..PAGE_SIZE {
        let line = altered_at(alloc, &page, at, key.as_slice(), before.as_str())?;
        series.add(alloc, line)?;
    }
    add_line(lines, series.written.as_str())?;
    Ok(())
}

// ---- Pages that are filled

/// Adds the bytes of a page.
fn add_bytes(alloc: Global, page: &Page, lines: &mut String) -> Result<(), AllocError> {
    let digits = digits_of(alloc, &page.bytes)?;
    add_line(lines, digits.as_str())
}

/// Whether a row's key is above the one before, if there is one, and the row fits into a page.
fn comes_next(before: Option<&[u8]>, row: &PageRow) -> bool
    ensures after { result ≡ true → is_after (option_map (λ k. k.now) before.entry) row.now.key ≡ true }
    ensures small { result ≡ true → 2 + length (row_bytes row.now) ≤ PAGE_SIZE }
{
    let key = row.key.as_slice();
    let most = PAGE_SIZE - 6;
    is_after(before, key) && key.len() <= most && row.value.as_slice().len() <= most - key.len()
}

/// Puts rows into pages, and adds the bytes of those that are full. Ends at a row that can't come next.
fn fill(
    alloc: Global,
    maker: &mut PageMaker,
    rows: &[PageRow],
    lines: &mut String,
) -> Result<(), Fault>
    requires { maker.old ≡ [] }
{
    let mut before: Option<&[u8]> = None;
    for row in rows {
        if !comes_next(before, row) {
            return Err(Fault::Order);
        }
        if let Some(page) = maker.push(row.key.as_slice(), row.value.as_slice()) {
            add_bytes(alloc, &page, lines)?;
        }
        before = Some(row.key.as_slice());
    }
    Ok(())
}

/// Adds the bytes of the pages into which rows are put.
fn add_pages(alloc: Global, text: &str, lines: &mut String) -> Result<(), Fault> {
    let rows = rows_on(alloc, text)?;
    let mut maker = PageMaker::new();
    fill(alloc, &mut maker, rows.as_slice(), lines)?;
    match maker.end() {
        Some(page) => add_bytes(alloc, &page, lines)?,
        None => add_line(lines, "none")?,
    }
    Ok(())
}

/// Adds what the call of this keyword gives, and says whether there is such a call. After an error the lines before it are
/// there.
pub(crate) fn add_told(
    alloc: Global,
    step: &Step,
    text: &str,
    lines: &mut String,
) -> Result<bool, Fault> {
    let words = step.rest.as_str();
    let added = match step.key.as_str() {
        "page" => add_page(alloc, text, lines),
        "find" => add_found(alloc, text, lines),
        "altered" => add_altered(alloc, words, text, lines),
        "pages" => add_pages(alloc, text, lines),
        "rows" => orders::add_rows(alloc, words, text, lines),
        "records" => orders::add_records(alloc, words, text, lines),
        "varied" => orders::add_varied(alloc, words, text, lines),
        _ => return Ok(false),
    };
    added?;
    Ok(true)
}
