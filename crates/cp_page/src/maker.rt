//! Pages filled row by row.
ghost use Rattle.std.specs.Prelude.{◌≡◌, ◌≤◌, ◌<◌, ◌+◌, ◌*◌, ◌/◌, ◌%◌, ◌++◌, ◌∷◌, [], List, length};
ghost use Rattle.std.specs.Option.{option_map};
ghost use Rattle.std.specs.declared.option.Option.TheVariants.{None};
ghost use Rattle.cp_page.specs.Cuts.{last_page, page_ended, rows_then};
ghost use Rattle.cp_page.specs.Made.{with_part, IsMade};
ghost use Rattle.cp_page.specs.Rows.{row_of};
ghost use Rattle.cp_page.specs.Spelled.{counted, row_bytes, RiseAfter};
ghost use Rattle.cp_page.specs.declared.row.PageRow.{PageRow};

use crate::page::{PAGE_SIZE, Page, number_at};
use std::marker::Model;

/// Puts a number in two bytes, the highest first.
fn put_number(bytes: &mut [u8], at: usize, number: usize)
    requires within { at + 2 ≤ length bytes.old }
    requires small { number < 256 * 256 }
    ensures { bytes.new ≡ with_part bytes.old at (number / 256 ∷ number % 256 ∷ []) }
{
    let pair = [(number / 256) as u8, (number % 256) as u8];
    bytes[at..at + 2].copy_from_slice(&pair);
}

/// Puts bytes after their number.
fn put_counted(bytes: &mut [u8], at: usize, part: &[u8])
    requires within { at + 2 + length part.now ≤ length bytes.old }
    requires small { length part.now < 256 * 256 }
    ensures { bytes.new ≡ with_part bytes.old at (counted part.now) }
{
    put_number(bytes, at, part.len());
    bytes[at + 2..at + 2 + part.len()].copy_from_slice(part);
}

/// Puts a row after the bytes that are used, and counts it.
fn put_row(bytes: &mut [u8], used: usize, key: &[u8], value: &[u8])
    requires made { (rows : List PageRow) × IsMade rows bytes.old used }
    requires fits { used + length (row_bytes (row_of key.now value.now)) ≤ PAGE_SIZE }
    ensures { (rows : List PageRow) → IsMade rows bytes.old used → RiseAfter None (rows ++ row_of key.now value.now ∷ [])
        → IsMade (rows ++ row_of key.now value.now ∷ []) bytes.new (used + length (row_bytes (row_of key.now value.now))) }
{
    let count = number_at(bytes, 0);
    put_counted(bytes, used, key);
    put_counted(bytes, used + 2 + key.len(), value);
    put_number(bytes, 0, count + 1);
}

/// A page that is being filled with rows whose keys rise, seen as these rows.
#[derive(Drop)]
pub struct PageMaker {
    page: Page,
    used: usize,
}

impl Model for PageMaker {
    ghost use Rattle.std.specs.Prelude.{List};
    ghost use Rattle.cp_page.specs.Made.{rows_in, IsMade};
    ghost use Rattle.cp_page.specs.declared.row.PageRow.{PageRow};

    ghost Value = { List PageRow };

    ghost view = { λ s. rows_in s.page.bytes };

    ghost invariant = { λ s. IsMade (rows_in s.page.bytes) s.page.bytes s.used };
}

impl PageMaker {
    /// A page without rows.
    pub fn new() -> PageMaker
        ensures { result ≡ [] }
    {
        PageMaker {
            page: Page::blank(),
            used: 2,
        }
    }

    /// Adds a row, whose key is above those of the page's rows. Where it doesn't fit into the page it begins the next one, and the
    /// page until now is given, filled with zeros. Takes no memory; costs the row's bytes, and a page's where one is given.
    pub fn push(&mut self, key: &[u8], value: &[u8]) -> Option<Page>
        requires rises { RiseAfter None (self.old ++ row_of key.now value.now ∷ []) }
        requires small { 2 + length (row_bytes (row_of key.now value.now)) ≤ PAGE_SIZE }
        ensures rows { self.new ≡ rows_then self.old (row_of key.now value.now) }
        ensures page { option_map (λ p. p.bytes) result ≡ page_ended self.old (row_of key.now value.now) }
    {
        let size = 4 + key.len() + value.len();
        if size <= PAGE_SIZE - self.used {
            put_row(&mut self.page.bytes, self.used, key, value);
            self.used += size;
            return None;
        }
        let full = self.page;
        self.page = Page::blank();
        put_row(&mut self.page.bytes, 2, key, value);
        self.used = 2 + size;
        Some(full)
    }

    /// The last page, if it has a row. Takes no memory.
    pub fn end(self) -> Option<Page>
        ensures { option_map (λ p. p.bytes) result ≡ last_page self }
    {
        if self.used == 2 {
            None
        } else {
            Some(self.page)
        }
    }
}
