//! The row of a page with the greatest key that isn't above one.
ghost use Rattle.std.specs.Prelude.{◌≡◌, ◌≤◌, length, if◌then◌else◌, IfOk, IsErrOf, MatchResult};
ghost use Rattle.std.specs.Ordering.{is_le};
ghost use Rattle.std.specs.Option.{option_map};
ghost use Rattle.std.specs.declared.option.Option.TheVariants.{None, Some};
ghost use Rattle.cp_path.specs.Text.{text_cmp};
ghost use Rattle.cp_page.specs.Rows.{rows_of, greatest, shown};

use crate::fault::PageFault;
use crate::page::{Page, number_at};
use crate::row::{BadPage, Cell, PageRow, are_zero, is_after, take_row};
use std::alloc::Global;

/// The cell, where its key isn't above this one, or else the best until now.
fn better<'a>(best: Option<Cell<'a>>, cell: Cell<'a>, key: &[u8]) -> Option<Cell<'a>>
    ensures { option_map shown result ≡ (if is_le (text_cmp cell.entry.key.now key.now) then Some (shown cell.entry)
        else option_map shown best.entry) }
{
    if cell.key.cmp(key).is_le() {
        Some(cell)
    } else {
        best
    }
}

/// The same in the bytes of a page.
fn find_among<'a>(bytes: &'a [u8], key: &[u8]) -> Result<Option<Cell<'a>>, BadPage>
    requires { 2 ≤ length bytes.now }
    ensures { MatchResult result (λ c. option_map (greatest key.now) (rows_of bytes.now) ≡ Some (option_map shown c))
        (λ e. rows_of bytes.now ≡ None) }
{
    let mut rest = &bytes[2..];
    let mut before: Option<&[u8]> = None;
    let mut best = None;
    let count = number_at(bytes, 0);
    let mut read = 0;
    while read < count {
        let Some((cell, next)) = take_row(rest) else {
            return Err(BadPage);
        };
        if !is_after(before, cell.key) {
            return Err(BadPage);
        }
        best = better(best, cell, key);
        before = Some(cell.key);
        rest = next;
        read += 1;
    }
    if are_zero(rest) {
        Ok(best)
    } else {
        Err(BadPage)
    }
}

/// The row with the greatest key that isn't above this one, as it lies in the page. Costs the page's bytes, and no memory.
pub fn find_cell<'a>(page: &'a Page, key: &[u8]) -> Result<Option<Cell<'a>>, BadPage>
    ensures { MatchResult result (λ c. option_map (greatest key.now) (rows_of page.now.bytes) ≡ Some (option_map shown c))
        (λ e. rows_of page.now.bytes ≡ None) }
{
    find_among(&page.bytes, key)
}

/// The row with the greatest key that isn't above this one; `BadPage` where any byte makes the page no page of rows. Costs the
/// page's bytes, and memory for that row alone.
pub fn find(alloc: Global, page: &Page, key: &[u8]) -> Result<Option<PageRow>, PageFault>
    ensures found { IfOk result (λ r. option_map (greatest key.now) (rows_of page.now.bytes) ≡ Some r) }
    ensures bad { IsErrOf result PageFault.BadPage → rows_of page.now.bytes ≡ None }
{
    match find_cell(page, key)? {
        None => Ok(None),
        Some(cell) => Ok(Some(cell.to_row(alloc)?)),
    }
}
