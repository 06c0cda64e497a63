//! The rows of a page from one key to another.
ghost use Rattle.std.specs.Prelude.{◌≡◌, ◌≤◌, ◌++◌, ◌∷◌, [], length, false, IfOk, IsErrOf, OnOk};
ghost use Rattle.std.specs.Option.{option_map};
ghost use Rattle.std.specs.declared.option.Option.TheVariants.{None, Some};
ghost use Rattle.cp_page.specs.Ranges.{is_within, rows_between, found_with};
ghost use Rattle.cp_page.specs.Rows.{rows_of, shown};

use crate::fault::PageFault;
use crate::page::{Page, number_at};
use crate::row::{Cell, PageRow, are_zero, is_after, take_row};
use std::alloc::{AllocError, Global};

/// Whether the key isn't below `low` and isn't above `high`.
fn is_within(key: &[u8], low: &[u8], high: &[u8]) -> bool
    ensures { result ≡ is_within low.now high.now key.now }
{
    low.cmp(key).is_le() && key.cmp(high).is_le()
}

/// Adds the row, where its key is from `low` to `high`.
fn add_if_within(
    alloc: Global,
    cell: &Cell<'_>,
    low: &[u8],
    high: &[u8],
    found: &mut Vec<PageRow>,
) -> Result<(), AllocError>
    ensures { OnOk result (found.new.items ≡ found.old.items ++ rows_between low.now high.now (shown cell.now ∷ [])) }
{
    if is_within(cell.key, low, high) {
        let row = cell.to_row(alloc)?;
        found.push(row)?;
    }
    Ok(())
}

/// The same of the bytes of a page.
fn add_among(
    alloc: Global,
    bytes: &[u8],
    low: &[u8],
    high: &[u8],
    found: &mut Vec<PageRow>,
) -> Result<bool, PageFault>
    requires { 2 ≤ length bytes.now }
    ensures rows { IfOk result (λ past. option_map (found_with low.now high.now found.old.items false) (rows_of bytes.now)
        ≡ Some (found.new.items, past)) }
    ensures bad { IsErrOf result PageFault.BadPage → rows_of bytes.now ≡ None }
{
    let mut rest = &bytes[2..];
    let mut before: Option<&[u8]> = None;
    let mut past = false;
    let count = number_at(bytes, 0);
    let mut read = 0;
    while read < count {
        let Some((cell, next)) = take_row(rest) else {
            return Err(PageFault::BadPage);
        };
        if !is_after(before, cell.key) {
            return Err(PageFault::BadPage);
        }
        add_if_within(alloc, &cell, low, high, found)?;
        past = cell.key.cmp(high).is_gt();
        before = Some(cell.key);
        rest = next;
        read += 1;
    }
    if are_zero(rest) {
        Ok(past)
    } else {
        Err(PageFault::BadPage)
    }
}

/// Adds the rows whose keys are from `low` to `high`, both with them, and answers whether the page's last row is above `high`;
/// `BadPage` where it is no page of rows. Costs the page's bytes, and memory for these rows alone. After an error what `found` holds
/// is not said.
pub fn add_rows_between(
    alloc: Global,
    page: &Page,
    low: &[u8],
    high: &[u8],
    found: &mut Vec<PageRow>,
) -> Result<bool, PageFault>
    ensures rows { IfOk result (λ past. option_map (found_with low.now high.now found.old.items false) (rows_of page.now.bytes)
        ≡ Some (found.new.items, past)) }
    ensures bad { IsErrOf result PageFault.BadPage → rows_of page.now.bytes ≡ None }
{
    add_among(alloc, &page.bytes, low, high, found)
}
