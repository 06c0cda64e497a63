//! The rows of a page, each a row of its own.
ghost use Rattle.std.specs.Prelude.{◌≡◌, ◌≤◌, length, IfOk, IsErrOf};
ghost use Rattle.std.specs.declared.option.Option.TheVariants.{None, Some};
ghost use Rattle.cp_page.specs.Rows.{rows_of};

use crate::fault::PageFault;
use crate::page::{Page, number_at};
use crate::row::{PageRow, are_zero, is_after, take_row};
use std::alloc::Global;

/// The same of the bytes of a page.
fn rows_among(alloc: Global, bytes: &[u8]) -> Result<Vec<PageRow>, PageFault>
    requires { 2 ≤ length bytes.now }
    ensures rows { IfOk result (λ v. rows_of bytes.now ≡ Some v.items) }
    ensures bad { IsErrOf result PageFault.BadPage → rows_of bytes.now ≡ None }
{
    let mut rows = Vec::new(alloc);
    let mut rest = &bytes[2..];
    let mut before: Option<&[u8]> = None;
    let count = number_at(bytes, 0);
    let mut read = 0;
    while read < count {
        let Some((cell, next)) = take_row(rest) else {
            return Err(PageFault::BadPage);
        };
        if !is_after(before, cell.key) {
            return Err(PageFault::BadPage);
        }
        let row = cell.to_row(alloc)?;
        rows.push(row)?;
        before = Some(cell.key);
        rest = next;
        read += 1;
    }
    if are_zero(rest) {
        Ok(rows)
    } else {
        Err(PageFault::BadPage)
    }
}

/// The rows of the page; `BadPage` where it is no page of rows. Costs the page's bytes.
pub fn rows(alloc: Global, page: &Page) -> Result<Vec<PageRow>, PageFault>
    ensures rows { IfOk result (λ v. rows_of page.now.bytes ≡ Some v.items) }
    ensures bad { IsErrOf result PageFault.BadPage → rows_of page.now.bytes ≡ None }
{
    rows_among(alloc, &page.bytes)
}
