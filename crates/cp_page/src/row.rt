//! Rows, one by one, as they lie in the bytes of a page.
ghost use Rattle.std.specs.Prelude.{◌≡◌, ◌==◌, IfOk};
ghost use Rattle.std.specs.List.{list_all};
ghost use Rattle.std.specs.Option.{option_map};
ghost use Rattle.cp_page.specs.Rows as page;
ghost use Rattle.cp_page.specs.Rows.{shown};

use crate::page::number_at;
use cp_path::Bytes;
use std::alloc::{AllocError, Global};

/// A row of a page: its key and its value.
#[derive(Drop)]
pub struct PageRow {
    pub key: Bytes,
    pub value: Bytes,
}

/// A row as it lies in a page.
#[derive(Clone, Copy, Debug, Drop)]
pub struct Cell<'a> {
    pub key: &'a [u8],
    pub value: &'a [u8],
}

/// The bytes are no page of rows.
#[derive(Clone, Copy, Debug, Drop)]
pub struct BadPage;

impl<'a> Cell<'a> {
    /// A row of its own. Costs its bytes.
    pub fn to_row(&self, alloc: Global) -> Result<PageRow, AllocError>
        ensures { IfOk result (λ r. r ≡ shown self.now) }
    {
        let key = Bytes::copy_of(alloc, self.key)?;
        let value = Bytes::copy_of(alloc, self.value)?;
        Ok(PageRow { key, value })
    }
}

/// Bytes after their number, and what follows them.
fn take_counted(bytes: &[u8]) -> Option<(&[u8], &[u8])>
    ensures { option_map (λ x. (x.0.now, x.1.now)) result ≡ page.take_counted bytes.now }
{
    if bytes.len() < 2 {
        return None;
    }
    let size = number_at(bytes, 0);
    if bytes.len() - 2 < size {
        return None;
    }
    Some(bytes[2..].split_at(size))
}

/// A row, and what follows it.
pub(crate) fn take_row(bytes: &[u8]) -> Option<(Cell<'_>, &[u8])>
    ensures { option_map (λ x. (shown x.0, x.1.now)) result ≡ page.take_row bytes.now }
{
    let (key, rest) = take_counted(bytes)?;
    let (value, rest) = take_counted(rest)?;
    Some((Cell { key, value }, rest))
}

/// Whether all of the bytes are zero.
pub(crate) fn are_zero(bytes: &[u8]) -> bool
    ensures { result ≡ list_all (λ b. b == 0) bytes.now }
{
    bytes.iter().all(|byte| *byte == 0)
}

/// Whether the key is after the one that is given, if one is. Costs the shorter one's bytes.
pub fn is_after(before: Option<&[u8]>, key: &[u8]) -> bool
    ensures { result ≡ page.is_after (option_map (λ k. k.now) before.entry) key.now }
{
    match before {
        Some(before) => before.cmp(key).is_lt(),
        None => true,
    }
}
