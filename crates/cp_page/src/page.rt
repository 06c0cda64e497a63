ghost use Rattle.std.specs.Prelude.{◌≡◌, ◌≤◌, ◌<◌, ◌+◌, ◌^◌, length, replicate, MatchResult};
ghost use Rattle.std.specs.Option.{option_map};
ghost use Rattle.std.specs.declared.option.Option.TheVariants.{None, Some};
ghost use Rattle.cp_page.specs.Keys.{first_key, number_at};

use crate::row::BadPage;

/// The bytes of a page.
pub const PAGE_SIZE: usize = 4_096;

/// A page, as it lies on a disk: any bytes.
#[derive(Clone, Copy, Drop)]
pub struct Page {
    pub bytes: [u8; PAGE_SIZE],
}

impl Page {
    /// A page of zeros, which has no rows.
    pub fn blank() -> Page
        ensures { result.bytes ≡ replicate PAGE_SIZE 0 }
    {
        Page {
            bytes: [0; PAGE_SIZE],
        }
    }

    /// The key of its first row, none where it has no rows. `BadPage` where that key would not lie in the page; nothing else of
    /// the page is looked at.
    pub fn first_key(&self) -> Result<Option<&[u8]>, BadPage>
        ensures { MatchResult result (λ k. first_key self.now.bytes ≡ Some (option_map (λ s. s.now) k))
            (λ e. first_key self.now.bytes ≡ None) }
    {
        first_key(&self.bytes)
    }
}

/// The number in two bytes, the highest first.
pub(crate) fn number_at(bytes: &[u8], at: usize) -> usize
    requires { at + 2 ≤ length bytes.now }
    ensures number { result ≡ number_at bytes.now at }
    ensures fits { result < 2 ^ 16 }
{
    bytes[at] as usize * 256 + bytes[at + 1] as usize
}

/// The key of the first row of a page with these bytes.
fn first_key(bytes: &[u8]) -> Result<Option<&[u8]>, BadPage>
    requires { length bytes.now ≡ PAGE_SIZE }
    ensures { MatchResult result (λ k. first_key bytes.now ≡ Some (option_map (λ s. s.now) k))
        (λ e. first_key bytes.now ≡ None) }
{
    if number_at(bytes, 0) == 0 {
        return Ok(None);
    }
    let size = number_at(bytes, 2);
    if size > bytes.len() - 4 {
        return Err(BadPage);
    }
    Ok(Some(&bytes[4..4 + size]))
}
