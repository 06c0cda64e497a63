//! The order of the places of packed records.
ghost use Rattle.std.specs.Prelude.{◌≡◌};
ghost use Rattle.std.specs.List.{flat_map};
ghost use Rattle.cp_path.specs.Encoding.{counted_bytes};
ghost use Rattle.cp_path.specs.Place.{Path, path_cmp};
ghost use Rattle.cp_record.specs.Kept.{AreCounted};

use crate::unpack::counted_at;
use std::cmp::Ordering;

/// How two paths compare, of each of which these are the labels, each behind its length. Costs the labels, as far as they are
/// the same.
pub(crate) fn path_order(one: &[u8], other: &[u8]) -> Ordering
    requires one { AreCounted one.now }
    requires other { AreCounted other.now }
    ensures { (p q : Path) → one.now ≡ flat_map counted_bytes p → other.now ≡ flat_map counted_bytes q → result ≡ path_cmp p q }
{
    let mut left = one;
    let mut right = other;
    while !left.is_empty() && !right.is_empty() {
        let (label, behind) = counted_at(left);
        let (there, beyond) = counted_at(right);
        let order = label.cmp(there);
        if !order.is_eq() {
            return order;
        }
        left = behind;
        right = beyond;
    }
    left.len().cmp(&right.len())
}
