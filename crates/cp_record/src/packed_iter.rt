ghost use Rattle.std.specs.Prelude.{◌≡◌, [], ◌∷◌, MatchOption};

use crate::packed_record::PackedRecord;
use crate::unpack::behind_record;
use std::marker::Model;

/// Packed records that are still to come, in order.
#[derive(Drop)]
pub struct PackedIter<'a> {
    pub(crate) rest: &'a [u8],
}

impl<'a> Model for PackedIter<'a> {
    ghost use Rattle.std.specs.Prelude.{List};
    ghost use Rattle.cp_model.specs.declared.record.Record.{Record};
    ghost use Rattle.cp_record.specs.Unpacked.{records_in, IsPacked};

    ghost Value = { List Record };

    ghost view = { λ p. records_in p.rest.now };

    ghost invariant = { λ p. IsPacked p.rest.now };
}

impl<'a> PackedIter<'a> {
    /// The next record, if one is left. Costs the labels of its places.
    pub fn next(&mut self) -> Option<PackedRecord<'a>>
        ensures { MatchOption result (self.old ≡ []) (λ r. self.old ≡ r ∷ self.new) }
    {
        if self.rest.is_empty() {
            return None;
        }
        let behind = behind_record(self.rest);
        let (bytes, _) = self.rest.split_at(self.rest.len() - behind.len());
        self.rest = behind;
        Some(PackedRecord { bytes })
    }
}
