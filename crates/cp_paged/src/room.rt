//! Keys of rows, in a buffer.
ghost use Rattle.std.specs.Prelude.{◌≡◌, ◌++◌, ◌∷◌, [], IfOk, OnOk};
ghost use Rattle.std.specs.Int.{to_be_bytes, w64};
ghost use Rattle.cp_model.specs.Place.{at_target};
ghost use Rattle.cp_page.specs.Orders.{place_tid};

use cp_page::put_place_tid;
use cp_path::{Label, Name};
use std::alloc::{AllocError, Global};
use std::marker::Model;

/// A buffer for keys of places of T, seen as the key that it holds.
#[derive(Drop)]
pub struct KeyRoom {
    db: Name,
    key: Vec<u8>,
}

impl Model for KeyRoom {
    ghost use Rattle.std.specs.Prelude.{◌≡◌, ℕ, List};
    ghost use Rattle.cp_path.specs.Text.{target};

    ghost Value = { List ℕ };

    ghost view = { λ s. s.key.items };

    ghost invariant = { λ s. s.db ≡ target };
}

impl KeyRoom {
    /// An empty buffer.
    pub(crate) fn new(alloc: Global) -> Result<KeyRoom, AllocError>
        ensures { IfOk result (λ s. s ≡ []) }
    {
        let db = Name::target(alloc)?;
        Ok(KeyRoom {
            db,
            key: Vec::new(alloc),
        })
    }

    /// The key that it holds.
    pub(crate) fn as_slice(&self) -> &[u8]
        ensures { result.now ≡ self.now }
    {
        self.key.as_slice()
    }

    /// Makes it hold the key of the place at these labels, and the Tid after it. Costs its bytes.
    pub(crate) fn set(&mut self, labels: &[Label], tid: u64) -> Result<(), AllocError>
        ensures { OnOk result (self.new ≡ place_tid (at_target labels.now) tid) }
    {
        self.key.clear();
        put_place_tid(&self.db, labels, tid, &mut self.key)
    }
}

/// The key of the place at these labels, and the Tid after it. Costs its bytes.
pub(crate) fn place_key_at(alloc: Global, labels: &[Label], tid: u64) -> Result<KeyRoom, AllocError>
    ensures { IfOk result (λ s. s ≡ place_tid (at_target labels.now) tid) }
{
    let mut room = KeyRoom::new(alloc)?;
    room.set(labels, tid)?;
    Ok(room)
}

/// The Tid, and a byte after it: with the first letter of T the lower end of the keys of its rows by step, with the next one
/// the upper.
pub(crate) fn step_end(alloc: Global, tid: u64, last: u8) -> Result<Vec<u8>, AllocError>
    ensures { IfOk result (λ v. v.items ≡ to_be_bytes w64 tid ++ last ∷ []) }
{
    let mut key = Vec::new(alloc);
    key.extend_from_slice(&tid.to_be_bytes())?;
    key.push(last)?;
    Ok(key)
}
