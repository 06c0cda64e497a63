//! The bytes by which the places are known from which rows copied.
ghost use Rattle.std.specs.Prelude.{◌≡◌, ◌≤◌, ◌++◌, [], length, IfOk, OnOk};
ghost use Rattle.cp_path.specs.Encoding.{counted_bytes};
ghost use Rattle.cp_path.specs.declared.limits.TheConstants.{LABEL_MAX};
ghost use Rattle.cp_uses.specs.Sources.{source_key, at_root};

use cp_path::{Label, Loc, Name};
use std::alloc::{AllocError, Global};

/// Puts a text behind its length.
fn push_text(key: &mut Vec<u8>, text: &str) -> Result<(), AllocError>
    requires { length text.now ≤ LABEL_MAX }
    ensures { OnOk result (key.new.items ≡ key.old.items ++ counted_bytes text.now) }
{
    let bytes = text.as_bytes();
    key.push(bytes.len() as u8)?;
    key.extend_from_slice(bytes)?;
    Ok(())
}

/// Goes one label further down. Costs its bytes.
pub(crate) fn push_label(key: &mut Vec<u8>, label: &Label) -> Result<(), AllocError>
    ensures { OnOk result (key.new.items ≡ key.old.items ++ counted_bytes label.now) }
{
    push_text(key, label.as_str())
}

/// Puts the key of the root of a database in the place of what was there. After an error what is there isn't said.
fn write_root(key: &mut Vec<u8>, name: &Name) -> Result<(), AllocError>
    ensures { OnOk result (key.new.items ≡ source_key (at_root name.now)) }
{
    key.clear();
    push_text(key, name.as_str())
}

/// The key of the root of a database.
pub(crate) fn root_key(alloc: Global, name: &Name) -> Result<Vec<u8>, AllocError>
    ensures { IfOk result (λ key. key.items ≡ source_key (at_root name.now)) }
{
    let mut key = Vec::new(alloc);
    write_root(&mut key, name)?;
    Ok(key)
}

/// Puts the key of a place in the place of what was there: its name and its labels, each behind its length. The key of a place
/// above it is the front of its own. Costs the place's size, and memory only where there isn't room for it. After an error what
/// is there isn't said.
pub(crate) fn write_key(key: &mut Vec<u8>, place: &Loc) -> Result<(), AllocError>
    ensures { OnOk result (key.new.items ≡ source_key place.now) }
{
    write_root(key, &place.db)?;
    for label in place.path.labels() {
        push_label(key, label)?;
    }
    Ok(())
}

/// The key of a place, by itself. Costs the place's size.
pub(crate) fn key_of(alloc: Global, place: &Loc) -> Result<Vec<u8>, AllocError>
    ensures { IfOk result (λ key. key.items ≡ source_key place.now) }
{
    let mut key = Vec::new(alloc);
    write_key(&mut key, place)?;
    Ok(key)
}
