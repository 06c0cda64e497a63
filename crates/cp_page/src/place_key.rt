//! Keys of places: the name, 0 1, of each label its bytes with a 255 after each 0, and 0 1; at the end 0 0.
ghost use Rattle.std.specs.Prelude.{◌≡◌, ◌++◌, ◌∷◌, [], ℕ, List, length, true, false, IfOk, MatchOption, OnOk};
ghost use Rattle.std.specs.List.{flat_map};
ghost use Rattle.cp_path.specs.Text.{target};
ghost use Rattle.cp_path.specs.declared.limits.TheConstants.{LABELS_MAX};
ghost use Rattle.cp_record.specs.Kept.{IsLabel, IsPath};
ghost use Rattle.cp_record.specs.Packed.{Grew};
ghost use Rattle.cp_page.specs.KeyReading.{IsReadAs, IsTargetPlace, NoByte};
ghost use Rattle.cp_page.specs.PlaceKeys.{escaped_byte, escaped, label_key, path_key, place_key};

use cp_path::{LOC_MAX, Label, Loc, Name, Path, PathFault};
use std::alloc::{AllocError, Global};

// ---- Writing

/// Appends a byte, and a 255 after a 0.
fn put_byte(byte: u8, out: &mut Vec<u8>) -> Result<(), AllocError>
    ensures ok { OnOk result (out.new.items ≡ out.old.items ++ escaped_byte byte) }
    ensures err { Grew out.old.items out.new.items }
{
    out.push(byte)?;
    if byte == 0 {
        out.push(255)?;
    }
    Ok(())
}

/// Appends bytes with a 255 after each 0.
fn put_escaped(bytes: &[u8], out: &mut Vec<u8>) -> Result<(), AllocError>
    ensures ok { OnOk result (out.new.items ≡ out.old.items ++ escaped bytes.now) }
    ensures err { Grew out.old.items out.new.items }
{
    for byte in bytes {
        put_byte(*byte, out)?;
    }
    Ok(())
}

/// Appends a label, and its end.
fn put_label(label: &Label, out: &mut Vec<u8>) -> Result<(), AllocError>
    ensures ok { OnOk result (out.new.items ≡ out.old.items ++ label_key label.now) }
    ensures err { Grew out.old.items out.new.items }
{
    put_escaped(label.as_str().as_bytes(), out)?;
    out.extend_from_slice(&[0, 1])
}

/// Appends labels, each with its end.
fn put_labels(labels: &[Label], out: &mut Vec<u8>) -> Result<(), AllocError>
    ensures ok { OnOk result (out.new.items ≡ out.old.items ++ flat_map label_key labels.now) }
    ensures err { Grew out.old.items out.new.items }
{
    for label in labels {
        put_label(label, out)?;
    }
    Ok(())
}

/// Appends the key of the place at these labels of a database. Costs its bytes. After an error `out` begins with what it held.
pub fn put_place_key(db: &Name, labels: &[Label], out: &mut Vec<u8>) -> Result<(), AllocError>
    ensures ok { OnOk result (out.new.items ≡ out.old.items ++ place_key (record { db = db.now; path = labels.now })) }
    ensures err { Grew out.old.items out.new.items }
{
    out.extend_from_slice(db.as_str().as_bytes())?;
    out.extend_from_slice(&[0, 1])?;
    put_labels(labels, out)?;
    out.extend_from_slice(&[0, 0])
}

// ---- Reading

/// The byte that stands at the front, as a label has it, and what follows it; none at the label's end.
fn take_byte(bytes: &[u8]) -> Option<(u8, &[u8])>
    ensures { MatchOption result (NoByte bytes.now) (λ x. bytes.now ≡ escaped_byte x.0 ++ x.1.now) }
{
    let (first, rest) = bytes.split_first()?;
    if *first != 0 {
        return Some((*first, rest));
    }
    match rest.split_first() {
        Some((255, rest)) => Some((0, rest)),
        _ => None,
    }
}

/// What follows these two bytes, if they stand at the front.
fn behind(bytes: &[u8], first: u8, second: u8) -> Option<&[u8]>
    ensures { MatchOption result ((rest : List ℕ) → bytes.now ≡ first ∷ second ∷ rest → ⊥)
        (λ rest. bytes.now ≡ first ∷ second ∷ rest.now) }
{
    if bytes.len() < 2 || bytes[0] != first || bytes[1] != second {
        return None;
    }
    Some(&bytes[2..])
}

/// The bytes of the label whose key stands at the front, and what follows it; none where no label's key does.
fn take_label(alloc: Global, bytes: &[u8]) -> Result<Option<(Vec<u8>, &[u8])>, AllocError>
    ensures { IfOk result (λ o. MatchOption o ((a rest : List ℕ) → bytes.now ≡ label_key a ++ rest → ⊥)
        (λ x. bytes.now ≡ label_key x.0.items ++ x.1.now)) }
{
    let mut label = Vec::new(alloc);
    let mut rest = bytes;
    while let Some((byte, next)) = take_byte(rest) {
        label.push(byte)?;
        rest = next;
    }
    match behind(rest, 0, 1) {
        Some(rest) => Ok(Some((label, rest))),
        None => Ok(None),
    }
}

/// The label with these bytes; none where they are no text, or too long.
fn label_of(alloc: Global, bytes: &[u8]) -> Result<Option<Label>, AllocError>
    ensures { IfOk result (λ o. MatchOption o (IsLabel bytes.now → ⊥) (λ a. (a ≡ bytes.now) × IsLabel a)) }
{
    let Ok(text) = std::str::from_utf8(bytes) else {
        return Ok(None);
    };
    match Label::new(alloc, text) {
        Ok(label) => Ok(Some(label)),
        Err(PathFault::Memory) => Err(AllocError),
        Err(_) => Ok(None),
    }
}

/// Goes one label further down; whether a path may.
fn push(path: &mut Path, label: Label) -> Result<bool, AllocError>
    ensures pushed { IfOk result (λ may. may ≡ true → path.new ≡ path.old ++ label ∷ []) }
    ensures full { IfOk result (λ may. may ≡ false → length path.old ≡ LABELS_MAX) }
{
    match path.push(label) {
        Ok(()) => Ok(true),
        Err(PathFault::TooDeep) => Ok(false),
        Err(_) => Err(AllocError),
    }
}

/// The path whose key the bytes are; none where they are no path's.
fn path_of(alloc: Global, bytes: &[u8]) -> Result<Option<Path>, AllocError>
    ensures { IfOk result (IsReadAs IsPath path_key bytes.now) }
{
    let mut path = Path::root(alloc);
    let mut rest = bytes;
    while let Some((text, next)) = take_label(alloc, rest)? {
        let Some(label) = label_of(alloc, text.as_slice())? else {
            return Ok(None);
        };
        if !push(&mut path, label)? {
            return Ok(None);
        }
        rest = next;
    }
    if is_end(rest) {
        Ok(Some(path))
    } else {
        Ok(None)
    }
}

/// Whether the bytes are the end of a path's key.
fn is_end(bytes: &[u8]) -> bool
    ensures end { result ≡ true → bytes.now ≡ 0 ∷ 0 ∷ [] }
    ensures other { result ≡ false → bytes.now ≡ 0 ∷ 0 ∷ [] → ⊥ }
{
    match behind(bytes, 0, 0) {
        Some(rest) => rest.is_empty(),
        None => false,
    }
}

/// What follows the name of T in a key.
fn behind_target(key: &[u8]) -> Option<&[u8]>
    ensures { MatchOption result ((rest : List ℕ) → key.now ≡ target ++ 0 ∷ 1 ∷ rest → ⊥)
        (λ rest. key.now ≡ target ++ 0 ∷ 1 ∷ rest.now) }
{
    match key.split_first() {
        Some((b'T', rest)) => behind(rest, 0, 1),
        _ => None,
    }
}

/// The place of T whose key this is; none where it is the key of no place of T, or of one over a limit. Costs the key's bytes.
pub fn place_of_key(alloc: Global, key: &[u8]) -> Result<Option<Loc>, AllocError>
    ensures { IfOk result (IsReadAs IsTargetPlace place_key key.now) }
{
    let Some(rest) = behind_target(key) else {
        return Ok(None);
    };
    let Some(path) = path_of(alloc, rest)? else {
        return Ok(None);
    };
    let db = Name::target(alloc)?;
    let loc = Loc { db, path };
    if loc.size() as usize > LOC_MAX {
        return Ok(None);
    }
    Ok(Some(loc))
}
