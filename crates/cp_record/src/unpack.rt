//! Reads records from the bytes that `pack` wrote. Each call wants bytes that begin with what it reads, so that memory
//! is all that it can lack.
ghost use Rattle.std.specs.Prelude.{◌≡◌, ◌<◌, ◌≤◌, ◌++◌, ◌∷◌, ◌^◌, ℕ, List, [], length, IfOk, IsUtf8};
ghost use Rattle.std.specs.List.{flat_map};
ghost use Rattle.std.specs.declared.option.Option.{Option};
ghost use Rattle.std.specs.Int.{to_be_bytes, w64};
ghost use Rattle.cp_path.specs.Encoding.{counted_bytes, path_bytes, place_bytes};
ghost use Rattle.cp_path.specs.Place.{Path};
ghost use Rattle.cp_model.specs.Place.{parent};
ghost use Rattle.std.specs.Option.{option_map};
ghost use Rattle.cp_path.specs.declared.loc.Loc.{Loc};
ghost use Rattle.cp_model.specs.Records.{mark_by};
ghost use Rattle.cp_model.specs.declared.record.Record.{Record};
ghost use Rattle.cp_model.specs.declared.record.RecOp.{RecOp};
ghost use Rattle.cp_record.specs.Bytes.{letter, source_bytes, record_bytes};
ghost use Rattle.cp_record.specs.Kept.{BeginsWith, IsLabel, IsName, IsPath, IsPathOf, IsPlace, IsSourceOf, IsPackable, IsLetter, IsAny};

use cp_model::{RecOp, Record, RowMark};
use cp_path::{LABELS_MAX, Label, Loc, Name, Path, PathFault};
use std::alloc::{AllocError, Global};

/// The operation of a letter.
fn op_of(byte: u8) -> RecOp
    requires { IsLetter byte }
    ensures { letter result ≡ byte }
{
    match byte {
        b'I' => RecOp::I,
        b'C' => RecOp::C,
        b'D' => RecOp::D,
        b'K' => RecOp::K,
        _ => unreachable!(),
    }
}

/// The number of the first eight bytes, and what follows.
pub(crate) fn tid_at(bytes: &[u8]) -> (u64, &[u8])
    requires { 8 ≤ length bytes.now }
    ensures { (n : ℕ) → (rest : List ℕ) → n < 2 ^ 64 → bytes.now ≡ to_be_bytes w64 n ++ rest → (result.0 ≡ n) × (result.1.now ≡ rest) }
{
    match bytes.split_first_chunk::<8>() {
        Some((first, rest)) => (u64::from_be_bytes(*first), rest),
        None => unreachable!(),
    }
}

/// The operation of the first byte, and what follows.
fn op_at(bytes: &[u8]) -> (RecOp, &[u8])
    requires { BeginsWith (λ o. letter o ∷ []) IsAny bytes.now }
    ensures { (o : RecOp) → (rest : List ℕ) → bytes.now ≡ letter o ∷ rest → (result.0 ≡ o) × (result.1.now ≡ rest) }
{
    (op_of(bytes[0]), &bytes[1..])
}

/// The bytes behind their number, and what follows.
pub(crate) fn counted_at(bytes: &[u8]) -> (&[u8], &[u8])
    requires { BeginsWith counted_bytes IsAny bytes.now }
    ensures { (xs : List ℕ) → (rest : List ℕ) → bytes.now ≡ counted_bytes xs ++ rest → (result.0.now ≡ xs) × (result.1.now ≡ rest) }
{
    let count = bytes[0] as usize;
    bytes[1..].split_at(count)
}

/// The text behind its length, and what follows.
fn text_at(bytes: &[u8]) -> (&str, &[u8])
    requires { BeginsWith counted_bytes IsUtf8 bytes.now }
    ensures { (xs : List ℕ) → (rest : List ℕ) → bytes.now ≡ counted_bytes xs ++ rest → (result.0.now ≡ xs) × (result.1.now ≡ rest) }
{
    let (text, rest) = counted_at(bytes);
    match std::str::from_utf8(text) {
        Ok(text) => (text, rest),
        Err(_) => unreachable!(),
    }
}

/// The label behind its length, and what follows.
fn label_at(alloc: Global, bytes: &[u8]) -> Result<(Label, &[u8]), AllocError>
    requires { BeginsWith counted_bytes IsLabel bytes.now }
    ensures { (a : List ℕ) → (rest : List ℕ) → bytes.now ≡ counted_bytes a ++ rest → IfOk result (λ y. (y.0 ≡ a) × (y.1.now ≡ rest)) }
{
    let (text, rest) = text_at(bytes);
    Ok((Label::copy_of(alloc, text)?, rest))
}

/// The name behind its length, and what follows.
fn name_at(alloc: Global, bytes: &[u8]) -> Result<(Name, &[u8]), AllocError>
    requires { BeginsWith counted_bytes IsName bytes.now }
    ensures { (a : List ℕ) → (rest : List ℕ) → bytes.now ≡ counted_bytes a ++ rest → IfOk result (λ y. (y.0 ≡ a) × (y.1.now ≡ rest)) }
{
    let (text, rest) = text_at(bytes);
    match Name::read(alloc, text) {
        Ok(name) => Ok((name, rest)),
        Err(PathFault::Memory) => Err(AllocError),
        Err(_) => unreachable!(),
    }
}

/// Goes one label further down, where a path may.
fn push(path: &mut Path, label: Label) -> Result<(), AllocError>
    requires { length path.old < LABELS_MAX }
    ensures { IfOk result (λ _. path.new ≡ path.old ++ label ∷ []) }
{
    match path.push(label) {
        Ok(()) => Ok(()),
        Err(PathFault::Memory) => Err(AllocError),
        Err(_) => unreachable!(),
    }
}

/// The path of so many labels, and what follows.
fn labels_at(alloc: Global, count: u8, bytes: &[u8]) -> Result<(Path, &[u8]), AllocError>
    requires { BeginsWith (flat_map counted_bytes) (IsPathOf count) bytes.now }
    ensures { (p : Path) → (rest : List ℕ) → count ≡ length p → bytes.now ≡ flat_map counted_bytes p ++ rest → IfOk result (λ y. (y.0 ≡ p) × (y.1.now ≡ rest)) }
{
    let mut path = Path::root(alloc);
    let mut rest = bytes;
    for _ in 0..count {
        let (label, behind) = label_at(alloc, rest)?;
        push(&mut path, label)?;
        rest = behind;
    }
    Ok((path, rest))
}

/// The path behind the number of its labels, and what follows.
fn path_at(alloc: Global, bytes: &[u8]) -> Result<(Path, &[u8]), AllocError>
    requires { BeginsWith path_bytes IsPath bytes.now }
    ensures { (p : Path) → (rest : List ℕ) → bytes.now ≡ path_bytes p ++ rest → IfOk result (λ y. (y.0 ≡ p) × (y.1.now ≡ rest)) }
{
    labels_at(alloc, bytes[0], &bytes[1..])
}

/// What follows so many labels.
fn behind_labels(count: u8, bytes: &[u8]) -> &[u8]
    requires { BeginsWith (flat_map counted_bytes) (IsPathOf count) bytes.now }
    ensures { (p : Path) → (rest : List ℕ) → count ≡ length p → bytes.now ≡ flat_map counted_bytes p ++ rest → result.now ≡ rest }
{
    let mut rest = bytes;
    for _ in 0..count {
        let (_, behind) = counted_at(rest);
        rest = behind;
    }
    rest
}

/// What follows the path behind the number of its labels.
fn behind_path(bytes: &[u8]) -> &[u8]
    requires { BeginsWith path_bytes IsPath bytes.now }
    ensures { (p : Path) → (rest : List ℕ) → bytes.now ≡ path_bytes p ++ rest → result.now ≡ rest }
{
    behind_labels(bytes[0], &bytes[1..])
}

/// The place of a name and a path, and what follows.
fn place_at(alloc: Global, bytes: &[u8]) -> Result<(Loc, &[u8]), AllocError>
    requires { BeginsWith place_bytes IsPlace bytes.now }
    ensures { (q : Loc) → (rest : List ℕ) → bytes.now ≡ place_bytes q ++ rest → IfOk result (λ y. (y.0 ≡ q) × (y.1.now ≡ rest)) }
{
    let (db, rest) = name_at(alloc, bytes)?;
    let (path, rest) = path_at(alloc, rest)?;
    Ok((Loc { db, path }, rest))
}

/// Of a copy the source place, and what follows.
fn source_at(alloc: Global, op: RecOp, bytes: &[u8]) -> Result<(Option<Loc>, &[u8]), AllocError>
    requires { BeginsWith source_bytes (IsSourceOf op) bytes.now }
    ensures { (q : Option Loc) → (rest : List ℕ) → IsSourceOf op q → bytes.now ≡ source_bytes q ++ rest → IfOk result (λ y. (y.0 ≡ q) × (y.1.now ≡ rest)) }
{
    match op {
        RecOp::C => {
            let (place, rest) = place_at(alloc, bytes)?;
            Ok((Some(place), rest))
        }
        _ => Ok((None, bytes)),
    }
}

/// What follows the source place of a copy.
fn behind_source(op: RecOp, bytes: &[u8]) -> &[u8]
    requires { BeginsWith source_bytes (IsSourceOf op) bytes.now }
    ensures { (q : Option Loc) → (rest : List ℕ) → IsSourceOf op q → bytes.now ≡ source_bytes q ++ rest → result.now ≡ rest }
{
    match op {
        RecOp::C => {
            let (_, rest) = counted_at(bytes);
            behind_path(rest)
        }
        _ => bytes,
    }
}

/// The first record, and what follows.
pub(crate) fn record_at(alloc: Global, bytes: &[u8]) -> Result<(Record, &[u8]), AllocError>
    requires { BeginsWith record_bytes IsPackable bytes.now }
    ensures { (r : Record) → (rest : List ℕ) → IsPackable r → bytes.now ≡ record_bytes r ++ rest → IfOk result (λ y. (y.0 ≡ r) × (y.1.now ≡ rest)) }
{
    let (tid, rest) = tid_at(bytes);
    let (op, rest) = op_at(rest);
    let (path, rest) = path_at(alloc, rest)?;
    let (src, rest) = source_at(alloc, op, rest)?;
    let db = Name::target(alloc)?;
    let loc = Loc { db, path };
    Ok((Record { tid, op, loc, src }, rest))
}

/// What follows the first record.
pub(crate) fn behind_record(bytes: &[u8]) -> &[u8]
    requires { BeginsWith record_bytes IsPackable bytes.now }
    ensures { (r : Record) → (rest : List ℕ) → IsPackable r → bytes.now ≡ record_bytes r ++ rest → result.now ≡ rest }
{
    let (_, rest) = tid_at(bytes);
    let (op, rest) = op_at(rest);
    behind_source(op, behind_path(rest))
}

/// The operation of the first record.
pub(crate) fn first_op(bytes: &[u8]) -> RecOp
    requires { BeginsWith record_bytes IsPackable bytes.now }
    ensures { (r : Record) → (rest : List ℕ) → IsPackable r → bytes.now ≡ record_bytes r ++ rest → result ≡ r.op }
{
    let (_, rest) = tid_at(bytes);
    let (op, _) = op_at(rest);
    op
}

/// The labels of the path behind the number of its labels, each behind its length.
fn labels_of(path: &[u8]) -> &[u8]
    requires { BeginsWith path_bytes IsPath path.now }
    ensures { (p : Path) → (rest : List ℕ) → path.now ≡ path_bytes p ++ rest → result.now ≡ flat_map counted_bytes p }
{
    let behind = behind_path(path);
    let labels = &path[1..];
    let (front, _) = labels.split_at(labels.len() - behind.len());
    front
}

/// The same without the last of these labels; none where there is none.
fn labels_above(path: &[u8]) -> Option<&[u8]>
    requires { BeginsWith path_bytes IsPath path.now }
    ensures { (p : Path) → (rest : List ℕ) → path.now ≡ path_bytes p ++ rest → option_map (λ k. k.now) result ≡ option_map (flat_map counted_bytes) (parent p) }
{
    let count = path[0];
    if count == 0 {
        return None;
    }
    let labels = &path[1..];
    let last = behind_labels(count - 1, labels);
    let (front, _) = labels.split_at(labels.len() - last.len());
    Some(front)
}

/// The labels of the place of the first record, each behind its length.
pub(crate) fn first_labels(bytes: &[u8]) -> &[u8]
    requires { BeginsWith record_bytes IsPackable bytes.now }
    ensures { (r : Record) → (rest : List ℕ) → IsPackable r → bytes.now ≡ record_bytes r ++ rest → result.now ≡ flat_map counted_bytes r.loc.path }
{
    let (_, rest) = tid_at(bytes);
    let (_, path) = op_at(rest);
    labels_of(path)
}

/// The labels of the place above that of the first record, each behind its length; none where its place is a root.
pub(crate) fn first_above(bytes: &[u8]) -> Option<&[u8]>
    requires { BeginsWith record_bytes IsPackable bytes.now }
    ensures { (r : Record) → (rest : List ℕ) → IsPackable r → bytes.now ≡ record_bytes r ++ rest → option_map (λ k. k.now) result ≡ option_map (flat_map counted_bytes) (parent r.loc.path) }
{
    let (_, rest) = tid_at(bytes);
    let (_, path) = op_at(rest);
    labels_above(path)
}

/// What the first record says of its place. Its place isn't read.
pub(crate) fn mark_at(alloc: Global, bytes: &[u8]) -> Result<RowMark, AllocError>
    requires { BeginsWith record_bytes IsPackable bytes.now }
    ensures { (r : Record) → (rest : List ℕ) → IsPackable r → bytes.now ≡ record_bytes r ++ rest → IfOk result (λ m. m ≡ mark_by r.op r.src) }
{
    let (_, rest) = tid_at(bytes);
    let (op, rest) = op_at(rest);
    let (src, _) = source_at(alloc, op, behind_path(rest))?;
    Ok(mark_of(op, src))
}

/// What a record of this letter and source says of its place.
fn mark_of(op: RecOp, src: Option<Loc>) -> RowMark
    ensures { result ≡ mark_by op src }
{
    match op {
        RecOp::I => RowMark::Made,
        RecOp::C => match src {
            Some(place) => RowMark::Copied(place),
            None => RowMark::Kept,
        },
        RecOp::D => RowMark::Gone,
        RecOp::K => RowMark::Kept,
    }
}
