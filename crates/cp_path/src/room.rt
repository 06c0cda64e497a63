ghost use Rattle.std.specs.Prelude.{◌≡◌, ◌≤◌, ◌<◌, ◌+◌, [], ◌∷◌, ◌++◌, length, drop, map, false, true, sum_by, IfOk, OnOk, IsUtf8};
ghost use Rattle.std.specs.List.{flat_map, AllByRecursion};
ghost use Rattle.arrayvec.specs.ArrayVec.{array_vec_len};
ghost use Rattle.cp_path.specs.Text.{is_name};
ghost use Rattle.cp_path.specs.Place.{at_target, below_place, over_limit};

use crate::fault::PathFault;
use crate::label::Label;
use crate::limits::{LABEL_MAX, LABELS_MAX, LOC_MAX, NAME_MAX};
use crate::loc::Loc;
use crate::name::Name;
use crate::path::Path;
use arrayvec::{ArrayString, ArrayVec};
use std::alloc::{AllocError, Global};
use std::marker::Model;

/// A place in room of its own, which has space for any place within the limits, so that setting it takes no memory.
#[derive(Drop)]
pub struct LocRoom {
    name: ArrayString<NAME_MAX>,
    /// The length of each label.
    lengths: ArrayVec<u8, LABELS_MAX>,
    /// The labels' bytes, one after another.
    bytes: ArrayVec<u8, LOC_MAX>,
}

impl Model for LocRoom {
    ghost use Rattle.cp_path.specs.declared.loc.Loc.{Loc};
    ghost use Rattle.cp_path.specs.Room.{labels_in, IsRoom};

    ghost Value = { Loc };

    ghost view = { λ r. record { db = r.name.bytes; path = labels_in r.lengths.items r.bytes.items } };

    ghost invariant = { λ r. IsRoom r.name.bytes r.lengths.items r.bytes.items };
}

impl LocRoom {
    /// Room that holds the root of the database that curators change.
    pub fn new() -> LocRoom
        ensures { result ≡ at_target [] }
    {
        let mut name = ArrayString::new();
        name.push_str("T");
        LocRoom {
            name,
            lengths: ArrayVec::new(),
            bytes: ArrayVec::new(),
        }
    }

    /// Holds the place below `to` at the labels of the path after the first `skip`. Costs its size.
    pub fn set(&mut self, to: &Loc, path: &Path, skip: usize)
        requires labels { skip ≤ length path.now }
        requires fits { over_limit (below_place to.now (drop skip path.now)) ≡ false }
        ensures { self.new ≡ below_place to.now (drop skip path.now) }
    {
        self.name.clear();
        self.name.push_str(to.db.as_str());
        self.lengths.clear();
        self.bytes.clear();
        push_labels(&mut self.lengths, &mut self.bytes, to.path.labels());
        push_labels(&mut self.lengths, &mut self.bytes, &path.labels()[skip..]);
    }

    /// The place that is held. Costs its size.
    pub fn to_loc(&self, alloc: Global) -> Result<Loc, AllocError>
        ensures { IfOk result (λ q. q ≡ self.now) }
    {
        let mut path = Path::root(alloc);
        let mut rest = self.bytes.as_slice();
        for count in self.lengths.as_slice() {
            let (bytes, behind) = rest.split_at(*count as usize);
            let label = label_of(alloc, bytes)?;
            push(&mut path, label)?;
            rest = behind;
        }
        let db = name_of(alloc, self.name.as_str())?;
        Ok(Loc { db, path })
    }
}

/// Appends the labels' lengths and their bytes.
fn push_labels(
    lengths: &mut ArrayVec<u8, LABELS_MAX>,
    bytes: &mut ArrayVec<u8, LOC_MAX>,
    labels: &[Label],
)
    requires count { array_vec_len lengths.old + length labels.now ≤ LABELS_MAX }
    requires size { array_vec_len bytes.old + sum_by length labels.now ≤ LOC_MAX }
    ensures lengths { lengths.new.items ≡ lengths.old.items ++ map length labels.now }
    ensures bytes { bytes.new.items ≡ bytes.old.items ++ flat_map (λ a. a) labels.now }
    ensures texts { AllByRecursion IsUtf8 labels.now }
{
    for label in labels {
        let text = label.as_str().as_bytes();
        lengths.push(text.len() as u8);
        push_bytes(bytes, text);
    }
}

/// Appends bytes for which there is space.
fn push_bytes(all: &mut ArrayVec<u8, LOC_MAX>, bytes: &[u8])
    requires { array_vec_len all.old + length bytes.now ≤ LOC_MAX }
    ensures { all.new.items ≡ all.old.items ++ bytes.now }
{
    for byte in bytes {
        all.push(*byte);
    }
}

/// The label of these bytes.
fn label_of(alloc: Global, bytes: &[u8]) -> Result<Label, AllocError>
    requires text { IsUtf8 bytes.now }
    requires short { length bytes.now ≤ LABEL_MAX }
    ensures { IfOk result (λ a. a ≡ bytes.now) }
{
    match std::str::from_utf8(bytes) {
        Ok(text) => Label::copy_of(alloc, text),
        Err(_) => unreachable!(),
    }
}

/// Goes one label further down, where a path may.
fn push(path: &mut Path, label: Label) -> Result<(), AllocError>
    requires { length path.old < LABELS_MAX }
    ensures { OnOk result (path.new ≡ path.old ++ label ∷ []) }
{
    match path.push(label) {
        Ok(()) => Ok(()),
        Err(PathFault::Memory) => Err(AllocError),
        Err(_) => unreachable!(),
    }
}

/// The name that the text is.
fn name_of(alloc: Global, text: &str) -> Result<Name, AllocError>
    requires { is_name text.now ≡ true }
    ensures { IfOk result (λ a. a ≡ text.now) }
{
    match Name::read(alloc, text) {
        Ok(name) => Ok(name),
        Err(PathFault::Memory) => Err(AllocError),
        Err(_) => unreachable!(),
    }
}
