//! What a value's places reach: looked at before any of them is kept.
ghost use Rattle.std.specs.Prelude.{◌≡◌, ◌<◌, ◌^◌, IfOk, OnOk, length};
ghost use Rattle.serde_json.specs.View.{view, items_view, members_view};
ghost use Rattle.cp_sources.specs.Places.{content_of};
ghost use Rattle.cp_sources.specs.Surveys.{spot_below, survey_of, survey_place};
ghost use Rattle.cp_sources.specs.Walks.{walk_below, walk_items, walk_members};

use crate::value::{index_text, is_whole, text_bytes};
use cp_model::PLACE_WEIGHT;
use serde_json::{Map, Value};
use std::alloc::{AllocError, Global};

/// Where a place lies: its labels, its size with that of the name, and the bytes of its last label.
#[derive(Clone, Copy)]
pub(crate) struct Spot {
    pub(crate) depth: u64,
    pub(crate) size: u64,
    pub(crate) last: u64,
}

/// The greatest numbers of any place, the number of places, their weight, and whether each number is whole.
#[derive(Clone, Copy)]
pub(crate) struct Survey {
    pub(crate) last: u64,
    pub(crate) depth: u64,
    pub(crate) size: u64,
    pub(crate) text: u64,
    pub(crate) places: u64,
    pub(crate) weight: u64,
    pub(crate) whole: bool,
}

impl Spot {
    fn child(self, label: &str) -> Spot
        ensures { result ≡ spot_below self label.now }
    {
        let last = label.len() as u64;
        Spot {
            depth: self.depth.saturating_add(1),
            size: self.size.saturating_add(last).saturating_add(1),
            last,
        }
    }
}

impl Survey {
    /// That of a value whose root has a name of so many bytes. Costs the places and the bytes of their labels.
    pub(crate) fn of(alloc: Global, name: &str, value: &Value) -> Result<Survey, AllocError>
        ensures { IfOk result (λ s. s ≡ survey_of (length name.now) (view value.now)) }
    {
        let mut seen = Survey {
            last: 0,
            depth: 0,
            size: 0,
            text: 0,
            places: 0,
            weight: 0,
            whole: true,
        };
        let root = Spot {
            depth: 0,
            size: name.len() as u64,
            last: 0,
        };
        seen.note(root, value);
        note_below(alloc, &mut seen, root, value)?;
        Ok(seen)
    }

    fn note(&mut self, at: Spot, value: &Value)
        ensures { self.new ≡ survey_place at (content_of (view value.now)) self.old }
    {
        let bytes = text_bytes(value);
        let is_whole = is_whole(value);
        let weight = self
            .weight
            .saturating_add(PLACE_WEIGHT)
            .saturating_add(at.last);
        self.last = self.last.max(at.last);
        self.depth = self.depth.max(at.depth);
        self.size = self.size.max(at.size);
        self.text = self.text.max(bytes);
        self.places = self.places.saturating_add(1);
        self.weight = weight.saturating_add(bytes);
        self.whole = self.whole && is_whole;
    }
}

/// Notes the places below that of the value.
#[cycle(note)]
fn note_below(alloc: Global, seen: &mut Survey, at: Spot, value: &Value) -> Result<(), AllocError>
    ensures { OnOk result (seen.new ≡ walk_below spot_below survey_place at (view value.now) seen.old) }
{
    match value {
        Value::Array(items) => note_items(alloc, seen, at, items),
        Value::Object(members) => note_members(alloc, seen, at, members),
        _ => Ok(()),
    }
}

#[cycle(note)]
fn note_items(
    alloc: Global,
    seen: &mut Survey,
    at: Spot,
    items: &Vec<Value>,
) -> Result<(), AllocError>
    ensures { OnOk result (seen.new ≡ walk_items spot_below survey_place at 0 (items_view items.now.items) seen.old) }
{
    let mut i = 0u64;
    for item in items {
        let label = index_text(alloc, i)?;
        let below = at.child(label.as_str());
        seen.note(below, item);
        note_below(alloc, seen, below, item)?;
        i += 1;
    }
    Ok(())
}

#[cycle(note)]
fn note_members(
    alloc: Global,
    seen: &mut Survey,
    at: Spot,
    members: &Map<String, Value>,
) -> Result<(), AllocError>
    ensures { OnOk result (seen.new ≡ walk_members spot_below survey_place at (members_view members.now.entries) seen.old) }
{
    for (key, member) in members.iter() {
        let below = at.child(key.as_str());
        seen.note(below, member);
        note_below(alloc, seen, below, member)?;
    }
    Ok(())
}
