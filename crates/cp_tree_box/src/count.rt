ghost use Rattle.std.specs.Prelude.{◌^◌, ◌≡◌, ◌≤◌, ◌<◌, ◌+◌, ◌⊎◌, ℕ, IfOk, length, replicate, slice_index};
ghost use Rattle.cp_model.specs.Tree.{text_bytes};
ghost use Rattle.cp_tree_box.specs.Tallies.{IsNear, AreNear, Gauge, place_counts, tree_counts, tally_counts};

use crate::node::BoxNode;
use crate::spot::Spot;
use crate::tally::Tally;
use cp_model::{Content, PLACE_WEIGHT};
use cp_path::{LABELS_MAX, LOC_MAX, Value};
use cp_tree::Reach;
use std::alloc::{AllocError, Global};

/// Counts the bytes of a text leaf, and 0 for all else.
pub(crate) fn text_bytes(content: &Content) -> u64
    ensures { result ≡ text_bytes content.now }
{
    match content {
        Content::Leaf(Value::Text(text)) => text.items.len() as u64,
        _ => 0,
    }
}

/// Finds the last index at which the count isn't 0, or else 0. Costs the length.
fn highest(counts: &[u32]) -> u32
    requires { length counts.now ≤ LOC_MAX }
    ensures last { (k : ℕ) → result < k → slice_index counts.now k ≡ 0 }
    ensures some { (result ≡ 0) ⊎ (0 < slice_index counts.now result) }
{
    let mut top: usize = 0;
    for i in 0..counts.len() {
        if counts[i] != 0 {
            top = i;
        }
    }
    top as u32
}

impl Tally {
    /// Makes the tally of no place.
    pub(crate) fn new(alloc: Global) -> Result<Tally, AllocError>
        ensures places { IfOk result (λ t. t.places ≡ 0) }
        ensures weight { IfOk result (λ t. t.weight ≡ 0) }
        ensures depths { IfOk result (λ t. t.depths.items ≡ replicate (LABELS_MAX + 1) 0) }
        ensures sizes { IfOk result (λ t. t.sizes.items ≡ replicate LOC_MAX 0) }
    {
        Ok(Tally {
            places: 0,
            weight: 0,
            depths: Vec::from_elem(alloc, 0, LABELS_MAX + 1)?,
            sizes: Vec::from_elem(alloc, 0, LOC_MAX)?,
        })
    }

    /// Adds one place.
    fn add_one(&mut self, at: Spot, content: &Content)
        requires near { IsNear at }
        requires room { (g : Gauge) → tally_counts self.old g + place_counts g at content.now < 2 ^ 32 }
        ensures { (g : Gauge) → tally_counts self.new g ≡ tally_counts self.old g + place_counts g at content.now }
    {
        self.places += 1;
        self.weight += PLACE_WEIGHT + u64::from(at.last) + text_bytes(content);
        self.depths[at.depth as usize] += 1;
        self.sizes[at.size as usize] += 1;
    }

    /// Takes off one place.
    fn subtract_one(&mut self, at: Spot, content: &Content)
        requires near { IsNear at }
        requires there { (g : Gauge) → place_counts g at content.now ≤ tally_counts self.old g }
        ensures { (g : Gauge) → tally_counts self.new g + place_counts g at content.now ≡ tally_counts self.old g }
    {
        self.places -= 1;
        self.weight -= PLACE_WEIGHT + u64::from(at.last) + text_bytes(content);
        self.depths[at.depth as usize] -= 1;
        self.sizes[at.size as usize] -= 1;
    }

    /// Adds the places of a subtree that lies here. Costs their number.
    pub(crate) fn add(&mut self, at: Spot, node: &BoxNode)
        requires near { AreNear at node.now }
        requires room { (g : Gauge) → tally_counts self.old g + tree_counts g at node.now < 2 ^ 32 }
        ensures { (g : Gauge) → tally_counts self.new g ≡ tally_counts self.old g + tree_counts g at node.now }
    {
        self.add_one(at, &node.content);
        for (label, child) in &node.children {
            self.add(at.child(label), child);
        }
    }

    /// Takes off the places of a subtree that lies here. Costs their number.
    pub(crate) fn subtract(&mut self, at: Spot, node: &BoxNode)
        requires near { AreNear at node.now }
        requires there { (g : Gauge) → tree_counts g at node.now ≤ tally_counts self.old g }
        ensures { (g : Gauge) → tally_counts self.new g + tree_counts g at node.now ≡ tally_counts self.old g }
    {
        self.subtract_one(at, &node.content);
        for (label, child) in &node.children {
            self.subtract(at.child(label), child);
        }
    }

    /// Measures how far the tree reaches. Costs the numbers that are kept.
    pub(crate) fn reach(&self) -> Reach
        ensures nodes { result.nodes ≡ self.now.places }
        ensures inner { result.inner ≡ self.now.weight }
        ensures depth { (k : ℕ) → result.depth < k → slice_index self.now.depths.items k ≡ 0 }
        ensures some_depth { (result.depth ≡ 0) ⊎ (0 < slice_index self.now.depths.items result.depth) }
        ensures size { (k : ℕ) → result.size < k → slice_index self.now.sizes.items k ≡ 0 }
        ensures some_size { (result.size ≡ 0) ⊎ (0 < slice_index self.now.sizes.items result.size) }
    {
        Reach {
            nodes: self.places,
            inner: self.weight,
            depth: highest(&self.depths),
            size: highest(&self.sizes),
        }
    }

    /// Makes an equal tally. Costs the numbers that are kept.
    pub(crate) fn copy(&self) -> Result<Tally, AllocError>
        ensures { IfOk result (λ t. (g : Gauge) → tally_counts t g ≡ tally_counts self.now g) }
    {
        Ok(Tally {
            places: self.places,
            weight: self.weight,
            depths: self.depths.clone()?,
            sizes: self.sizes.clone()?,
        })
    }
}
