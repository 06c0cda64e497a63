//! The room that a tree has, as it is read.
ghost use Rattle.std.specs.Prelude.{◌≡◌, ◌≤◌, ◌<◌, ◌*◌, length};
ghost use Rattle.cp_model.specs.declared.limits.TheConstants.{PLACE_WEIGHT};
ghost use Rattle.cp_model.specs.Place.{Label};
ghost use Rattle.cp_frame.specs.Rooms.{whole_room, most_children, most_bytes, with_children, below_label};

use cp_model::{NODES_MAX, PLACE_WEIGHT, WEIGHT_MAX};
use cp_path::{LABEL_MAX, LABELS_MAX, LOC_MAX, NAME_MAX};

/// What the places of a tree may still take: how many labels and how large a path below this one may be, how many places
/// may still be announced, and what these, the labels and the texts to come may weigh.
#[derive(Clone, Copy, Drop)]
pub(crate) struct Room {
    pub(crate) levels: usize,
    pub(crate) size: usize,
    pub(crate) nodes: usize,
    pub(crate) weight: usize,
}

impl Room {
    /// The room of a whole tree whose places have a name of so many bytes.
    pub(crate) fn whole(name: usize) -> Room
        requires { name ≤ NAME_MAX }
        ensures { result ≡ whole_room name }
    {
        Room {
            levels: LABELS_MAX,
            size: LOC_MAX - name,
            nodes: NODES_MAX as usize - 1,
            weight: (WEIGHT_MAX - PLACE_WEIGHT) as usize,
        }
    }

    /// How many children a node may have here.
    pub(crate) fn most_children(&self) -> usize
        ensures { result ≡ most_children self.now }
    {
        if self.levels == 0 || self.size == 0 {
            return 0;
        }
        self.nodes.min(self.weight / PLACE_WEIGHT as usize)
    }

    /// Takes a place, and what it weighs without its label and its text, for each of so many children.
    pub(crate) fn announce(&mut self, count: usize)
        requires { count ≤ most_children self.old }
        ensures { self.new ≡ with_children count self.old }
    {
        self.nodes -= count;
        self.weight -= PLACE_WEIGHT as usize * count;
    }

    /// The most bytes of the label of a child.
    pub(crate) fn most_bytes(&self) -> usize
        ensures { result ≡ most_bytes self.now }
    {
        LABEL_MAX.min(self.size.saturating_sub(1)).min(self.weight)
    }

    /// The room of the tree at the label of a child, which has so many bytes.
    pub(crate) fn below(&self, bytes: usize) -> Room
        requires level { 0 < self.now.levels }
        requires size { bytes < self.now.size }
        requires weight { bytes ≤ self.now.weight }
        ensures { (a : Label) → length a ≡ bytes → result ≡ below_label a self.now }
    {
        Room {
            levels: self.levels - 1,
            size: self.size - (bytes + 1),
            nodes: self.nodes,
            weight: self.weight - bytes,
        }
    }
}
