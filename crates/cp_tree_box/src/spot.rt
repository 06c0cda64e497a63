ghost use Rattle.std.specs.Prelude.{◌≡◌, ◌<◌, ◌≤◌, ◌+◌, length};
ghost use Rattle.cp_tree_box.specs.Tallies.{root_spot, child_spot, spot_at, IsNear};

use cp_path::Label;

/// How far below a root a place lies: its labels, their bytes with 1 for each, and the bytes of the last one.
#[derive(Clone, Copy)]
pub(crate) struct Spot {
    pub(crate) depth: u32,
    pub(crate) size: u32,
    pub(crate) last: u32,
}

impl Spot {
    /// Gives the place of a root.
    pub(crate) fn root() -> Spot
        ensures { result ≡ root_spot }
    {
        Spot {
            depth: 0,
            size: 0,
            last: 0,
        }
    }

    /// Goes one label further down.
    pub(crate) fn child(self, label: &Label) -> Spot
        requires { IsNear (child_spot self label.now) }
        ensures { result ≡ child_spot self label.now }
    {
        let last = label.as_str().len() as u32;
        Spot {
            depth: self.depth + 1,
            size: self.size + last + 1,
            last,
        }
    }

    /// Goes these labels further down. Costs their number.
    pub(crate) fn below(self, labels: &[Label]) -> Spot
        requires { IsNear (spot_at self labels.now) }
        ensures { result ≡ spot_at self labels.now }
    {
        match labels.split_first() {
            None => self,
            Some((first, rest)) => self.child(first).below(rest),
        }
    }
}
