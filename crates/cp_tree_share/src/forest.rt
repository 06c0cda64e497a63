ghost use Rattle.std.specs.Prelude.{◌≡◌, ◌≤◌, [], ◌∷◌, IfOk};
ghost use Rattle.cp_path.specs.Text.{text_cmp};
ghost use Rattle.cp_tree.specs.Branch.{children_len};
ghost use Rattle.cp_tree.specs.Sums.{sums_of, AreChildren, AreSmall};

use cp_path::Label;
use cp_tree::{SharedContent, SharedLabel, Sums};
use std::alloc::{AllocError, Global};
use std::cmp::Ordering;
use std::marker::Model;
use std::rc::Rc;

/// Siblings in order of their labels, in a balanced tree, each with what is below it.
#[cycle(share)]
#[derive(Drop)]
pub(crate) struct Forest {
    pub(crate) open: Open,
}

#[cycle(share)]
#[derive(Drop)]
pub(crate) enum Open {
    Tip,
    Full(Rc<Fork>),
}

/// A sibling, those before and after it, how high the tree of all these is, and what they add up to.
#[cycle(share)]
#[derive(Drop)]
pub(crate) struct Fork {
    pub(crate) left: Forest,
    pub(crate) entry: Entry,
    pub(crate) right: Forest,
    pub(crate) height: u32,
    pub(crate) sums: Sums,
}

/// A label, and the node that it leads to.
#[cycle(share)]
#[derive(Drop)]
pub(crate) struct Entry {
    pub(crate) label: SharedLabel,
    pub(crate) node: ShareNode,
}

/// A node with the nodes below it, seen as the tree of its places. It shares what it holds.
#[cycle(share)]
#[derive(Drop)]
pub(crate) struct ShareNode {
    pub(crate) content: SharedContent,
    pub(crate) children: Forest,
}

impl Model for Forest {
    ghost use Rattle.std.specs.Prelude.{ℕ, List, ◌*◌, ◌+◌};
    ghost use Rattle.std.specs.Coded.{coded×, coded_list, coded_ℕ};
    ghost use Rattle.cp_model.specs.Codes.{content_code};
    ghost use Rattle.cp_model.specs.Keyed.{code};
    ghost use Rattle.cp_model.specs.Tree.{Tree};
    ghost use Rattle.cp_tree.specs.Branch.{children_len};

    ghost Value = { List (List ℕ × Tree) × ℕ };

    ghost coded = { coded× (coded_list (coded× (coded_list coded_ℕ) (code content_code))) coded_ℕ };

    ghost use Rattle.cp_tree_share.specs.Siblings.{siblings_of, AreBalanced};

    ghost view = { λ a. siblings_of a.open };

    ghost invariant = { λ a. AreBalanced a.open };

    ghost size = { λ d. 3 * children_len d.0 + 2 };

    ghost use Rattle.cp_tree_share.specs.Falls.{forest_falls};

    ghost size_decreases = { λ a h. forest_falls a.open h };
}

impl Model for Entry {
    ghost use Rattle.std.specs.Prelude.{ℕ, List, ◌*◌, ◌+◌};
    ghost use Rattle.std.specs.Coded.{coded×, coded_list, coded_ℕ};
    ghost use Rattle.cp_model.specs.Codes.{content_code};
    ghost use Rattle.cp_model.specs.Keyed.{code, len};
    ghost use Rattle.cp_model.specs.Tree.{Tree};

    ghost Value = { List ℕ × Tree };

    ghost coded = { coded× (coded_list coded_ℕ) (code content_code) };

    ghost view = { λ a. (a.label, a.node) };

    ghost size = { λ d. 3 * len d.1 + 1 };

    ghost use Rattle.cp_tree_share.specs.Falls.{entry_falls};

    ghost size_decreases = { entry_falls };
}

impl Model for ShareNode {
    ghost use Rattle.std.specs.Prelude.{◌*◌};
    ghost use Rattle.cp_model.specs.Codes.{content_code};
    ghost use Rattle.cp_model.specs.Keyed.{code, len};
    ghost use Rattle.cp_model.specs.Tree.{Tree};

    ghost Value = { Tree };

    ghost coded = { code content_code };

    ghost use Rattle.cp_tree_share.specs.Nodes.{tree_inside, IsGoodNode};

    ghost view = { tree_inside };

    ghost invariant = { IsGoodNode };

    ghost size = { λ d. 3 * len d };

    ghost use Rattle.cp_tree_share.specs.Falls.{node_falls};

    ghost size_decreases = { node_falls };
}

impl Entry {
    /// Makes the entry of a label and a node.
    pub(crate) fn of(alloc: Global, label: &Label, node: ShareNode) -> Result<Entry, AllocError>
        ensures { IfOk result (λ e. e ≡ (label.now, node)) }
    {
        let label = SharedLabel::of(alloc, label)?;
        Ok(Entry { label, node })
    }

    /// Shares the label and the node.
    pub(crate) fn share(&self) -> Result<Entry, AllocError>
        ensures { IfOk result (λ e. e ≡ self.now) }
    {
        Ok(Entry {
            label: self.label.share()?,
            node: self.node.share()?,
        })
    }

    /// Compares a label with that of this entry.
    pub(crate) fn order_of(&self, label: &Label) -> Ordering
        ensures { result ≡ text_cmp label.now self.now.0 }
    {
        self.label.order_of(label)
    }

    /// Compares the label of another entry with that of this one.
    pub(crate) fn order_of_entry(&self, other: &Entry) -> Ordering
        ensures { result ≡ text_cmp other.now.0 self.now.0 }
    {
        self.label.order_of_shared(&other.label)
    }

    /// Gives what the subtree adds to its siblings.
    pub(crate) fn sums(&self) -> Sums
        requires { AreChildren (self.now ∷ []) }
        ensures { result ≡ sums_of (self.now ∷ []) }
    {
        let node = &self.node;
        let label = self.label.as_str().len();
        let text = node.content.text_bytes();
        node.children.sums().seen_above(label, text)
    }
}

impl Forest {
    /// Makes the forest of no siblings. Takes no memory.
    pub(crate) fn new() -> Forest
        ensures { result ≡ ([], 0) }
    {
        Forest { open: Open::Tip }
    }

    /// Gives the height of the tree of the siblings, which is kept.
    pub(crate) fn height(&self) -> u32
        ensures is { result ≡ self.now.1 }
        ensures low { result ≤ children_len self.now.0 }
    {
        match &self.open {
            Open::Tip => 0,
            Open::Full(fork) => fork.height,
        }
    }

    /// Gives what the places add up to, which is kept.
    pub(crate) fn sums(&self) -> Sums
        ensures is { result ≡ sums_of self.now.0 }
        ensures small { AreSmall result }
    {
        match &self.open {
            Open::Tip => Sums::none(),
            Open::Full(fork) => fork.sums,
        }
    }

    /// Shares the root.
    pub(crate) fn share(&self) -> Result<Forest, AllocError>
        ensures { IfOk result (λ t. t ≡ self.now) }
    {
        match &self.open {
            Open::Tip => Ok(Forest { open: Open::Tip }),
            Open::Full(fork) => Ok(Forest {
                open: Open::Full(fork.clone()?),
            }),
        }
    }
}

impl ShareNode {
    /// Shares the content and the root of the children.
    pub(crate) fn share(&self) -> Result<ShareNode, AllocError>
        ensures { IfOk result (λ t. t ≡ self.now) }
    {
        Ok(ShareNode {
            content: self.content.share()?,
            children: self.children.share()?,
        })
    }
}
