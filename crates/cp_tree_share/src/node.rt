ghost use Rattle.std.specs.Prelude.{◌≡◌, [], ◌∷◌, ◌++◌, map, true, IsTrue, IfOk, OnOk, OnErr, IfSome, IfNone};
ghost use Rattle.std.specs.declared.option.Option.TheVariants.{Some, None};
ghost use Rattle.cp_model.specs.Place.{child};
ghost use Rattle.cp_model.specs.Keyed.{get, entries};
ghost use Rattle.cp_model.specs.Subtrees.{entries_under, with_subtree, without, is_there};
ghost use Rattle.cp_model.specs.Tree.{IsRooted, is_node};
ghost use Rattle.cp_model.specs.declared.row.Content.TheVariants.{Node};
ghost use Rattle.cp_tree.specs.Branch.{sub, child_rows};
ghost use Rattle.cp_tree.specs.Rows.{entry_row, single, labels_at, reach_of};
ghost use Rattle.cp_tree.specs.Sums.{IsSmall};

use crate::forest::{Entry, Forest, Fork, Open, ShareNode};
use cp_model::{Content, Row};
use cp_path::{Label, Path};
use cp_tree::{Reach, SharedContent};
use std::alloc::{AllocError, Global};

/// Adds the row of a place. Costs its labels and the bytes of a text.
fn place_into(
    alloc: Global,
    content: &SharedContent,
    at: &[Label],
    out: &mut Vec<Row>,
) -> Result<(), AllocError>
    ensures { OnOk result (out.new.items ≡ out.old.items ++ entry_row (at.now, content.now) ∷ []) }
{
    let content = content.to_content()?;
    let Ok(path) = Path::of(alloc, at) else {
        return Err(AllocError);
    };
    out.push(Row { path, content })?;
    Ok(())
}

impl ShareNode {
    /// Makes a root alone.
    pub(crate) fn leaf(content: SharedContent) -> ShareNode
        ensures tree { result ≡ single content }
        ensures rooted { IsRooted result }
    {
        ShareNode {
            content,
            children: Forest::new(),
        }
    }

    /// Finds the node at the place. Costs a search among siblings for each label.
    pub(crate) fn find(&self, place: &[Label]) -> Option<&ShareNode>
        ensures there { IfSome result (λ n. n.now ≡ sub self.now place.now) }
        ensures rooted { IfSome result (λ n. IsRooted n.now) }
        ensures gone { IfNone result (get self.now place.now ≡ None) }
        ensures whole { IsRooted self.now }
    {
        let children = &self.children;
        match place.split_first() {
            None => Some(self),
            Some((first, rest)) => match children.find(first) {
                Some(entry) => entry.node.find(rest),
                None => None,
            },
        }
    }

    /// Finds the node at the label below the place.
    pub(crate) fn find_child(&self, place: &[Label], label: &Label) -> Option<&ShareNode>
        ensures there { IfSome result (λ n. n.now ≡ sub self.now (child place.now label.now)) }
        ensures rooted { IfSome result (λ n. IsRooted n.now) }
        ensures gone { IfNone result (get self.now (child place.now label.now) ≡ None) }
    {
        match self.find(place) {
            Some(node) => match node.children.find(label) {
                Some(entry) => Some(&entry.node),
                None => None,
            },
            None => None,
        }
    }

    /// Makes the tree with this entry in the place of a child with its label, or beside the others. Costs a logarithm.
    fn with_child(&self, alloc: Global, entry: &Entry) -> Result<ShareNode, AllocError>
        requires node { get self.now [] ≡ Some Node }
        requires rooted { IsRooted entry.now.1 }
        requires small { IsSmall (with_subtree (entry.now.0 ∷ []) (entries entry.now.1) self.now) }
        ensures tree { IfOk result (λ t. t ≡ with_subtree (entry.now.0 ∷ []) (entries entry.now.1) self.now) }
        ensures rooted { IfOk result (λ t. IsRooted t) }
    {
        let children = self.children.put(alloc, entry)?;
        let content = self.content.share()?;
        Ok(ShareNode { content, children })
    }

    /// Puts this entry in the place of a child with its label, or beside the others. Costs a logarithm. After an error the
    /// tree is as it was.
    fn set_child(&mut self, alloc: Global, entry: &Entry) -> Result<(), AllocError>
        requires node { get self.old [] ≡ Some Node }
        requires rooted { IsRooted entry.now.1 }
        requires small { IsSmall (with_subtree (entry.now.0 ∷ []) (entries entry.now.1) self.old) }
        ensures ok { OnOk result (self.new ≡ with_subtree (entry.now.0 ∷ []) (entries entry.now.1) self.old) }
        ensures err { OnErr result (self.new ≡ self.old) }
    {
        self.children.set(alloc, entry)?;
        Ok(())
    }

    /// Makes the tree without the child with the label. Costs a logarithm.
    fn without_child(&self, alloc: Global, label: &Label) -> Result<ShareNode, AllocError>
        requires { IsSmall (without (label.now ∷ []) self.now) }
        ensures tree { IfOk result (λ t. t ≡ without (label.now ∷ []) self.now) }
        ensures rooted { IfOk result (λ t. IsRooted t) }
    {
        let children = self.children.remove(alloc, label)?;
        let content = self.content.share()?;
        Ok(ShareNode { content, children })
    }

    /// Takes out the child with the label. Costs a logarithm. After an error the tree is as it was.
    fn take_child(&mut self, alloc: Global, label: &Label) -> Result<(), AllocError>
        requires { IsSmall (without (label.now ∷ []) self.old) }
        ensures ok { OnOk result (self.new ≡ without (label.now ∷ []) self.old) }
        ensures err { OnErr result (self.new ≡ self.old) }
    {
        self.children.take_out(alloc, label)?;
        Ok(())
    }

    /// Puts a new entry below the node at `place`, in the place of one with its label or beside the others. Of the
    /// children of this node it makes nothing anew where a child is replaced that isn't shared. Costs the way down, and a
    /// logarithm among siblings for each label of it. After an error the tree is as it was.
    pub(crate) fn set(
        &mut self,
        alloc: Global,
        place: &[Label],
        new: &Entry,
    ) -> Result<(), AllocError>
        requires node { get self.old place.now ≡ Some Node }
        requires rooted { IsRooted new.now.1 }
        requires small { IsSmall (with_subtree (child place.now new.now.0) (entries new.now.1) self.old) }
        ensures ok { OnOk result (self.new ≡ with_subtree (child place.now new.now.0) (entries new.now.1) self.old) }
        ensures err { OnErr result (self.new ≡ self.old) }
    {
        match place.split_first() {
            None => self.set_child(alloc, new),
            Some((first, rest)) => match self.children.find(first) {
                Some(entry) => {
                    let changed = entry.put(alloc, rest, new)?;
                    self.set_child(alloc, &changed)
                }
                None => unreachable!(),
            },
        }
    }

    /// Makes the tree with a new entry below the node at `place`, in the place of one with its label or beside the others.
    /// Costs the way down, and a logarithm among siblings for each label of it.
    #[cycle(put)]
    fn put(&self, alloc: Global, place: &[Label], new: &Entry) -> Result<ShareNode, AllocError>
        requires node { get self.now place.now ≡ Some Node }
        requires rooted { IsRooted new.now.1 }
        requires small { IsSmall (with_subtree (child place.now new.now.0) (entries new.now.1) self.now) }
        ensures tree { IfOk result (λ t. t ≡ with_subtree (child place.now new.now.0) (entries new.now.1) self.now) }
        ensures rooted { IfOk result (λ t. IsRooted t) }
    {
        match place.split_first() {
            None => self.with_child(alloc, new),
            Some((first, rest)) => match self.children.find(first) {
                Some(entry) => {
                    let changed = entry.put(alloc, rest, new)?;
                    self.with_child(alloc, &changed)
                }
                None => unreachable!(),
            },
        }
    }

    /// Makes the tree without what stands at the label below the place. Costs the way down, and a logarithm among
    /// siblings for each label of it.
    #[cycle(remove)]
    fn remove(&self, alloc: Global, place: &[Label], label: &Label) -> Result<ShareNode, AllocError>
        requires there { is_there self.now (child place.now label.now) ≡ true }
        requires small { IsSmall (without (child place.now label.now) self.now) }
        ensures tree { IfOk result (λ t. t ≡ without (child place.now label.now) self.now) }
        ensures rooted { IfOk result (λ t. IsRooted t) }
    {
        match place.split_first() {
            None => self.without_child(alloc, label),
            Some((first, rest)) => match self.children.find(first) {
                Some(entry) => {
                    let changed = entry.remove(alloc, rest, label)?;
                    self.with_child(alloc, &changed)
                }
                None => unreachable!(),
            },
        }
    }

    /// Takes out what stands at the label below the place. Of the children of this node it makes nothing anew that isn't
    /// shared, where their height stays. Costs the way down, and a logarithm among siblings for each label of it. After an
    /// error the tree is as it was.
    pub(crate) fn take_out(
        &mut self,
        alloc: Global,
        place: &[Label],
        label: &Label,
    ) -> Result<(), AllocError>
        requires there { is_there self.old (child place.now label.now) ≡ true }
        requires small { IsSmall (without (child place.now label.now) self.old) }
        ensures ok { OnOk result (self.new ≡ without (child place.now label.now) self.old) }
        ensures err { OnErr result (self.new ≡ self.old) }
    {
        match place.split_first() {
            None => self.take_child(alloc, label),
            Some((first, rest)) => match self.children.find(first) {
                Some(entry) => {
                    let changed = entry.remove(alloc, rest, label)?;
                    self.set_child(alloc, &changed)
                }
                None => unreachable!(),
            },
        }
    }

    /// Says whether it is a node, and no leaf.
    pub(crate) fn is_node(&self) -> bool
        ensures { result ≡ is_node (get self.now []) }
    {
        self.content.is_node()
    }

    /// Copies what stands at the root. Costs the bytes of a text.
    pub(crate) fn to_content(&self) -> Result<Content, AllocError>
        ensures { IfOk result (λ c. get self.now [] ≡ Some c) }
    {
        self.content.to_content()
    }

    /// Measures how far the tree reaches, from what is kept.
    pub(crate) fn reach(&self) -> Reach
        ensures { result ≡ reach_of (entries self.now) }
    {
        self.children.sums().reach(self.content.text_bytes())
    }

    /// Lists the labels below, in order. Costs their bytes.
    pub(crate) fn labels(&self, alloc: Global) -> Result<Vec<Label>, AllocError>
        ensures { IfOk result (λ v. v.items ≡ labels_at self.now []) }
    {
        let mut labels = Vec::new(alloc);
        self.children.labels_into(alloc, &mut labels)?;
        Ok(labels)
    }

    /// Says whether the two are known to be the same tree: they are, node by node, and their siblings stand in trees of one shape, as
    /// those of a node and of what shares it do. Costs the places, up to the first difference.
    #[cycle(equal)]
    pub(crate) fn is_known_equal(&self, other: &ShareNode) -> bool
        ensures { IsTrue result → self.now ≡ other.now }
    {
        self.content.is_known_equal(&other.content) && self.children.is_known_equal(&other.children)
    }

    /// Adds the rows of the node, which stands at the place `at`, in order. Costs them and their paths.
    #[cycle(rows)]
    pub(crate) fn rows_into(
        &self,
        alloc: Global,
        at: &mut Vec<Label>,
        out: &mut Vec<Row>,
    ) -> Result<(), AllocError>
        ensures rows { OnOk result (out.new.items ≡ out.old.items ++ map entry_row (entries_under at.old.items (entries self.now))) }
        ensures same_place { OnOk result (at.new.items ≡ at.old.items) }
    {
        place_into(alloc, &self.content, at.as_slice(), out)?;
        self.children.rows_into(alloc, at, out)
    }
}

impl Entry {
    /// Says whether the two are known to be the same.
    #[cycle(equal)]
    fn is_known_equal(&self, other: &Entry) -> bool
        ensures { IsTrue result → self.now ≡ other.now }
    {
        self.label.as_str() == other.label.as_str() && self.node.is_known_equal(&other.node)
    }

    /// Makes the entry with a new entry below the node at `place` in it.
    #[cycle(put)]
    fn put(&self, alloc: Global, place: &[Label], new: &Entry) -> Result<Entry, AllocError>
        requires node { get self.now.1 place.now ≡ Some Node }
        requires rooted { IsRooted new.now.1 }
        requires small { IsSmall (with_subtree (child place.now new.now.0) (entries new.now.1) self.now.1) }
        ensures label { IfOk result (λ e. e.0 ≡ self.now.0) }
        ensures tree { IfOk result (λ e. e.1 ≡ with_subtree (child place.now new.now.0) (entries new.now.1) self.now.1) }
        ensures rooted { IfOk result (λ e. IsRooted e.1) }
    {
        let node = self.node.put(alloc, place, new)?;
        let label = self.label.share()?;
        Ok(Entry { label, node })
    }

    /// Makes the entry without what stands at the label below the place in it.
    #[cycle(remove)]
    fn remove(&self, alloc: Global, place: &[Label], label: &Label) -> Result<Entry, AllocError>
        requires there { is_there self.now.1 (child place.now label.now) ≡ true }
        requires small { IsSmall (without (child place.now label.now) self.now.1) }
        ensures label { IfOk result (λ e. e.0 ≡ self.now.0) }
        ensures tree { IfOk result (λ e. e.1 ≡ without (child place.now label.now) self.now.1) }
        ensures rooted { IfOk result (λ e. IsRooted e.1) }
    {
        let node = self.node.remove(alloc, place, label)?;
        let label = self.label.share()?;
        Ok(Entry { label, node })
    }
}

impl Forest {
    /// Says whether the two are known to hold the same siblings.
    #[cycle(equal)]
    fn is_known_equal(&self, other: &Forest) -> bool
        ensures { IsTrue result → self.now.0 ≡ other.now.0 }
    {
        match (&self.open, &other.open) {
            (Open::Tip, Open::Tip) => true,
            (Open::Full(fork), Open::Full(other)) => {
                let (fork, other): (&Fork, &Fork) = (fork, other);
                fork.left.is_known_equal(&other.left)
                    && fork.entry.is_known_equal(&other.entry)
                    && fork.right.is_known_equal(&other.right)
            }
            _ => false,
        }
    }

    /// Adds the rows of the siblings, whose parent stands at the place `at`, in order. Costs them and their paths.
    #[cycle(rows)]
    fn rows_into(
        &self,
        alloc: Global,
        at: &mut Vec<Label>,
        out: &mut Vec<Row>,
    ) -> Result<(), AllocError>
        ensures rows { OnOk result (out.new.items ≡ out.old.items ++ map entry_row (entries_under at.old.items (child_rows self.now.0))) }
        ensures same_place { OnOk result (at.new.items ≡ at.old.items) }
    {
        match &self.open {
            Open::Tip => Ok(()),
            Open::Full(fork) => {
                let fork: &Fork = fork;
                fork.left.rows_into(alloc, at, out)?;
                at.push(fork.entry.label.to_label(alloc)?)?;
                fork.entry.node.rows_into(alloc, at, out)?;
                at.pop();
                fork.right.rows_into(alloc, at, out)
            }
        }
    }
}
