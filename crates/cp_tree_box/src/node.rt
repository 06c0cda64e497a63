ghost use Rattle.std.specs.Prelude.{◌≡◌, [], ◌∷◌, ◌++◌, true, map, IfOk, OnOk, OnErr, IfSome, IfNone};
ghost use Rattle.std.specs.declared.option.Option.TheVariants.{None, Some};
ghost use Rattle.std.specs.BTreeMap.{insert_entry};
ghost use Rattle.cp_path.specs.Text.{text_cmp};
ghost use Rattle.cp_model.specs.Place.{child};
ghost use Rattle.cp_model.specs.Keyed.{get, entries};
ghost use Rattle.cp_model.specs.Subtrees.{entries_under, without, with_subtree, is_there};
ghost use Rattle.cp_model.specs.Tree.{IsRooted, IsNumber, is_node};
ghost use Rattle.cp_model.specs.declared.row.Content.TheVariants.{Node};
ghost use Rattle.cp_tree.specs.Branch.{sub};
ghost use Rattle.cp_tree.specs.Rows.{entry_row, single, labels_at};

use cp_model::{Content, Row};
use cp_path::{Label, Path, Value};
use std::alloc::{AllocError, Global};
use std::collections::BTreeMap;
use std::marker::Model;

/// A node with the nodes below it, seen as the tree of its places.
#[cycle(box_node)]
#[derive(Drop)]
pub(crate) struct BoxNode {
    pub(crate) content: Content,
    pub(crate) children: BTreeMap<Label, BoxNode>,
}

impl Model for BoxNode {
    ghost use Rattle.cp_model.specs.Tree.{Tree};
    ghost use Rattle.cp_model.specs.Keyed.{code, len};
    ghost use Rattle.cp_model.specs.Codes.{content_code};

    ghost Value = { Tree };

    ghost coded = { code content_code };

    ghost use Rattle.cp_tree_box.specs.Nodes.{tree_inside, IsGoodNode};

    ghost view = { tree_inside };

    ghost invariant = { IsGoodNode };

    ghost size = { len };

    ghost use Rattle.cp_tree_box.specs.Falls.{node_falls};

    ghost size_decreases = { node_falls };
}

/// Copies what stands at a place. Costs the bytes of a text.
pub(crate) fn copy_content(content: &Content) -> Result<Content, AllocError>
    ensures { IfOk result (λ c. c ≡ content.now) }
{
    match content {
        Content::Node => Ok(Content::Node),
        Content::Leaf(value) => Ok(Content::Leaf(value.clone()?)),
    }
}

/// Says of a content what its type holds: a whole number is within its range.
pub(crate) fn number_range(content: &Content)
    ensures { IsNumber content.now }
{
    if let Content::Leaf(Value::Whole(number)) = content {
        let _number = number.get();
    }
}

/// Adds the row of a place. Costs its labels and the bytes of a text.
fn place_into(
    alloc: Global,
    content: &Content,
    at: &[Label],
    out: &mut Vec<Row>,
) -> Result<(), AllocError>
    ensures { OnOk result (out.new.items ≡ out.old.items ++ entry_row (at.now, content.now) ∷ []) }
{
    let content = copy_content(content)?;
    let Ok(path) = Path::of(alloc, at) else {
        return Err(AllocError);
    };
    out.push(Row { path, content })?;
    Ok(())
}

/// Adds the label at the end. Costs its bytes.
fn push_label(labels: &mut Vec<Label>, label: &Label) -> Result<(), AllocError>
    ensures { OnOk result (labels.new.items ≡ labels.old.items ++ label.now ∷ []) }
{
    labels.push(label.clone()?)?;
    Ok(())
}

/// Puts a child at the label, in the place of one that is there or beside the others. Costs a search, and the label.
fn put_child(
    children: &mut BTreeMap<Label, BoxNode>,
    label: &Label,
    new: BoxNode,
) -> Result<(), AllocError>
    ensures ok { OnOk result (children.new.entries ≡ insert_entry text_cmp children.old.entries label.now new) }
    ensures err { OnErr result (children.new.entries ≡ children.old.entries) }
{
    children.insert(label.clone()?, new)?;
    Ok(())
}

impl BoxNode {
    /// Makes a root alone.
    pub(crate) fn leaf(alloc: Global, content: Content) -> BoxNode
        ensures tree { result ≡ single content }
        ensures rooted { IsRooted result }
    {
        BoxNode {
            content,
            children: BTreeMap::new(alloc),
        }
    }

    /// Finds the node at the place. Costs a search among siblings for each label.
    pub(crate) fn find(&self, place: &[Label]) -> Option<&BoxNode>
        ensures there { IfSome result (λ n. n.now ≡ sub self.now place.now) }
        ensures rooted { IfSome result (λ n. IsRooted n.now) }
        ensures gone { IfNone result (get self.now place.now ≡ None) }
        ensures whole { IsRooted self.now }
    {
        let _content = &self.content;
        match place.split_first() {
            None => Some(self),
            Some((first, rest)) => match self.children.get(first) {
                Some(child) => child.find(rest),
                None => None,
            },
        }
    }

    /// Finds the node at the label below the place.
    pub(crate) fn find_child(&self, place: &[Label], label: &Label) -> Option<&BoxNode>
        ensures there { IfSome result (λ n. n.now ≡ sub self.now (child place.now label.now)) }
        ensures rooted { IfSome result (λ n. IsRooted n.now) }
        ensures gone { IfNone result (get self.now (child place.now label.now) ≡ None) }
    {
        match self.find(place) {
            Some(node) => node.children.get(label),
            None => None,
        }
    }

    /// Adds a subtree at a new label below the node at `place`. Costs a search among siblings for each label.
    pub(crate) fn insert(
        &mut self,
        place: &[Label],
        label: &Label,
        new: BoxNode,
    ) -> Result<(), AllocError>
        requires node { get self.old place.now ≡ Some Node }
        requires rooted { IsRooted new }
        ensures ok { OnOk result (self.new ≡ with_subtree (child place.now label.now) (entries new) self.old) }
        ensures err { OnErr result (self.new ≡ self.old) }
        ensures whole { IsRooted self.new }
    {
        match place.split_first() {
            None => {
                put_child(&mut self.children, label, new)?;
                Ok(())
            }
            Some((first, rest)) => match self.children.get_mut(first) {
                Some(child) => child.insert(rest, label, new),
                None => unreachable!(),
            },
        }
    }

    /// Replaces the subtree at `place` by `new`, and gives it back.
    pub(crate) fn swap(&mut self, place: &[Label], new: BoxNode) -> BoxNode
        requires there { is_there self.old place.now ≡ true }
        requires rooted { IsRooted new }
        ensures changed { self.new ≡ with_subtree place.now (entries new) self.old }
        ensures back { result ≡ sub self.old place.now }
        ensures whole { IsRooted self.new }
    {
        match place.split_first() {
            None => std::mem::replace(self, new),
            Some((first, rest)) => match self.children.get_mut(first) {
                Some(child) => child.swap(rest, new),
                None => unreachable!(),
            },
        }
    }

    /// Takes out the subtree at the label below the node at `place`.
    pub(crate) fn remove(&mut self, place: &[Label], label: &Label) -> BoxNode
        requires there { is_there self.old (child place.now label.now) ≡ true }
        ensures changed { self.new ≡ without (child place.now label.now) self.old }
        ensures back { result ≡ sub self.old (child place.now label.now) }
        ensures whole { IsRooted self.new }
    {
        match place.split_first() {
            None => match self.children.remove(label) {
                Some(child) => child,
                None => unreachable!(),
            },
            Some((first, rest)) => match self.children.get_mut(first) {
                Some(child) => child.remove(rest, label),
                None => unreachable!(),
            },
        }
    }

    /// Says whether it is a node, and no leaf.
    pub(crate) fn is_node(&self) -> bool
        ensures { result ≡ is_node (get self.now []) }
    {
        match self.content {
            Content::Node => true,
            Content::Leaf(_) => false,
        }
    }

    /// Lists the labels below, in order. Costs their bytes.
    pub(crate) fn labels(&self, alloc: Global) -> Result<Vec<Label>, AllocError>
        ensures { IfOk result (λ v. v.items ≡ labels_at self.now []) }
    {
        let mut labels = Vec::new(alloc);
        for (label, _) in &self.children {
            push_label(&mut labels, label)?;
        }
        Ok(labels)
    }

    /// Makes an equal node. Costs the places and their labels.
    pub(crate) fn copy(&self, alloc: Global) -> Result<BoxNode, AllocError>
        ensures { IfOk result (λ t. t ≡ self.now) }
    {
        let mut children = BTreeMap::new(alloc);
        for (label, child) in &self.children {
            put_child(&mut children, label, child.copy(alloc)?)?;
        }
        let content = copy_content(&self.content)?;
        Ok(BoxNode { content, children })
    }

    /// Adds the rows of the node, which stands at the place `at`, in order.
    pub(crate) fn rows_into(
        &self,
        alloc: Global,
        at: &mut Vec<Label>,
        out: &mut Vec<Row>,
    ) -> Result<(), AllocError>
        ensures rows { OnOk result (out.new.items ≡ out.old.items ++ map entry_row (entries_under at.old.items (entries self.now))) }
        ensures same_place { OnOk result (at.new.items ≡ at.old.items) }
    {
        place_into(alloc, &self.content, at.as_slice(), out)?;
        for (label, child) in &self.children {
            push_label(at, label)?;
            child.rows_into(alloc, at, out)?;
            at.pop();
        }
        Ok(())
    }
}
