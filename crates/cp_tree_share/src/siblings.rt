ghost use Rattle.std.specs.Prelude.{◌≡◌, ◌≤◌, ◌+◌, ◌++◌, map, IfOk, OnOk, OnErr, IfSome, IfNone};
ghost use Rattle.std.specs.declared.option.Option.TheVariants.{Some, None};
ghost use Rattle.std.specs.FinMap.Entries.{find, put};
ghost use Rattle.cp_path.specs.Text.{text_cmp};
ghost use Rattle.cp_tree.specs.Branch.{without_child};
ghost use Rattle.cp_tree.specs.Sums.{AreChildren};
ghost use Rattle.cp_tree_share.specs.Parts.{IsPutOrSame, IsCutOrSame};

use crate::forest::{Entry, Forest, Fork, Open};
use cp_path::Label;
use std::alloc::{AllocError, Global};
use std::cmp::Ordering;
use std::rc::Rc;

impl Forest {
    /// Finds the sibling with the label. Costs a logarithm.
    pub(crate) fn find(&self, label: &Label) -> Option<&Entry>
        ensures there { IfSome result (λ e. find text_cmp label.now self.now.0 ≡ Some e.now.1) }
        ensures label { IfSome result (λ e. e.now.0 ≡ label.now) }
        ensures gone { IfNone result (find text_cmp label.now self.now.0 ≡ None) }
    {
        match &self.open {
            Open::Tip => None,
            Open::Full(fork) => {
                let fork: &Fork = fork;
                match fork.entry.order_of(label) {
                    Ordering::Less => fork.left.find(label),
                    Ordering::Equal => Some(&fork.entry),
                    Ordering::Greater => fork.right.find(label),
                }
            }
        }
    }

    /// Puts the sibling in the place of one with its label, or beside the others, and shares it. Costs a logarithm.
    pub(crate) fn put(&self, alloc: Global, entry: &Entry) -> Result<Forest, AllocError>
        requires { AreChildren (put text_cmp entry.now.0 entry.now.1 self.now.0) }
        ensures edges { IfOk result (λ t. t.0 ≡ put text_cmp entry.now.0 entry.now.1 self.now.0) }
        ensures not_lower { IfOk result (λ t. self.now.1 ≤ t.1) }
        ensures at_most_one_higher { IfOk result (λ t. t.1 ≤ self.now.1 + 1) }
    {
        let Some(fork) = self.root() else {
            return Forest::fork_shared(alloc, &Forest::new(), entry, &Forest::new());
        };
        match fork.entry.order_of_entry(entry) {
            Ordering::Less => {
                let left = fork.left.put(alloc, entry)?;
                Forest::balance(alloc, &left, &fork.entry, &fork.right)
            }
            Ordering::Equal => Forest::fork_shared(alloc, &fork.left, entry, &fork.right),
            Ordering::Greater => {
                let right = fork.right.put(alloc, entry)?;
                Forest::balance(alloc, &fork.left, &fork.entry, &right)
            }
        }
    }

    /// Puts the sibling in the place of one with its label, or beside the others, where that leaves the height as it is:
    /// in place as far as nothing is shared. Says whether it has; otherwise nothing has changed. Costs a logarithm. After
    /// an error the siblings are as they were.
    fn place(&mut self, alloc: Global, entry: &Entry) -> Result<bool, AllocError>
        requires { AreChildren (put text_cmp entry.now.0 entry.now.1 self.old.0) }
        ensures ok { IfOk result (λ done. IsPutOrSame self.old entry.now self.new done) }
        ensures err { OnErr result (self.new ≡ self.old) }
    {
        let Open::Full(shared) = &mut self.open else {
            return Ok(false);
        };
        let Some(fork) = Rc::get_mut(shared) else {
            return self.place_anew(alloc, entry);
        };
        let even = fork.left.height() == fork.right.height();
        match fork.entry.order_of_entry(entry) {
            Ordering::Less => {
                let done = fork.left.place(alloc, entry)?;
                if done {
                    fork.settle();
                    return Ok(true);
                }
                self.place_unless(even, alloc, entry)
            }
            Ordering::Equal => {
                fork.entry = entry.share()?;
                fork.settle();
                Ok(true)
            }
            Ordering::Greater => {
                let done = fork.right.place(alloc, entry)?;
                if done {
                    fork.settle();
                    return Ok(true);
                }
                self.place_unless(even, alloc, entry)
            }
        }
    }

    /// The same where one of the two sides would grow: so do they as a whole, if the two are of one height.
    fn place_unless(&mut self, even: bool, alloc: Global, entry: &Entry) -> Result<bool, AllocError>
        requires { AreChildren (put text_cmp entry.now.0 entry.now.1 self.old.0) }
        ensures ok { IfOk result (λ done. IsPutOrSame self.old entry.now self.new done) }
        ensures err { OnErr result (self.new ≡ self.old) }
    {
        if even {
            return Ok(false);
        }
        self.place_anew(alloc, entry)
    }

    /// The same with all on the way made anew.
    fn place_anew(&mut self, alloc: Global, entry: &Entry) -> Result<bool, AllocError>
        requires { AreChildren (put text_cmp entry.now.0 entry.now.1 self.old.0) }
        ensures ok { IfOk result (λ done. IsPutOrSame self.old entry.now self.new done) }
        ensures err { OnErr result (self.new ≡ self.old) }
    {
        let changed = self.put(alloc, entry)?;
        if changed.height() != self.height() {
            return Ok(false);
        }
        *self = changed;
        Ok(true)
    }

    /// Puts the sibling in the place of one with its label, or beside the others: in place as far as nothing is shared,
    /// where the height stays. Costs a logarithm. After an error the siblings are as they were.
    pub(crate) fn set(&mut self, alloc: Global, entry: &Entry) -> Result<(), AllocError>
        requires { AreChildren (put text_cmp entry.now.0 entry.now.1 self.old.0) }
        ensures ok { OnOk result (self.new.0 ≡ put text_cmp entry.now.0 entry.now.1 self.old.0) }
        ensures err { OnErr result (self.new ≡ self.old) }
    {
        if !self.place(alloc, entry)? {
            *self = self.put(alloc, entry)?;
        }
        Ok(())
    }

    /// Takes out the sibling with the label. Costs a logarithm.
    pub(crate) fn remove(&self, alloc: Global, label: &Label) -> Result<Forest, AllocError>
        requires { AreChildren (without_child label.now self.now.0) }
        ensures edges { IfOk result (λ t. t.0 ≡ without_child label.now self.now.0) }
        ensures not_higher { IfOk result (λ t. t.1 ≤ self.now.1) }
        ensures at_most_one_lower { IfOk result (λ t. self.now.1 ≤ t.1 + 1) }
    {
        let Some(fork) = self.root() else {
            return Ok(Forest::new());
        };
        match fork.entry.order_of(label) {
            Ordering::Less => {
                let left = fork.left.remove(alloc, label)?;
                Forest::balance(alloc, &left, &fork.entry, &fork.right)
            }
            Ordering::Equal => Forest::join(alloc, &fork.left, &fork.right),
            Ordering::Greater => {
                let right = fork.right.remove(alloc, label)?;
                Forest::balance(alloc, &fork.left, &fork.entry, &right)
            }
        }
    }

    /// Takes out the sibling with the label, where that leaves the height as it is: in place as far as nothing is shared.
    /// Says whether it has; otherwise nothing has changed. Costs a logarithm. After an error the siblings are as they were.
    fn cut(&mut self, alloc: Global, label: &Label) -> Result<bool, AllocError>
        requires { AreChildren (without_child label.now self.old.0) }
        ensures ok { IfOk result (λ done. IsCutOrSame self.old label.now self.new done) }
        ensures err { OnErr result (self.new ≡ self.old) }
    {
        let Open::Full(shared) = &mut self.open else {
            return Ok(false);
        };
        let Some(fork) = Rc::get_mut(shared) else {
            return self.cut_anew(alloc, label);
        };
        match fork.entry.order_of(label) {
            Ordering::Less => {
                let higher = fork.left.height() > fork.right.height();
                let done = fork.left.cut(alloc, label)?;
                if done {
                    fork.settle();
                    return Ok(true);
                }
                self.cut_unless(higher, alloc, label)
            }
            Ordering::Equal => self.cut_anew(alloc, label),
            Ordering::Greater => {
                let higher = fork.right.height() > fork.left.height();
                let done = fork.right.cut(alloc, label)?;
                if done {
                    fork.settle();
                    return Ok(true);
                }
                self.cut_unless(higher, alloc, label)
            }
        }
    }

    /// The same where one of the two sides would get lower: so do they as a whole, if it is the higher one.
    fn cut_unless(&mut self, higher: bool, alloc: Global, label: &Label) -> Result<bool, AllocError>
        requires { AreChildren (without_child label.now self.old.0) }
        ensures ok { IfOk result (λ done. IsCutOrSame self.old label.now self.new done) }
        ensures err { OnErr result (self.new ≡ self.old) }
    {
        if higher {
            return Ok(false);
        }
        self.cut_anew(alloc, label)
    }

    /// The same with all on the way made anew.
    fn cut_anew(&mut self, alloc: Global, label: &Label) -> Result<bool, AllocError>
        requires { AreChildren (without_child label.now self.old.0) }
        ensures ok { IfOk result (λ done. IsCutOrSame self.old label.now self.new done) }
        ensures err { OnErr result (self.new ≡ self.old) }
    {
        let changed = self.remove(alloc, label)?;
        if changed.height() != self.height() {
            return Ok(false);
        }
        *self = changed;
        Ok(true)
    }

    /// Takes out the sibling with the label: in place as far as nothing is shared, where the height stays. Costs a
    /// logarithm. After an error the siblings are as they were.
    pub(crate) fn take_out(&mut self, alloc: Global, label: &Label) -> Result<(), AllocError>
        requires { AreChildren (without_child label.now self.old.0) }
        ensures ok { OnOk result (self.new.0 ≡ without_child label.now self.old.0) }
        ensures err { OnErr result (self.new ≡ self.old) }
    {
        if !self.cut(alloc, label)? {
            *self = self.remove(alloc, label)?;
        }
        Ok(())
    }

    /// Adds the labels of the siblings, in order. Costs their bytes.
    pub(crate) fn labels_into(
        &self,
        alloc: Global,
        labels: &mut Vec<Label>,
    ) -> Result<(), AllocError>
        ensures { OnOk result (labels.new.items ≡ labels.old.items ++ map (λ e. e.0) self.now.0) }
    {
        match &self.open {
            Open::Tip => Ok(()),
            Open::Full(fork) => {
                let fork: &Fork = fork;
                fork.left.labels_into(alloc, labels)?;
                labels.push(fork.entry.label.to_label(alloc)?)?;
                fork.right.labels_into(alloc, labels)
            }
        }
    }
}
