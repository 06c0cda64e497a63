ghost use Rattle.std.specs.Prelude.{◌≡◌, ◌≤◌, ◌<◌, ◌+◌, ◌++◌, ◌∷◌, IfOk, IfSome, IfNone, max};
ghost use Rattle.cp_model.specs.Keyed.{len};
ghost use Rattle.cp_tree.specs.Sums.{AreChildren};
ghost use Rattle.cp_tree_share.specs.Siblings.{Near, Settles, IsFork, fork_edges};
ghost use Rattle.cp_tree_share.specs.Parts.{IsEmpty, IsFull, HasParts};
ghost use Rattle.cp_tree_share.specs.Reading.{HaveSiblings, AreTaken, IsLow};

use crate::forest::{Entry, Forest, Fork, Open};
use std::alloc::{AllocError, Global};
use std::rc::Rc;

impl Fork {
    /// Makes the height and the sums those of the parts.
    pub(crate) fn settle(&mut self)
        requires children { AreChildren (fork_edges self.old) }
        requires near { Near 1 self.old.left.1 self.old.right.1 }
        ensures fork { IsFork self.new }
        ensures parts { HasParts self.new self.old.left self.old.entry self.old.right }
    {
        let (left, right) = (&self.left, &self.right);
        self.height = left.height().max(right.height()) + 1;
        self.sums = left.sums().beside(self.entry.sums().beside(right.sums()));
    }

    /// Shares the sibling, and those after it.
    fn rest(&self) -> Result<(Entry, Forest), AllocError>
        ensures entry { IfOk result (λ p. p.0 ≡ self.now.entry) }
        ensures right { IfOk result (λ p. p.1 ≡ self.now.right) }
    {
        let entry = self.entry.share()?;
        let right = self.right.share()?;
        Ok((entry, right))
    }

    /// Puts the siblings that are left before this one beside it and those after it; the first of all is passed on.
    fn after_first(
        &self,
        alloc: Global,
        popped: (Entry, Forest),
    ) -> Result<(Entry, Forest), AllocError>
        requires children { AreChildren (popped.1.0 ++ self.now.entry ∷ self.now.right.0) }
        requires near { Near 2 popped.1.1 self.now.right.1 }
        ensures first { IfOk result (λ p. p.0 ≡ popped.0) }
        ensures edges { IfOk result (λ p. p.1.0 ≡ popped.1.0 ++ self.now.entry ∷ self.now.right.0) }
        ensures settles { IfOk result (λ p. Settles popped.1.1 self.now.right.1 p.1.1) }
    {
        let (first, left) = popped;
        let rest = Forest::balance(alloc, &left, &self.entry, &self.right)?;
        Ok((first, rest))
    }
}

impl Forest {
    /// Finds the sibling at the root of their tree, with those before and after it.
    pub(crate) fn root(&self) -> Option<&Fork>
        ensures full { IfSome result (λ f. IsFull self.now f.now.left f.now.entry f.now.right) }
        ensures empty { IfNone result (IsEmpty self.now) }
    {
        match &self.open {
            Open::Tip => None,
            Open::Full(fork) => {
                let fork: &Fork = fork;
                Some(fork)
            }
        }
    }

    /// Puts siblings beside each other.
    pub(crate) fn fork(
        alloc: Global,
        left: Forest,
        entry: Entry,
        right: Forest,
    ) -> Result<Forest, AllocError>
        requires children { AreChildren (left.0 ++ entry ∷ right.0) }
        requires near { Near 1 left.1 right.1 }
        ensures { IfOk result (λ t. t ≡ (left.0 ++ entry ∷ right.0, max left.1 right.1 + 1)) }
    {
        let height = left.height().max(right.height()) + 1;
        let sums = left.sums().beside(entry.sums().beside(right.sums()));
        let fork = Fork {
            left,
            entry,
            right,
            height,
            sums,
        };
        Ok(Forest {
            open: Open::Full(Rc::new(alloc, fork)?),
        })
    }

    /// Puts siblings beside each other, and shares them.
    pub(crate) fn fork_shared(
        alloc: Global,
        left: &Forest,
        entry: &Entry,
        right: &Forest,
    ) -> Result<Forest, AllocError>
        requires children { AreChildren (left.now.0 ++ entry.now ∷ right.now.0) }
        requires near { Near 1 left.now.1 right.now.1 }
        ensures { IfOk result (λ t. t ≡ (left.now.0 ++ entry.now ∷ right.now.0, max left.now.1 right.now.1 + 1)) }
    {
        let left = left.share()?;
        let entry = entry.share()?;
        let right = right.share()?;
        Forest::fork(alloc, left, entry, right)
    }

    /// Takes the last so many of the entries, and makes the forest of these siblings by halving. Costs them.
    pub(crate) fn of_last(
        alloc: Global,
        entries: &mut Vec<Entry>,
        count: usize,
    ) -> Result<Forest, AllocError>
        requires { HaveSiblings count entries.old.items }
        ensures edges { IfOk result (λ t. AreTaken count entries.old.items t.0 entries.new.items) }
        ensures low { IfOk result (λ t. IsLow count t.1) }
    {
        if count == 0 {
            return Ok(Forest::new());
        }
        let after = (count - 1) / 2;
        let right = Forest::of_last(alloc, entries, after)?;
        match entries.pop() {
            None => unreachable!(),
            Some(middle) => {
                let left = Forest::of_last(alloc, entries, count - 1 - after)?;
                Forest::fork(alloc, left, middle, right)
            }
        }
    }

    /// Puts siblings beside each other, of which the inner ones are a level higher than those on either side: takes them
    /// apart, and makes a half of each side with the part that is next to it.
    fn fork_halves(
        alloc: Global,
        left: &Forest,
        first: &Entry,
        inner: &Forest,
        last: &Entry,
        right: &Forest,
    ) -> Result<Forest, AllocError>
        requires children { AreChildren (left.now.0 ++ first.now ∷ (inner.now.0 ++ last.now ∷ right.now.0)) }
        requires left { inner.now.1 ≡ left.now.1 + 1 }
        requires right { inner.now.1 ≡ right.now.1 + 1 }
        ensures { IfOk result (λ t. t ≡ (left.now.0 ++ first.now ∷ (inner.now.0 ++ last.now ∷ right.now.0), inner.now.1 + 1)) }
    {
        let Some(fork) = inner.root() else {
            unreachable!()
        };
        let left = Forest::fork_shared(alloc, left, first, &fork.left)?;
        let right = Forest::fork_shared(alloc, &fork.right, last, right)?;
        Forest::fork_shared(alloc, &left, &fork.entry, &right)
    }

    /// Rotates where the left side is two levels higher.
    fn lean_left(
        alloc: Global,
        left: &Forest,
        entry: &Entry,
        right: &Forest,
    ) -> Result<Forest, AllocError>
        requires children { AreChildren (left.now.0 ++ entry.now ∷ right.now.0) }
        requires two_higher { left.now.1 ≡ right.now.1 + 2 }
        ensures edges { IfOk result (λ t. t.0 ≡ left.now.0 ++ entry.now ∷ right.now.0) }
        ensures not_lower { IfOk result (λ t. left.now.1 ≤ t.1) }
        ensures at_most_one_higher { IfOk result (λ t. t.1 ≤ left.now.1 + 1) }
    {
        let Some(fork) = left.root() else {
            unreachable!()
        };
        let (outer, inner) = (&fork.left, &fork.right);
        if outer.height() < inner.height() {
            return Forest::fork_halves(alloc, outer, &fork.entry, inner, entry, right);
        }
        let right = Forest::fork_shared(alloc, inner, entry, right)?;
        Forest::fork_shared(alloc, outer, &fork.entry, &right)
    }

    /// Rotates where the right side is two levels higher.
    fn lean_right(
        alloc: Global,
        left: &Forest,
        entry: &Entry,
        right: &Forest,
    ) -> Result<Forest, AllocError>
        requires children { AreChildren (left.now.0 ++ entry.now ∷ right.now.0) }
        requires two_higher { right.now.1 ≡ left.now.1 + 2 }
        ensures edges { IfOk result (λ t. t.0 ≡ left.now.0 ++ entry.now ∷ right.now.0) }
        ensures not_lower { IfOk result (λ t. right.now.1 ≤ t.1) }
        ensures at_most_one_higher { IfOk result (λ t. t.1 ≤ right.now.1 + 1) }
    {
        let Some(fork) = right.root() else {
            unreachable!()
        };
        let (inner, outer) = (&fork.left, &fork.right);
        if outer.height() < inner.height() {
            return Forest::fork_halves(alloc, left, entry, inner, &fork.entry, outer);
        }
        let left = Forest::fork_shared(alloc, left, entry, inner)?;
        Forest::fork_shared(alloc, &left, &fork.entry, outer)
    }

    /// Puts siblings beside each other, of which one side may be two levels higher, and shares them.
    pub(crate) fn balance(
        alloc: Global,
        left: &Forest,
        entry: &Entry,
        right: &Forest,
    ) -> Result<Forest, AllocError>
        requires children { AreChildren (left.now.0 ++ entry.now ∷ right.now.0) }
        requires near { Near 2 left.now.1 right.now.1 }
        ensures edges { IfOk result (λ t. t.0 ≡ left.now.0 ++ entry.now ∷ right.now.0) }
        ensures settles { IfOk result (λ t. Settles left.now.1 right.now.1 t.1) }
    {
        let (before, after) = (left.height(), right.height());
        if before > after + 1 {
            Forest::lean_left(alloc, left, entry, right)
        } else if after > before + 1 {
            Forest::lean_right(alloc, left, entry, right)
        } else {
            Forest::fork_shared(alloc, left, entry, right)
        }
    }

    /// Takes out the first sibling: it, and the others. Costs a logarithm.
    fn pop_first(&self, alloc: Global) -> Result<(Entry, Forest), AllocError>
        requires some { 0 < self.now.1 }
        requires children { AreChildren self.now.0 }
        ensures edges { IfOk result (λ p. self.now.0 ≡ p.0 ∷ p.1.0) }
        ensures some { IfOk result (λ p. 0 < len p.0.1) }
        ensures not_higher { IfOk result (λ p. p.1.1 ≤ self.now.1) }
        ensures at_most_one_lower { IfOk result (λ p. self.now.1 ≤ p.1.1 + 1) }
    {
        let Some(fork) = self.root() else {
            unreachable!()
        };
        match fork.left.root() {
            None => fork.rest(),
            Some(_) => {
                let popped = fork.left.pop_first(alloc)?;
                fork.after_first(alloc, popped)
            }
        }
    }

    /// Puts siblings beside others, and shares them. Costs a logarithm.
    pub(crate) fn join(alloc: Global, left: &Forest, right: &Forest) -> Result<Forest, AllocError>
        requires children { AreChildren (left.now.0 ++ right.now.0) }
        requires near { Near 1 left.now.1 right.now.1 }
        ensures edges { IfOk result (λ t. t.0 ≡ left.now.0 ++ right.now.0) }
        ensures not_lower { IfOk result (λ t. max left.now.1 right.now.1 ≤ t.1) }
        ensures at_most_one_higher { IfOk result (λ t. t.1 ≤ max left.now.1 right.now.1 + 1) }
    {
        match right.root() {
            None => left.share(),
            Some(_) => {
                let (first, rest) = right.pop_first(alloc)?;
                Forest::balance(alloc, left, &first, &rest)
            }
        }
    }
}
