//! A tree that is kept in three forms at once.
ghost use Rattle.std.specs.Prelude.{◌≡◌, true, false, IfOk};
ghost use Rattle.cp_calls.specs.Twins.{AreTwins, AreTwins-prop};

use cp_model::{Content, Row, RowList};
use cp_path::{Label, Path};
use cp_tree::{Reach, TreeRep};
use std::alloc::{AllocError, Global};

/// A tree in three forms: what is asked is asked of each, and what is changed is changed in each. So one call of a program
/// runs all three.
///
/// Where one form answers otherwise than the two others, the tree answers as that one does, so that the program does what it
/// would do with that form alone; an answer that takes memory fails there. A change fails where it does in one of the forms.
/// Then only the first is left, which still is as it was.
#[derive(Drop)]
pub(crate) struct TripleTree<A: TreeRep, B: TreeRep, C: TreeRep> {
    first: A,
    second: Option<B>,
    third: Option<C>,
    ghost second_is_first: { AreTwins A.contents B.contents first second } by { AreTwins-prop A.contents B.contents first second },
    ghost third_is_first: { AreTwins A.contents C.contents first third } by { AreTwins-prop A.contents C.contents first third },
}

/// The answer that differs from the two others, where one does.
fn odd_answer<T: PartialEq + Drop>(first: T, second: T, third: T) -> T
    ensures same { second ≡ first → third ≡ first → result ≡ first }
    ensures last { T.eq first second ≡ true → result ≡ third }
    ensures middle { T.eq first second ≡ false → T.eq first third ≡ true → result ≡ second }
{
    if first == second {
        third
    } else if first == third {
        second
    } else {
        first
    }
}

/// The answer of all three forms; fails where two of them differ.
fn common_answer<T: PartialEq + Drop>(first: T, second: T, third: T) -> Result<T, AllocError>
    ensures { IfOk result (λ t. t ≡ first) }
{
    if first == second && first == third {
        return Ok(first);
    }
    Err(AllocError)
}

impl<A: TreeRep, B: TreeRep, C: TreeRep> TreeRep for TripleTree<A, B, C> {
    ghost contents = { λ t. A.contents t.first };

    fn single(alloc: Global, content: &Content) -> Result<TripleTree<A, B, C>, AllocError> {
        let first = A::single(alloc, content)?;
        let second = Some(B::single(alloc, content)?);
        let third = Some(C::single(alloc, content)?);
        Ok(TripleTree {
            first,
            second,
            third,
        })
    }

    fn is_there(&self, place: &Path) -> bool {
        let first = self.first.is_there(place);
        match (&self.second, &self.third) {
            (Some(second), Some(third)) => {
                odd_answer(first, second.is_there(place), third.is_there(place))
            }
            _ => first,
        }
    }

    fn is_node(&self, place: &Path) -> bool {
        let first = self.first.is_node(place);
        match (&self.second, &self.third) {
            (Some(second), Some(third)) => {
                odd_answer(first, second.is_node(place), third.is_node(place))
            }
            _ => first,
        }
    }

    fn has_child(&self, place: &Path, label: &Label) -> bool {
        let first = self.first.has_child(place, label);
        match (&self.second, &self.third) {
            (Some(second), Some(third)) => odd_answer(
                first,
                second.has_child(place, label),
                third.has_child(place, label),
            ),
            _ => first,
        }
    }

    fn content_at(&self, alloc: Global, place: &Path) -> Result<Option<Content>, AllocError> {
        let first = self.first.content_at(alloc, place)?;
        match (&self.second, &self.third) {
            (Some(second), Some(third)) => {
                let second = second.content_at(alloc, place)?;
                common_answer(first, second, third.content_at(alloc, place)?)
            }
            _ => Ok(first),
        }
    }

    fn labels_of(&self, alloc: Global, place: &Path) -> Result<Vec<Label>, AllocError> {
        let first = self.first.labels_of(alloc, place)?;
        match (&self.second, &self.third) {
            (Some(second), Some(third)) => {
                let second = second.labels_of(alloc, place)?;
                common_answer(first, second, third.labels_of(alloc, place)?)
            }
            _ => Ok(first),
        }
    }

    fn reach(&self, place: &Path) -> Reach {
        let first = self.first.reach(place);
        match (&self.second, &self.third) {
            (Some(second), Some(third)) => {
                odd_answer(first, second.reach(place), third.reach(place))
            }
            _ => first,
        }
    }

    /// Says what the first form knows: the others may know less, or more.
    fn are_known_equal(&self, place: &Path, other: &Path) -> bool {
        self.first.are_known_equal(place, other)
    }

    fn insert_leaf(
        &mut self,
        alloc: Global,
        place: &Path,
        label: &Label,
        content: &Content,
    ) -> Result<(), AllocError> {
        let (Some(mut second), Some(mut third)) = (self.second.take(), self.third.take()) else {
            return self.first.insert_leaf(alloc, place, label, content);
        };
        second.insert_leaf(alloc, place, label, content)?;
        third.insert_leaf(alloc, place, label, content)?;
        self.first.insert_leaf(alloc, place, label, content)?;
        self.second = Some(second);
        self.third = Some(third);
        Ok(())
    }

    fn insert_rows(
        &mut self,
        alloc: Global,
        place: &Path,
        label: &Label,
        rows: &[Row],
    ) -> Result<(), AllocError> {
        let (Some(mut second), Some(mut third)) = (self.second.take(), self.third.take()) else {
            return self.first.insert_rows(alloc, place, label, rows);
        };
        second.insert_rows(alloc, place, label, rows)?;
        third.insert_rows(alloc, place, label, rows)?;
        self.first.insert_rows(alloc, place, label, rows)?;
        self.second = Some(second);
        self.third = Some(third);
        Ok(())
    }

    fn remove(&mut self, alloc: Global, place: &Path, label: &Label) -> Result<(), AllocError> {
        let (Some(mut second), Some(mut third)) = (self.second.take(), self.third.take()) else {
            return self.first.remove(alloc, place, label);
        };
        second.remove(alloc, place, label)?;
        third.remove(alloc, place, label)?;
        self.first.remove(alloc, place, label)?;
        self.second = Some(second);
        self.third = Some(third);
        Ok(())
    }

    fn put_rows(&mut self, alloc: Global, place: &Path, rows: &[Row]) -> Result<(), AllocError> {
        let (Some(mut second), Some(mut third)) = (self.second.take(), self.third.take()) else {
            return self.first.put_rows(alloc, place, rows);
        };
        second.put_rows(alloc, place, rows)?;
        third.put_rows(alloc, place, rows)?;
        self.first.put_rows(alloc, place, rows)?;
        self.second = Some(second);
        self.third = Some(third);
        Ok(())
    }

    fn copy_inside(&mut self, alloc: Global, from: &Path, place: &Path) -> Result<(), AllocError> {
        let (Some(mut second), Some(mut third)) = (self.second.take(), self.third.take()) else {
            return self.first.copy_inside(alloc, from, place);
        };
        second.copy_inside(alloc, from, place)?;
        third.copy_inside(alloc, from, place)?;
        self.first.copy_inside(alloc, from, place)?;
        self.second = Some(second);
        self.third = Some(third);
        Ok(())
    }

    fn rows(&self, alloc: Global, place: &Path) -> Result<RowList, AllocError> {
        let first = self.first.rows(alloc, place)?;
        match (&self.second, &self.third) {
            (Some(second), Some(third)) => {
                let second = second.rows(alloc, place)?.items;
                let third = third.rows(alloc, place)?.items;
                let items = common_answer(first.items, second, third)?;
                Ok(RowList { items })
            }
            _ => Ok(first),
        }
    }

    fn count(&self) -> u32 {
        let first = self.first.count();
        match (&self.second, &self.third) {
            (Some(second), Some(third)) => odd_answer(first, second.count(), third.count()),
            _ => first,
        }
    }

    fn weight(&self) -> u64 {
        let first = self.first.weight();
        match (&self.second, &self.third) {
            (Some(second), Some(third)) => odd_answer(first, second.weight(), third.weight()),
            _ => first,
        }
    }

    fn copy(&self, alloc: Global) -> Result<TripleTree<A, B, C>, AllocError> {
        let first = self.first.copy(alloc)?;
        let second = match &self.second {
            Some(second) => Some(second.copy(alloc)?),
            None => None,
        };
        let third = match &self.third {
            Some(third) => Some(third.copy(alloc)?),
            None => None,
        };
        Ok(TripleTree {
            first,
            second,
            third,
        })
    }

    ghost is_tree = { λ t. A.TreeRep.is_tree t.first };
}
