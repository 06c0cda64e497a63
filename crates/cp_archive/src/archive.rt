//! The archive of all versions.
ghost use Rattle.std.specs.Prelude.{◌≡◌, ◌+◌, ◌<◌, ◌^◌, ◌++◌, ◌∷◌, [], List, length, IfOk, OnOk, OnErr};
ghost use Rattle.std.specs.List.{slice_get};
ghost use Rattle.std.specs.Option.{option_map};
ghost use Rattle.std.specs.declared.option.Option.TheVariants.{Some};
ghost use Rattle.cp_model.specs.Tree.{Tree};
ghost use Rattle.cp_archive.specs.Ranges.{range_count};
ghost use Rattle.cp_archive.specs.Trees.{newest, is_there_in, rows_of_tree};
ghost use Rattle.cp_archive.specs.Touching.{Leads};

use crate::paths::{Paths, content_of, note_step, rows_of};
use crate::touched::Touched;
use cp_model::{Content, RowList};
use cp_path::Path;
use cp_tree::TreeRep;
use std::alloc::{AllocError, Global};
use std::collections::BTreeMap;
use std::marker::Model;

/// The trees of all versions, the first of which is version 0.
///
/// It keeps each path that was ever there once, in the order of places, with its phases: the versions since which it has a
/// content or isn't there. A phase with a content is a range, which ends before the next phase. So a version that differs from
/// the one before it at a few paths takes a few phases.
#[derive(Drop)]
pub struct Archive {
    last: u64,
    ranges: u64,
    paths: Paths,
}

impl Model for Archive {
    ghost use Rattle.std.specs.Prelude.{List};
    ghost use Rattle.std.specs.Coded.{coded_list};
    ghost use Rattle.cp_model.specs.Codes.{content_code};
    ghost use Rattle.cp_model.specs.Keyed.{code};
    ghost use Rattle.cp_model.specs.Tree.{Tree};
    ghost use Rattle.cp_archive.specs.Phases.{versions, IsKept};

    ghost Value = { List Tree };

    ghost coded = { coded_list (code content_code) };

    ghost view = { λ a. versions a.paths a.last };

    ghost invariant = { λ a. IsKept a.paths a.last a.ranges };
}

impl Archive {
    /// Begins with version 0. Costs the tree.
    pub fn new<R: TreeRep>(alloc: Global, start: &R) -> Result<Archive, AllocError>
        ensures { IfOk result (λ a. a ≡ R.contents start.now ∷ []) }
    {
        let place = Path::root(alloc);
        let before = RowList {
            items: Vec::new(alloc),
        };
        let after = start.rows(alloc, &place)?;
        let touched = [Touched {
            place,
            before,
            after,
        }];
        let mut paths = BTreeMap::new(alloc);
        let ranges = note_step(&mut paths, alloc, 0, 0, &touched)?;
        Ok(Archive {
            last: 0,
            ranges,
            paths,
        })
    }

    /// Adds the next version, and gives its number. Costs all paths that were ever there, and the tree. After an error the archive
    /// is as it was.
    pub fn add<R: TreeRep>(&mut self, alloc: Global, tree: &R) -> Result<u64, AllocError>
        requires { length self.old < 2 ^ 63 }
        ensures ok { OnOk result (self.new ≡ self.old ++ R.contents tree.now ∷ []) }
        ensures number { IfOk result (λ t. t ≡ length self.old) }
        ensures err { OnErr result (self.new ≡ self.old) }
    {
        let place = Path::root(alloc);
        let before = rows_of(&self.paths, alloc, self.last)?;
        let after = tree.rows(alloc, &place)?;
        self.add_step(
            alloc,
            &[Touched {
                place,
                before,
                after,
            }],
        )
    }

    /// Adds the next version, to which a step led that touched these places, and gives its number. Costs the rows that it is told,
    /// and for each path that differs a logarithm of all paths that were ever there. After an error the archive is as it was.
    pub fn add_step(&mut self, alloc: Global, touched: &[Touched]) -> Result<u64, AllocError>
        requires few { length self.old < 2 ^ 63 }
        requires step { (tree : Tree) × Leads touched.now (newest self.old) tree }
        ensures ok { (tree : Tree) → Leads touched.now (newest self.old) tree → OnOk result (self.new ≡ self.old ++ tree ∷ []) }
        ensures number { IfOk result (λ t. t ≡ length self.old) }
        ensures err { OnErr result (self.new ≡ self.old) }
    {
        let version = self.last + 1;
        let ranges = note_step(&mut self.paths, alloc, version, self.ranges, touched)?;
        self.last = version;
        self.ranges = ranges;
        Ok(version)
    }

    /// The number of the last version.
    pub fn last(&self) -> u64
        ensures { result + 1 ≡ length self.now }
    {
        self.last
    }

    /// Says whether a path is there in a version. Costs a logarithm of all paths that were ever there, and one of the phases of the
    /// path.
    pub fn is_there(&self, version: u64, path: &Path) -> bool
        ensures { result ≡ is_there_in self.now version path.now }
    {
        version <= self.last && content_of(&self.paths, path, version).is_some()
    }

    /// Counts the ranges of all paths: the longest runs of versions in which a path is there with one content.
    pub fn ranges(&self) -> u64
        ensures { result ≡ range_count self.now }
    {
        self.ranges
    }

    /// Lists the rows of a version in the order of their places. Costs a logarithm of the phases of each path that was ever there,
    /// and the rows.
    pub fn rows_at(&self, alloc: Global, version: u64) -> Result<RowList, AllocError>
        requires { version < length self.now }
        ensures { IfOk result (λ v. option_map rows_of_tree (slice_get self.now version) ≡ Some v) }
    {
        rows_of(&self.paths, alloc, version)
    }

    /// Makes the tree of a version. Costs as `rows_at`, and the tree.
    pub fn tree_at<R: TreeRep>(&self, alloc: Global, version: u64) -> Result<R, AllocError>
        requires { version < length self.now }
        ensures { IfOk result (λ t. slice_get self.now version ≡ Some (R.contents t)) }
    {
        let rows = rows_of(&self.paths, alloc, version)?;
        let mut tree = R::single(alloc, &Content::Node)?;
        tree.put_rows(alloc, &Path::root(alloc), rows.items.as_slice())?;
        Ok(tree)
    }
}
