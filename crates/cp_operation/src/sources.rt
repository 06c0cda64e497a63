ghost use Rattle.std.specs.Prelude.{◌≡◌, ◌++◌, ◌∷◌, ◌<◌, [], false, length, is_some, OnOk, OnErr};
ghost use Rattle.std.specs.Option.{option_map};
ghost use Rattle.cp_model.specs.Tree.{source};
ghost use Rattle.cp_operation.specs.Loaded.{sources_in};

use cp_model::SOURCES_MAX;
use cp_path::Name;
use cp_tree::TreeRep;
use indexmap::IndexMap;
use std::alloc::{AllocError, Global};

/// The loaded sources: their names and trees, in order of loading.
#[derive(Drop)]
pub struct Sources<S: TreeRep> {
    trees: IndexMap<Name, S>,
}

impl<S: TreeRep> Sources<S> {
    /// No source. Takes no memory.
    pub fn new(alloc: Global) -> Sources<S>
        ensures { sources_in S.contents result ≡ [] }
    {
        Sources {
            trees: IndexMap::new(alloc),
        }
    }

    /// The tree of the source with this name, `None` where none is loaded. Takes no memory.
    pub fn get(&self, name: &Name) -> Option<&S>
        ensures { option_map (λ t. S.contents t.now) result ≡ source (sources_in S.contents self.now) name.now }
    {
        self.trees.get(name)
    }

    /// The number of sources.
    pub fn len(&self) -> usize
        ensures { result ≡ length (sources_in S.contents self.now) }
    {
        self.trees.len()
    }

    /// Loads a source behind the others. After an error the sources are as they were, and the tree is given up.
    pub fn add(&mut self, name: Name, tree: S) -> Result<(), AllocError>
        requires new { is_some (source (sources_in S.contents self.old) name) ≡ false }
        requires few { length (sources_in S.contents self.old) < SOURCES_MAX }
        ensures added { OnOk result (sources_in S.contents self.new ≡ sources_in S.contents self.old ++ record { name = name; tree = S.contents tree } ∷ []) }
        ensures same { OnErr result (sources_in S.contents self.new ≡ sources_in S.contents self.old) }
    {
        self.trees.insert(name, tree)?;
        Ok(())
    }
}
