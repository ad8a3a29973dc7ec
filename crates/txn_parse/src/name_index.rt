ghost use Rattle.std.specs.Prelude.{◌≡◌, [], ◌∷◌, ◌++◌, length, false, OnOk};
ghost use Rattle.txn_parse.specs.Binding.{Names, is_known};
ghost use Rattle.txn_parse.specs.NameIndex.{IsIndexOf, place_in};

use morty_base::NoMemory;
use std::alloc::Global;
use std::collections::BTreeMap;

/// The places of names in a list, each found by a search.
#[derive(Drop)]
pub struct NameIndex {
    places: BTreeMap<Vec<u8>, usize>,
}

impl NameIndex {
    /// The index of no names.
    pub fn new(alloc: Global) -> NameIndex
        ensures { IsIndexOf result [] }
    {
        NameIndex {
            places: BTreeMap::new(alloc),
        }
    }

    /// The place of a name, from 0, where it is one of the names.
    pub fn place(&self, name: &[u8]) -> Option<usize>
        ensures { result ≡ place_in self.now name.now }
    {
        self.places.get(name).copied()
    }

    /// A further name, behind the others.
    pub fn add(&mut self, alloc: Global, name: &[u8], place: usize) -> Result<(), NoMemory>
        ensures { OnOk result ((names : Names) → IsIndexOf self.old names → is_known names name.now ≡ false → place ≡ length names → IsIndexOf self.new (names ++ name.now ∷ [])) }
    {
        self.places.insert(Vec::from_slice(alloc, name)?, place)?;
        Ok(())
    }
}
