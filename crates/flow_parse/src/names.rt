//! Places by names.
ghost use Rattle.std.specs.Prelude.{◌≡◌, ℕ, List, Some, None, if◌then◌else◌, OnOk, OnErr};
ghost use Rattle.std.specs.Str.{bytes_eq};
ghost use Rattle.flow_parse.specs.Places.{place_in};

use std::alloc::{AllocError, Global};
use std::collections::BTreeMap;

/// Which place each name has, where it has one.
#[derive(Drop)]
pub struct Names {
    pub places: BTreeMap<Vec<u8>, usize>,
}

impl Names {
    pub fn new(alloc: Global) -> Names
        ensures { (name : List ℕ) → place_in result.places name ≡ None }
    {
        Names {
            places: BTreeMap::new(alloc),
        }
    }

    pub fn place(&self, name: &[u8]) -> Option<usize>
        ensures { result ≡ place_in self.now.places name.now }
    {
        self.places.get(name).copied()
    }

    /// Gives a name this place, whatever it had.
    pub fn put(&mut self, alloc: Global, name: &[u8], place: usize) -> Result<(), AllocError>
        ensures ok { OnOk result ((other : List ℕ) → place_in self.new.places other ≡ (if bytes_eq name.now other then Some place else place_in self.old.places other)) }
        ensures err { OnErr result ((other : List ℕ) → place_in self.new.places other ≡ place_in self.old.places other) }
    {
        let key = Vec::from_slice(alloc, name)?;
        self.places.insert(key, place)?;
        Ok(())
    }
}
