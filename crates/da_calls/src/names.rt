//! The numbers of methods, by their names.
ghost use Rattle.da_calls.specs.CallNames.{number_in, PutUnder};
ghost use Rattle.std.specs.Prelude.{◌≡◌, None, OnOk, ℕ, List};

use da_values::NoMemory;
use std::alloc::Global;
use std::collections::BTreeMap;

/// Numbers of names. A name has one number at most.
#[derive(Drop)]
pub struct Numbers {
    map: BTreeMap<Vec<u8>, usize>,
}

impl Numbers {
    /// No name has a number.
    pub fn new(alloc: Global) -> Numbers
        ensures { (name : List ℕ) → number_in result name ≡ None }
    {
        Numbers {
            map: BTreeMap::new(alloc),
        }
    }

    /// The number of a name.
    pub fn find(&self, name: &[u8]) -> Option<usize>
        ensures { result ≡ number_in self.now name.now }
    {
        self.map.get(name).copied()
    }

    /// Gives a number to a name, in the place of the one that it has.
    pub fn put(&mut self, alloc: Global, name: &[u8], number: usize) -> Result<(), NoMemory>
        ensures { OnOk result (PutUnder name.now number self.old self.new) }
    {
        let mut key = Vec::new(alloc);
        match key.extend_from_slice(name) {
            Ok(()) => {}
            Err(_) => return Err(NoMemory),
        }
        match self.map.insert(key, number) {
            Ok(_) => Ok(()),
            Err(_) => Err(NoMemory),
        }
    }
}
