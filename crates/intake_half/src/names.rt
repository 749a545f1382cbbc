// The numbers of rows by their names.
ghost use Rattle.std.specs.Prelude.{◌≡◌, ◌≢◌, ℕ, List, Some, None, OnOk, OnErr};
ghost use Rattle.intake_half.specs.Known.{number_of};

use std::alloc::{AllocError, Global};
use std::collections::HashMap;

#[derive(Drop)]
pub(crate) struct Names {
    numbers: HashMap<Vec<u8>, u32>,
}

impl Names {
    pub(crate) fn new(alloc: Global) -> Names
        ensures { (name : List ℕ) → number_of result name ≡ None }
    {
        Names {
            numbers: HashMap::new(alloc),
        }
    }

    // The number that is told for a name.
    pub(crate) fn number(&self, name: &[u8]) -> Option<u32>
        ensures { result ≡ number_of self.now name.now }
    {
        Some(*self.numbers.get(name)?)
    }

    // Tells the number for a name.
    pub(crate) fn put(&mut self, alloc: Global, name: &[u8], row: u32) -> Result<(), AllocError>
        ensures own { OnOk result (number_of self.new name.now ≡ Some row) }
        ensures others { (other : List ℕ) → other ≢ name.now → number_of self.new other ≡ number_of self.old other }
        ensures unchanged { OnErr result ((other : List ℕ) → number_of self.new other ≡ number_of self.old other) }
    {
        let key = name.to_vec(alloc)?;
        self.numbers.insert(key, row)?;
        Ok(())
    }
}
