//! The addresses of the memory words that lines have named so far.
ghost use Rattle.std.specs.Prelude.{◌≡◌, [], ◌∷◌, ◌++◌, false, OnOk};
ghost use Rattle.label_file.specs.Readings.{has_address};

use coco_base::NoMemory;
use indexmap::IndexSet;
use std::alloc::Global;
use std::marker::Model;

/// Addresses, in the order of their lines. Contracts see them as a list.
#[derive(Debug, Drop)]
pub(crate) struct Addresses {
    set: IndexSet<u32>,
}

impl Model for Addresses {
    ghost use Rattle.std.specs.Prelude.{ℕ, List};

    ghost Value = { List ℕ };

    ghost view = { λ a. a.set.keys };
}

impl Addresses {
    pub(crate) fn new(alloc: Global) -> Addresses
        ensures { result ≡ [] }
    {
        Addresses {
            set: IndexSet::new(alloc),
        }
    }

    pub(crate) fn has(&self, address: u32) -> bool
        ensures { result ≡ has_address self.now address }
    {
        self.set.contains(&address)
    }

    /// Adds an address that is not there yet.
    pub(crate) fn add(&mut self, address: u32) -> Result<(), NoMemory>
        requires { has_address self.old address ≡ false }
        ensures { OnOk result (self.new ≡ self.old ++ address ∷ []) }
    {
        self.set.insert(address)?;
        Ok(())
    }
}
