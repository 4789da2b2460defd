// The bits that a walk has met, each once, in the order in which it met them.
ghost use Rattle.std.specs.Prelude.{◌≡◌, ◌<◌, ◌^◌, [], nat_eq, length, slice_get, OnOk};
ghost use Rattle.std.specs.List.{IsDistinct};
ghost use Rattle.calm_reach.specs.Walks.{AddsBit};

use coco_base::NoMemory;
use indexmap::IndexSet;
use std::alloc::Global;
use std::marker::Model;

/// Bits, seen by contracts as a list in which none stands twice.
#[derive(Debug, Drop)]
pub(crate) struct Met {
    bits: IndexSet<u32>,
}

impl Model for Met {
    ghost use Rattle.std.specs.Prelude.{ℕ, List, nat_eq};
    ghost use Rattle.std.specs.List.{IsDistinct};

    ghost Value = { List ℕ };

    ghost view = { λ m. m.bits.keys };

    ghost invariant = { λ m. IsDistinct nat_eq m.bits.keys };
}

impl Met {
    pub(crate) fn new(alloc: Global) -> Met
        ensures { result ≡ [] }
    {
        Met {
            bits: IndexSet::new(alloc),
        }
    }

    /// Adds a bit, unless it is there.
    pub(crate) fn add(&mut self, bit: u32) -> Result<(), NoMemory>
        ensures { OnOk result (AddsBit bit self.old self.new) }
    {
        self.bits.insert(bit)?;
        Ok(())
    }

    /// The bit at a place.
    pub(crate) fn get(&self, place: usize) -> Option<u32>
        ensures bit { result ≡ slice_get self.now place }
        ensures distinct { IsDistinct nat_eq self.now }
        ensures small { length self.now < 2 ^ 63 }
    {
        let _count = self.bits.len();
        self.bits.get_index(place).copied()
    }
}
