//! The bits that lines have bound so far.
ghost use Rattle.std.specs.Prelude.{◌≡◌, [], ◌∷◌, ◌++◌, false, OnOk};
ghost use Rattle.bind_run.specs.Binding.{has_bit};

use coco_base::NoMemory;
use indexmap::IndexSet;
use std::alloc::Global;
use std::marker::Model;

/// Bits, in the order in which they were bound. Contracts see them as a list.
#[derive(Debug, Drop)]
pub(crate) struct Bound {
    set: IndexSet<u32>,
}

impl Model for Bound {
    ghost use Rattle.std.specs.Prelude.{ℕ, List};

    ghost Value = { List ℕ };

    ghost view = { λ b. b.set.keys };
}

impl Bound {
    pub(crate) fn new(alloc: Global) -> Bound
        ensures { result ≡ [] }
    {
        Bound {
            set: IndexSet::new(alloc),
        }
    }

    pub(crate) fn has(&self, bit: u32) -> bool
        ensures { result ≡ has_bit self.now bit }
    {
        self.set.contains(&bit)
    }

    /// Adds a bit that is not bound yet.
    pub(crate) fn add(&mut self, bit: u32) -> Result<(), NoMemory>
        requires { has_bit self.old bit ≡ false }
        ensures { OnOk result (self.new ≡ self.old ++ bit ∷ []) }
    {
        self.set.insert(bit)?;
        Ok(())
    }
}
