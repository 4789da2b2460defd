ghost use Rattle.std.specs.Prelude.{◌≡◌, ℕ, ◌<◌, [], ◌∷◌, ◌++◌, length, slice_get, OnOk};
ghost use Rattle.std.specs.List.{swap_remove};

use coco_base::NoMemory;
use std::alloc::Global;
use std::marker::Model;

/// Numbers of clauses in no order. Contracts see the list of them.
#[derive(Debug, Drop)]
pub(crate) struct Entries {
    ids: Vec<u32>,
}

impl Model for Entries {
    ghost use Rattle.std.specs.Prelude.{ℕ, List};

    ghost Value = { List ℕ };

    ghost view = { λ e. e.ids.items };
}

impl Entries {
    pub(crate) fn new(alloc: Global) -> Self
        ensures { result ≡ [] }
    {
        Entries {
            ids: Vec::new(alloc),
        }
    }

    pub(crate) fn len(&self) -> usize
        ensures { result ≡ length self.now }
    {
        self.ids.len()
    }

    pub(crate) fn id(&self, entry: usize) -> u32
        requires { entry < length self.now }
        ensures { slice_get self.now entry ≡ Some result }
    {
        self.ids[entry]
    }

    pub(crate) fn push(&mut self, id: u32) -> Result<(), NoMemory>
        ensures { OnOk result (self.new ≡ self.old ++ id ∷ []) }
    {
        self.ids.push(id)?;
        Ok(())
    }

    /// Takes a number out, and puts the last one into its place.
    pub(crate) fn remove(&mut self, entry: usize)
        requires { entry < length self.old }
        ensures { self.new ≡ swap_remove self.old entry 0 }
    {
        self.ids.swap_remove(entry);
    }
}
