//! The names that are declared so far, and the labels that they stand for.
ghost use Rattle.std.specs.Prelude.{◌≡◌, [], ◌∷◌, ◌++◌, None, OnErr, OnOk};
ghost use Rattle.label_file.specs.Names.{meaning_of};

use coco_base::NoMemory;
use indexmap::IndexMap;
use std::alloc::Global;
use std::marker::Model;

/// What a name stands for.
#[derive(Clone, Copy, Debug, PartialEq, Eq)]
pub(crate) enum Meaning {
    /// The labels of a secret from number `first` on, share by share.
    Secret { first: u32, width: u32, shares: u32 },
    /// The labels of a mask from number `first` on.
    Mask { first: u32, width: u32 },
    /// New labels in each cycle, which have no numbers here.
    Fresh,
}

/// Names and their meanings, in the order of their lines. Contracts see them as a list of pairs.
#[derive(Debug, Drop)]
pub(crate) struct Names {
    table: IndexMap<Vec<u8>, Meaning>,
}

impl Model for Names {
    ghost use Rattle.std.specs.Prelude.{ℕ, List};
    ghost use Rattle.label_file.specs.declared.names.Meaning.{Meaning};
    ghost use Rattle.label_file.specs.Names.{bytes_of_keys};

    ghost Value = { List (List ℕ × Meaning) };

    ghost view = { λ n. bytes_of_keys n.table.entries };
}

impl Names {
    pub(crate) fn new(alloc: Global) -> Names
        ensures { result ≡ [] }
    {
        Names {
            table: IndexMap::new(alloc),
        }
    }

    /// What a name stands for, where it is declared.
    pub(crate) fn get(&self, name: &[u8]) -> Option<Meaning>
        ensures { result ≡ meaning_of self.now name.now }
    {
        self.table.get(name).copied()
    }

    /// Declares a name that is not declared yet.
    pub(crate) fn add(
        &mut self,
        alloc: Global,
        name: &[u8],
        meaning: Meaning,
    ) -> Result<(), NoMemory>
        requires { meaning_of self.old name.now ≡ None }
        ensures ok { OnOk result (self.new ≡ self.old ++ (name.now, meaning) ∷ []) }
    {
        let key = Vec::from_slice(alloc, name)?;
        self.table.insert(key, meaning)?;
        Ok(())
    }
}
