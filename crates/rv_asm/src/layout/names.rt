//! The names that are defined so far, and what they stand for.
ghost use Rattle.std.specs.Prelude.{◌≡◌, List, [], ◌∷◌, ◌++◌, length, take, None, OnErr, OnOk};
ghost use Rattle.rv_asm.specs.Names.{meaning_of};

use coco_base::NoMemory;
use indexmap::IndexMap;
use std::alloc::Global;
use std::marker::Model;

// What a name stands for.
#[derive(Clone, Copy, Debug, PartialEq, Eq)]
pub(crate) struct Meaning {
    // An address for a label.
    pub(crate) value: i64,
    // Whether `.equ` or `.set` defined it.
    pub(crate) is_number: bool,
}

// Names and their meanings, in order of definition. Contracts see them as a list of pairs.
#[derive(Drop)]
pub(crate) struct Names {
    table: IndexMap<Vec<u8>, Meaning>,
}

impl Model for Names {
    ghost use Rattle.std.specs.Prelude.{ℕ, List};
    ghost use Rattle.rv_asm.specs.declared.layout.names.Meaning.{Meaning};
    ghost use Rattle.rv_asm.specs.Names.{bytes_of_keys};

    ghost Value = { List (List ℕ × Meaning) };

    ghost view = { λ n. bytes_of_keys n.table.entries };
}

impl Names {
    pub(crate) fn new(alloc: Global) -> Names
        ensures { result ≡ [] }
    {
        Names {
            table: IndexMap::new(alloc),
        }
    }

    pub(crate) fn len(&self) -> usize
        ensures { result ≡ length self.now }
    {
        self.table.len()
    }

    // What a name stands for, where it is defined.
    pub(crate) fn get(&self, name: &[u8]) -> Option<Meaning>
        ensures { result ≡ meaning_of self.now name.now }
    {
        self.table.get(name).copied()
    }

    // Defines a name that is not defined yet.
    pub(crate) fn add(
        &mut self,
        alloc: Global,
        name: &[u8],
        meaning: Meaning,
    ) -> Result<(), NoMemory>
        requires { meaning_of self.old name.now ≡ None }
        ensures ok { OnOk result (self.new ≡ self.old ++ (name.now, meaning) ∷ []) }
        ensures err { OnErr result (self.new ≡ self.old) }
    {
        let key = Vec::from_slice(alloc, name)?;
        self.table.insert(key, meaning)?;
        Ok(())
    }

    // Forgets all names but the first `count`.
    pub(crate) fn truncate(&mut self, count: usize)
        ensures { self.new ≡ take count self.old }
    {
        self.table.truncate(count);
    }
}
