//! The names of nets and ports, and their wires.
ghost use Rattle.std.specs.Prelude.{◌≡◌, [], ◌∷◌, ◌++◌, None, OnOk};
ghost use Rattle.std.specs.Option.{option_map};
ghost use Rattle.bind_run.specs.Nets.{wires_named};

use coco_base::{NoMemory, Wire};
use indexmap::IndexMap;
use std::alloc::Global;
use std::marker::Model;

/// Names and their wires. Contracts see them as a list of pairs, in which the first of a name counts.
#[derive(Debug, Drop)]
pub(crate) struct Names<'a> {
    table: IndexMap<Vec<u8>, &'a [Wire]>,
}

impl<'a> Model for Names<'a> {
    ghost use Rattle.std.specs.Prelude.{List};
    ghost use Rattle.bind_run.specs.Nets.{Named};
    ghost use Rattle.bind_run.specs.NameTables.{seen_entries};

    ghost Value = { List Named };

    ghost view = { λ n. seen_entries n.table.entries };
}

impl<'a> Names<'a> {
    pub(crate) fn new(alloc: Global) -> Names<'a>
        ensures { result ≡ [] }
    {
        Names {
            table: IndexMap::new(alloc),
        }
    }

    /// The wires of a name.
    pub(crate) fn get(&self, name: &[u8]) -> Option<&'a [Wire]>
        ensures { option_map (λ ws. ws.now) result ≡ wires_named self.now name.now }
    {
        self.table.get(name).copied()
    }

    /// Adds a name that is not there yet.
    pub(crate) fn add(
        &mut self,
        alloc: Global,
        name: &[u8],
        wires: &'a [Wire],
    ) -> Result<(), NoMemory>
        requires { wires_named self.old name.now ≡ None }
        ensures { OnOk result (self.new ≡ self.old ++ (name.now, wires.entry.now) ∷ []) }
    {
        let key = Vec::from_slice(alloc, name)?;
        self.table.insert(key, wires)?;
        Ok(())
    }
}
