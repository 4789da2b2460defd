use coco_base::{NoMemory, Text};
use std::alloc::{AllocError, AllocFailed};

/// Why bytes are not read as a netlist. The order is that in which the faults are looked for, but that the faults of
/// cells come cell by cell.
#[derive(Debug, Drop)]
pub enum NetFault {
    /// They are no JSON value.
    NotJson,
    /// The first part of the file that has not the form of a Yosys netlist.
    Shape { path: Text },
    /// There is no module, or none of the name that was given.
    NoTop,
    /// There are several modules, and no name was given.
    ManyTops,
    /// The first port by name that is neither an input nor an output.
    Inout { port: Text },
    /// The first cell at fault has a type that is neither a gate nor a rising-edge flop.
    UnknownCell { cell: Text, kind: Text },
    /// The first cell at fault has a port that is missing, is not one bit wide or is no port of its type, or an output
    /// that is tied to a constant.
    BadConnection { cell: Text, port: Text },
    /// There are more bits than the limit, those of new multiplexers counted.
    TooMany { count: u64, limit: u64 },
    /// Memory was refused.
    Memory,
}

impl From<NoMemory> for NetFault {
    ghost use Rattle.std.specs.Prelude.{◌≡◌};
    ghost use Rattle.netlist_json.specs.declared.fault.NetFault.TheVariants.{Memory};

    ghost from_gives = { λ _ fault. fault ≡ Memory };

    fn from(_: NoMemory) -> Self {
        NetFault::Memory
    }
}

impl From<AllocError> for NetFault {
    ghost use Rattle.std.specs.Prelude.{◌≡◌};
    ghost use Rattle.netlist_json.specs.declared.fault.NetFault.TheVariants.{Memory};

    ghost from_gives = { λ _ fault. fault ≡ Memory };

    fn from(_: AllocError) -> Self {
        NetFault::Memory
    }
}

impl<T: Drop> From<AllocFailed<T>> for NetFault {
    ghost use Rattle.std.specs.Prelude.{◌≡◌};
    ghost use Rattle.netlist_json.specs.declared.fault.NetFault.TheVariants.{Memory};

    ghost from_gives = { λ _ fault. fault ≡ Memory };

    fn from(_: AllocFailed<T>) -> Self {
        NetFault::Memory
    }
}
