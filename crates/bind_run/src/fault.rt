ghost use Rattle.std.specs.Prelude.{◌≡◌};
ghost use Rattle.bind_run.specs.declared.fault.BindFault.TheVariants.{Memory};

use coco_base::{NoMemory, Text};

/// Why a label file does not fit a netlist. The net is named by the word of its line, an input port bit by its name.
#[derive(Debug, Drop)]
pub enum BindFault {
    /// No net and no port has the name, with an index or without.
    NoSuchNet { name: Text },
    /// The index is not below the net's width, or the width is not what the line needs.
    Width { name: Text },
    /// A bit is not the output of a flop (`reg`), or not that of an input port (all other lines that bind).
    WrongDriver { name: Text },
    /// A clock line names another bit than the netlist's clock, and one that is read; or another line binds the clock.
    ClockMismatch { name: Text },
    /// A bit is bound by a line before, or by a place before of the same net.
    BoundTwice { name: Text },
    /// This is the least bit of an input port that no line binds.
    InputUnbound { name: Text },
    /// The port of a memory word that is made leaves has the name of a port or net.
    NameTaken { name: Text },
    /// The netlist has more bits with its word leaves than the limit.
    LeafBits { count: u64, limit: u64 },
    /// Memory was refused.
    Memory,
}

impl From<NoMemory> for BindFault {
    ghost from_gives = { λ _ e. e ≡ Memory };

    fn from(_: NoMemory) -> Self {
        BindFault::Memory
    }
}
