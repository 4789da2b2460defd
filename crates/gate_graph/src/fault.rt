ghost use Rattle.std.specs.Prelude.{◌≡◌};
ghost use Rattle.gate_graph.specs.declared.fault.GraphFault.TheVariants.{Memory};

use coco_base::{List, NoMemory, Text};

/// Why a netlist has no graph, in the order of what is reported first.
#[derive(Debug, Drop)]
pub enum GraphFault {
    /// The least bit with two drivers, and the names of the port, cell or flop of its first two.
    TwoDrivers {
        bit: Text,
        first: Text,
        second: Text,
    },
    /// The cells of a loop, each driving the first input without a level of the one before.
    Loop {
        cells: List<Text>,
    },
    /// The first flop or cell that is at odds with the one clock.
    SecondClock {
        cell: Text,
    },
    /// Memory was refused.
    Memory,
}

impl From<NoMemory> for GraphFault {
    ghost from_gives = { λ _ e. e ≡ Memory };

    fn from(_: NoMemory) -> Self {
        GraphFault::Memory
    }
}
