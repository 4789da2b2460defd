use coco_base::{NoMemory, Text};
use cycle_sim::SimFault;

/// Why a run is not unrolled.
#[derive(Debug, Drop)]
pub enum UnrollFault {
    /// Bits times cycles exceed the limit.
    TooManyNodes { count: u64, limit: u64 },
    /// The simulation of a cycle meets a fault. The name is that of the control or of the flop, and is empty where an
    /// address is outside the memory.
    Sim { fault: SimFault, name: Text },
    /// Memory was refused.
    Memory,
}

impl From<NoMemory> for UnrollFault {
    ghost use Rattle.std.specs.Prelude.{◌≡◌};
    ghost use Rattle.unroll.specs.declared.fault.UnrollFault.TheVariants.{Memory};

    ghost from_gives = { λ _ e. e ≡ Memory };

    fn from(_: NoMemory) -> Self {
        UnrollFault::Memory
    }
}
