use coco_base::NoMemory;

/// Why a run has no cones.
#[derive(Clone, Copy, Debug, PartialEq, Eq)]
pub enum ConeFault {
    /// The weight is above the limit; `count` is the first sum above it, the nodes added in order.
    TooLarge { count: u64, limit: u64 },
    /// Memory was refused.
    Memory,
}

impl From<NoMemory> for ConeFault {
    ghost use Rattle.std.specs.Prelude.{◌≡◌};
    ghost use Rattle.label_cone.specs.declared.fault.ConeFault.TheVariants.{Memory};

    ghost from_gives = { λ _ e. e ≡ Memory };

    fn from(_: NoMemory) -> Self {
        ConeFault::Memory
    }
}
