ghost use Rattle.std.specs.Prelude.{◌≡◌};

/// How large a run may be: bits of the flat netlist, declared labels, bits times cycles, and the weight of its cones.
#[derive(Clone, Copy, Debug, PartialEq, Eq)]
pub struct Limits {
    pub bits: u32,
    pub labels: u32,
    pub nodes: u64,
    pub weight: u64,
}

impl Limits {
    /// The limits of the programs.
    pub fn usual() -> Self
        ensures bits { result.bits ≡ 1000000 }
        ensures labels { result.labels ≡ 4096 }
        ensures nodes { result.nodes ≡ 4000000 }
        ensures weight { result.weight ≡ 16000000 }
    {
        Limits {
            bits: 1_000_000,
            labels: 4_096,
            nodes: 4_000_000,
            weight: 16_000_000,
        }
    }
}
