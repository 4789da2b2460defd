ghost use Rattle.std.specs.Prelude.{◌≡◌};
ghost use Rattle.refusal_lines.specs.Stops.{asm_stop, bind_stop, cone_stop, graph_stop, label_stop, net_stop, unroll_stop};
ghost use Rattle.refusal_lines.specs.declared.stop.Stop.TheVariants.{Memory};

use crate::refusal::Refusal;
use bind_run::BindFault;
use coco_base::NoMemory;
use gate_graph::GraphFault;
use label_cone::ConeFault;
use label_file::LabelFault;
use netlist_json::NetFault;
use rv_asm::AsmFault;
use unroll::UnrollFault;

/// Why a run is not judged.
#[derive(Debug, Drop)]
pub enum Stop {
    /// What was handed in is refused.
    Refused(Refusal),
    /// Memory was refused.
    Memory,
}

impl From<NoMemory> for Stop {
    ghost from_gives = { λ _ stop. stop ≡ Memory };

    fn from(_: NoMemory) -> Self {
        Stop::Memory
    }
}

impl From<NetFault> for Stop {
    ghost from_gives = { λ fault stop. stop ≡ net_stop fault };

    #[tactic(auto, using(crate::proofs::Others::net_other))]
    fn from(fault: NetFault) -> Self {
        match fault {
            NetFault::Memory => Stop::Memory,
            fault => Stop::Refused(Refusal::Net(fault)),
        }
    }
}

impl From<GraphFault> for Stop {
    ghost from_gives = { λ fault stop. stop ≡ graph_stop fault };

    #[tactic(auto, using(crate::proofs::Others::graph_other))]
    fn from(fault: GraphFault) -> Self {
        match fault {
            GraphFault::Memory => Stop::Memory,
            fault => Stop::Refused(Refusal::Graph(fault)),
        }
    }
}

impl From<AsmFault> for Stop {
    ghost from_gives = { λ fault stop. stop ≡ asm_stop fault };

    #[tactic(auto, using(crate::proofs::Others::asm_other))]
    fn from(fault: AsmFault) -> Self {
        match fault {
            AsmFault::Memory => Stop::Memory,
            fault => Stop::Refused(Refusal::Asm(fault)),
        }
    }
}

impl From<LabelFault> for Stop {
    ghost from_gives = { λ fault stop. stop ≡ label_stop fault };

    #[tactic(auto, using(crate::proofs::Others::label_other))]
    fn from(fault: LabelFault) -> Self {
        match fault {
            LabelFault::Memory => Stop::Memory,
            fault => Stop::Refused(Refusal::Label(fault)),
        }
    }
}

impl From<BindFault> for Stop {
    ghost from_gives = { λ fault stop. stop ≡ bind_stop fault };

    #[tactic(auto, using(crate::proofs::Others::bind_other))]
    fn from(fault: BindFault) -> Self {
        match fault {
            BindFault::Memory => Stop::Memory,
            fault => Stop::Refused(Refusal::Bind(fault)),
        }
    }
}

impl From<UnrollFault> for Stop {
    ghost from_gives = { λ fault stop. stop ≡ unroll_stop fault };

    #[tactic(auto, using(crate::proofs::Others::unroll_other))]
    fn from(fault: UnrollFault) -> Self {
        match fault {
            UnrollFault::Memory => Stop::Memory,
            fault => Stop::Refused(Refusal::Unroll(fault)),
        }
    }
}

impl From<ConeFault> for Stop {
    ghost from_gives = { λ fault stop. stop ≡ cone_stop fault };

    #[tactic(auto, using(crate::proofs::Others::cone_other))]
    fn from(fault: ConeFault) -> Self {
        match fault {
            ConeFault::Memory => Stop::Memory,
            fault => Stop::Refused(Refusal::Cone(fault)),
        }
    }
}
