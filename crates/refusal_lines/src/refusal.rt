use bind_run::BindFault;
use coco_base::Text;
use derivation_check::ProofFault;
use gate_graph::GraphFault;
use label_cone::ConeFault;
use label_file::LabelFault;
use netlist_json::NetFault;
use rv_asm::AsmFault;
use unroll::UnrollFault;

/// Why a call is refused: a fault of what was handed in. Want of memory is none of them, though the faults of the layers
/// have it too.
#[derive(Debug, Drop)]
pub enum Refusal {
    /// The file of this name has more than 134,217,728 bytes.
    Long { name: Text },
    /// The netlist is not read.
    Net(NetFault),
    /// The netlist has no graph.
    Graph(GraphFault),
    /// The program is not read.
    Asm(AsmFault),
    /// The label file is not read.
    Label(LabelFault),
    /// The label file does not fit the netlist.
    Bind(BindFault),
    /// The run is not unrolled.
    Unroll(UnrollFault),
    /// The cones of the run are too large.
    Cone(ConeFault),
    /// The derivation of a proof file is not read.
    Proof(ProofFault),
    /// A proof file differs in this line from the report and the formula.
    Other { line: u32 },
}
