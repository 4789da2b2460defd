use bind_run::BindFault;
use circuit_rows::RowFault;
use gate_graph::GraphFault;
use label_file::LabelFault;

/// Why rows and a label file make no run: the first step that has a fault. Each fault of a step may be want of memory.
#[derive(Debug, Drop)]
pub enum RunFault {
    /// The rows are no circuit.
    Rows(RowFault),
    /// The label file is refused.
    Labels(LabelFault),
    /// The circuit cannot have the ports of the words that are leaves.
    Widening(BindFault),
    /// The netlist names bits that it has not, or has too many parts.
    Range,
    /// The netlist has no graph.
    Graph(GraphFault),
    /// The label file does not fit the netlist.
    Binding(BindFault),
}
