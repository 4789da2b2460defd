use crate::cell::{Kind, Part};
use crate::labels::LabelTable;
use crate::list::List;

/// Where the value of a bit in a cycle comes from: nowhere (it is known), a label, another node, or a gate over the
/// nodes of its inputs that vary. A place that does not vary has operand 0.
#[derive(Clone, Copy, Debug, PartialEq, Eq)]
pub enum Node {
    Nothing,
    Label(u32),
    Copy(u32),
    Gate {
        kind: Kind,
        parts: [Part; 4],
        operands: [u32; 4],
    },
}

/// The nodes of a run. The node of bit b in cycle t has index `t * bits + ranks[b]`.
#[derive(Debug, Drop)]
pub struct Unrolled {
    pub bits: u32,
    pub cycles: u32,
    pub ranks: List<u32>,
    pub nodes: List<Node>,
    pub table: LabelTable,
}
