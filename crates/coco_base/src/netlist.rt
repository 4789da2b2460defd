use crate::cell::Kind;
use crate::list::List;
use crate::text::Text;

/// What a place of a cell, a flop, a port or a net is tied to: a constant, or a bit of the flat netlist by its number.
#[derive(Clone, Copy, Debug, PartialEq, Eq)]
pub enum Wire {
    Const(bool),
    Bit(u32),
}

/// A gate. The inputs stand in the order A, B, C, D, and for multiplexers A, B, S; a place that the kind does not
/// read is `Const(false)`.
#[derive(Debug, Drop)]
pub struct FlatCell {
    pub name: Text,
    pub kind: Kind,
    pub inputs: [Wire; 4],
    pub output: u32,
}

/// A flop, which takes the value of `next` at each clock edge. `reset` is an asynchronous reset and `level` the level
/// at which it is active, false where there is none.
#[derive(Debug, Drop)]
pub struct FlatFlop {
    pub name: Text,
    pub clock: Wire,
    pub next: Wire,
    pub output: u32,
    pub reset: Option<Wire>,
    pub level: bool,
}

/// A port, its wires least significant first.
#[derive(Debug, Drop)]
pub struct FlatPort {
    pub name: Text,
    pub input: bool,
    pub wires: List<Wire>,
}

/// A named net, its wires least significant first.
#[derive(Debug, Drop)]
pub struct FlatNet {
    pub name: Text,
    pub wires: List<Wire>,
}

/// A netlist of one module, whose bits are the numbers below `bits`. Each list stands in order of names.
#[derive(Debug, Drop)]
pub struct Flat {
    pub bits: u32,
    pub ports: List<FlatPort>,
    pub cells: List<FlatCell>,
    pub flops: List<FlatFlop>,
    pub nets: List<FlatNet>,
}
