ghost use Rattle.std.specs.Prelude.{◌≡◌, ◌<◌, length, get_or, slice_get, Some};
ghost use Rattle.gate_graph.specs.declared.driver.Driver.TheVariants.{Nothing};

use crate::driver::Driver;
use crate::settle::{place_leaves, settle_cells};
use coco_base::{Flat, FlatCell, FlatFlop};
use std::marker::Model;

/// The gates of a flat netlist in an order in which each cell comes after its inputs. It owns a copy of the netlist, and
/// contracts see what it has by `IsBuilt`.
#[derive(Debug, Drop)]
pub struct Graph {
    pub(crate) flat: Flat,
    pub(crate) drivers: Vec<Driver>,
    pub(crate) ranks: Vec<u32>,
    pub(crate) order: Vec<u32>,
    pub(crate) clock: Option<u32>,
}

impl Model for Graph {
    ghost use Rattle.gate_graph.specs.Graphs.{Gates, IsBuilt, gates_of};

    ghost Value = { Gates };

    ghost view = { λ g. gates_of g.flat g.drivers.items g.ranks.items g.order.items g.clock };

    ghost invariant = { λ g. IsBuilt (gates_of g.flat g.drivers.items g.ranks.items g.order.items g.clock) };
}

impl Graph {
    ghost use Rattle.gate_graph.specs.Graphs.{IsBuilt, rank_in};
    ghost use Rattle.gate_graph.specs.Drivers.{IsDriver};
    ghost use Rattle.gate_graph.specs.Settled.{valuation_of, IsSettledBy};

    /// How many bits the netlist has; their numbers are those below.
    pub fn bits(&self) -> u32
        ensures bits { result ≡ self.now.flat.bits }
        ensures built { IsBuilt self.now }
    {
        self.flat.bits
    }

    /// The place of a bit in an order in which a cell's output comes after what the cell reads: bits that no cell drives
    /// first, by number, and then the outputs of cells by level, and in a level by number.
    pub fn rank(&self, bit: u32) -> u32
        requires { bit < self.now.flat.bits }
        ensures rank { result ≡ rank_in self.now bit }
        ensures below { result < self.now.flat.bits }
        ensures built { IsBuilt self.now }
    {
        self.ranks[bit as usize]
    }

    /// What drives a bit.
    pub fn driver(&self, bit: u32) -> Driver
        requires { bit < self.now.flat.bits }
        ensures driver { IsDriver self.now.flat bit result }
        ensures listed { result ≡ get_or self.now.drivers bit Nothing }
        ensures built { IsBuilt self.now }
    {
        self.drivers[bit as usize]
    }

    /// The bit that clocks all flops; none where there are no flops.
    pub fn clock(&self) -> Option<u32>
        ensures clock { result ≡ self.now.clock }
        ensures built { IsBuilt self.now }
    {
        self.clock
    }

    /// The cell of a number.
    pub fn cell(&self, index: u32) -> &FlatCell
        requires { index < length self.now.flat.cells }
        ensures cell { slice_get self.now.flat.cells index ≡ Some result.now }
        ensures built { IsBuilt self.now }
    {
        &self.flat.cells.as_slice()[index as usize]
    }

    /// How many cells there are; their numbers are those below.
    pub fn cells(&self) -> u32
        ensures cells { result ≡ length self.now.flat.cells }
        ensures built { IsBuilt self.now }
    {
        self.flat.cells.len() as u32
    }

    /// The flop of a number.
    pub fn flop(&self, index: u32) -> &FlatFlop
        requires { index < length self.now.flat.flops }
        ensures flop { slice_get self.now.flat.flops index ≡ Some result.now }
        ensures built { IsBuilt self.now }
    {
        &self.flat.flops.as_slice()[index as usize]
    }

    /// How many flops there are; their numbers are those below.
    pub fn flops(&self) -> u32
        ensures flops { result ≡ length self.now.flat.flops }
        ensures built { IsBuilt self.now }
    {
        self.flat.flops.len() as u32
    }

    /// The numbers of all cells, by the ranks of their outputs: each comes after those that drive its inputs.
    pub fn order(&self) -> &[u32]
        ensures order { result.now ≡ self.now.order }
        ensures built { IsBuilt self.now }
    {
        self.order.as_slice()
    }

    /// Writes the one settled valuation in which input ports and flops drive the bits with the values given. What stands
    /// in `leaves` at other bits does not count. It takes no memory.
    pub fn settle(&self, leaves: &[bool], out: &mut [bool])
        requires leaves { length leaves.now ≡ self.now.flat.bits }
        requires out { length out.old ≡ self.now.flat.bits }
        ensures settled { IsSettledBy self.now.flat (valuation_of leaves.now) (valuation_of out.new) }
        ensures built { IsBuilt self.now }
    {
        place_leaves(self.drivers.as_slice(), leaves, out);
        settle_cells(&self.flat, self.order.as_slice(), out);
    }
}
