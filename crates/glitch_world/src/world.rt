ghost use Rattle.std.specs.Prelude.{◌≡◌, ◌↔◌, ◌<◌, length, IfOk, IsTrue};
ghost use Rattle.glitch_world.specs.Leaves.{IsLeafBit};

use coco_base::NoMemory;
use gate_graph::{Driver, Graph, cell_value};
use std::alloc::Global;
use std::marker::Model;

/// One event within a cycle: a leaf, by its bit, takes its new value, or a cell, by its number, computes its output
/// from the present values of its inputs.
#[derive(Clone, Copy, Debug, PartialEq, Eq)]
pub enum Event {
    Leaf(u32),
    Cell(u32),
}

/// A cycle between two settled valuations. It begins settled under the old leaves; contracts see it as its netlist's
/// graph, the new values of the leaves, and the present valuation.
#[derive(Debug, Drop)]
pub struct World<'a> {
    graph: &'a Graph,
    leaves: Vec<bool>,
    values: Vec<bool>,
}

impl<'a> Model for World<'a> {
    ghost use Rattle.glitch_world.specs.States.{WorldState, IsWorldState, state_of};

    ghost Value = { WorldState };

    ghost view = { λ w. state_of w.graph.now w.leaves.items w.values.items };

    ghost invariant = { λ w. IsWorldState (state_of w.graph.now w.leaves.items w.values.items) };
}

impl<'a> World<'a> {
    ghost use Rattle.gate_graph.specs.Settled.{valuation_of};
    ghost use Rattle.glitch_world.specs.States.{IsStart, IsEventIn, IsChange, IsAfter};

    /// The world at the beginning of a cycle: all cells are settled under the old values of the leaves. What stands in
    /// the lists at other bits than those of flops and input ports does not count.
    pub fn start(
        alloc: Global,
        graph: &'a Graph,
        old: &[bool],
        new: &[bool],
    ) -> Result<Self, NoMemory>
        requires old { length old.now ≡ graph.now.flat.bits }
        requires new { length new.now ≡ graph.now.flat.bits }
        ensures { IfOk result (IsStart graph.now old.now new.now) }
    {
        let mut values = Vec::from_slice(alloc, old)?;
        graph.settle(old, values.as_mut_slice());
        let leaves = Vec::from_slice(alloc, new)?;
        Ok(World {
            graph,
            leaves,
            values,
        })
    }

    /// Makes one event: of a bit that a flop or an input port drives, or of a cell. It takes no memory.
    pub fn event(&mut self, event: Event)
        requires { IsEventIn self.old.gates event }
        ensures { IsAfter self.old event self.new }
    {
        let (bit, value) = self.change(event);
        let place = bit as usize;
        self.values[place] = value;
    }

    /// Whether an event is one of this world: of a bit that a flop or an input port drives, or of a cell. It takes no
    /// memory.
    pub fn has_event(&self, event: Event) -> bool
        ensures { IsTrue result ↔ IsEventIn self.now.gates event }
    {
        match event {
            Event::Leaf(bit) => bit < self.graph.bits() && is_leaf(self.graph, bit),
            Event::Cell(number) => number < self.graph.cells(),
        }
    }

    /// The bit that an event sets, and the value that it gets.
    fn change(&self, event: Event) -> (u32, bool)
        requires { IsEventIn self.now.gates event }
        ensures change { IsChange self.now event result.0 result.1 }
        ensures inside { result.0 < length self.now.values }
    {
        match event {
            Event::Leaf(bit) => (bit, self.leaves[bit as usize]),
            Event::Cell(number) => {
                let cell = self.graph.cell(number);
                (cell.output, cell_value(self.values.as_slice(), cell))
            }
        }
    }

    /// The present value of a bit. It takes no memory.
    pub fn value(&self, bit: u32) -> bool
        requires { bit < self.now.gates.flat.bits }
        ensures { result ≡ valuation_of self.now.values bit }
    {
        self.values[bit as usize]
    }
}

fn is_leaf(graph: &Graph, bit: u32) -> bool
    requires { bit < graph.now.flat.bits }
    ensures { IsTrue result ↔ IsLeafBit graph.now bit }
{
    match graph.driver(bit) {
        Driver::Port(_) | Driver::Flop(_) => true,
        Driver::Cell(_) | Driver::Nothing => false,
    }
}
