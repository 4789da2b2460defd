ghost use Rattle.std.specs.Prelude.{◌≡◌, ◌<◌, ◌≤◌, ◌+◌, ◌&&◌, map, length, get_or, All, IfOk};
ghost use Rattle.coco_model.specs.Netlist.{wires_of};
ghost use Rattle.gate_graph.specs.Graphs.{IsBuilt};
ghost use Rattle.calm_reach.specs.CalmRows.{HasPlaces};
ghost use Rattle.probe_clauses.specs.RunViews.{view_of, IsRunView};
ghost use Rattle.probe_clauses.specs.Probings.{probing_of, varies, is_nothing, drives_leaf, is_clock, can_probe, moves_ever, is_moving, is_pair, is_open_in, is_open, open_wire, probed, moving, all_cycles};
ghost use Rattle.probe_clauses.specs.Times.{times_of};

use crate::query::Query;
use crate::walks::Times;
use calm_reach::CalmRow;
use cell_table::inputs_of;
use coco_base::{FlatCell, List, NoMemory, Node, Part, Unrolled, Wire};
use gate_graph::{Driver, Graph};
use std::alloc::Global;
use std::marker::Model;

/// A run that is probed: its graph, its nodes, what is calm in each of its cycles, and what is asked of it.
#[derive(Debug, Drop)]
pub struct ProbedRun<'a> {
    graph: &'a Graph,
    unrolled: &'a Unrolled,
    rows: &'a [CalmRow],
    query: Query,
}

impl<'a> Model for ProbedRun<'a> {
    ghost use Rattle.probe_clauses.specs.RunViews.{RunView, IsRunView, view_of};

    ghost Value = { RunView };

    ghost view = { λ r. view_of r.graph.now r.unrolled.now r.rows.now r.query };

    ghost invariant = { λ r. IsRunView (view_of r.graph.now r.unrolled.now r.rows.now r.query) };
}

impl<'a> ProbedRun<'a> {
    /// A run of a graph with its calm rows, one for each cycle.
    pub fn new(
        graph: &'a Graph,
        unrolled: &'a Unrolled,
        rows: &'a [CalmRow],
        query: Query,
    ) -> ProbedRun<'a>
        requires places { All (HasPlaces graph.now.flat) rows.now }
        requires lasting { 1 ≤ query.window }
        ensures { result ≡ view_of graph.entry.now unrolled.entry.now rows.entry.now query }
    {
        ProbedRun {
            graph,
            unrolled,
            rows,
            query,
        }
    }

    pub(crate) fn bits(&self) -> u32
        ensures { result ≡ (probing_of self.now).bits }
    {
        self.graph.bits()
    }

    pub(crate) fn cycles(&self) -> usize
        ensures { result ≡ (probing_of self.now).cycles }
    {
        self.rows.len()
    }

    pub(crate) fn order(&self) -> usize
        ensures { result ≡ (probing_of self.now).order }
    {
        self.query.order as usize
    }

    pub(crate) fn window(&self) -> usize
        ensures window { result ≡ (probing_of self.now).window }
        ensures lasting { 1 ≤ result }
    {
        self.query.window as usize
    }

    /// The numbers of the cells, by the ranks of their outputs.
    pub(crate) fn cells(&self) -> &'a [u32]
        ensures numbers { result.now ≡ self.now.gates.order }
        ensures built { IsBuilt self.now.gates }
    {
        self.graph.order()
    }

    /// The cell of a number.
    pub(crate) fn cell(&self, number: u32) -> &'a FlatCell
        requires { number < length self.now.gates.flat.cells }
        ensures output { result.now.output ≡ (probing_of self.now).output number }
        ensures wires { wires_of result.now ≡ (probing_of self.now).wires number }
    {
        self.graph.cell(number)
    }

    /// Whether a bit is not calm in a cycle.
    pub(crate) fn moves(&self, cycle: usize, bit: u32) -> bool
        ensures { result ≡ (probing_of self.now).moves cycle bit }
    {
        if cycle < self.rows.len() && bit < self.graph.bits() {
            let row = &self.rows[cycle];
            return varies(row.part(bit));
        }
        false
    }

    /// Whether a bit is not calm in some cycle.
    fn moves_ever(&self, bit: u32) -> bool
        ensures { result ≡ moves_ever (probing_of self.now) bit }
    {
        'cycles: for cycle in 0..self.cycles() {
            if self.moves(cycle, bit) {
                return true;
            }
        }
        false
    }

    /// Whether a bit can be probed.
    pub(crate) fn can_probe(&self, bit: u32) -> bool
        ensures { result ≡ can_probe (probing_of self.now) bit }
    {
        self.query.clock != Some(bit)
    }

    /// Whether a bit can be probed and is not calm in some cycle.
    pub(crate) fn is_moving(&self, bit: u32) -> bool
        ensures { result ≡ is_moving (probing_of self.now) bit }
    {
        self.can_probe(bit) && self.moves_ever(bit)
    }

    /// Whether a pair of cycle and leaf is unknown and shown by some probe.
    pub fn is_pair(&self, cycle: usize, bit: u32) -> bool
        requires cycle { cycle < length self.now.rows }
        requires bit { bit < self.now.gates.flat.bits }
        ensures { result ≡ is_pair (probing_of self.now) cycle bit }
    {
        let _cycles = self.cycles(); // so the number of the next cycle fits
        self.is_leaf(bit)
            && self.can_probe(bit)
            && !self.is_known(cycle, bit)
            && (self.moves(cycle, bit) || self.moves(cycle + 1, bit))
    }

    fn is_leaf(&self, bit: u32) -> bool
        requires { bit < self.now.gates.flat.bits }
        ensures { result ≡ (probing_of self.now).is_leaf bit }
    {
        match self.graph.driver(bit) {
            Driver::Port(_) | Driver::Flop(_) => true,
            Driver::Cell(_) | Driver::Nothing => false,
        }
    }

    /// Whether it is known what a bit is in a cycle: its node is nothing.
    fn is_known(&self, cycle: usize, bit: u32) -> bool
        requires { cycle < length self.now.rows }
        ensures { result ≡ (probing_of self.now).is_known cycle bit }
    {
        let rank = self
            .unrolled
            .ranks
            .as_slice()
            .get(bit as usize)
            .copied()
            .unwrap_or(0);
        let number = cycle as u128 * u128::from(self.graph.bits()) + u128::from(rank);
        let nodes = self.unrolled.nodes.as_slice();
        if number < nodes.len() as u128 {
            return is_nothing(nodes[number as usize]);
        }
        true
    }

    /// Whether a cell lets an input through to its output in some of the cycles.
    fn is_open(&self, times: Times, cell: u32, place: u32) -> bool
        requires times { times.first + times.count ≤ length self.now.rows }
        requires cell { cell < length self.now.gates.flat.cells }
        ensures { result ≡ is_open (probing_of self.now) (times_of times) cell place }
    {
        let _cycles = self.cycles(); // so the numbers of the cycles fit
        'cycles: for i in 0..times.count {
            if self.is_open_in(times.first + i, cell, place) {
                return true;
            }
        }
        false
    }

    /// The wire at a place of a cell, where the place is open in some of the cycles; else a constant.
    pub(crate) fn open_wire(&self, times: Times, cell: u32, place: usize) -> Wire
        requires times { times.first + times.count ≤ length self.now.rows }
        requires cell { cell < length self.now.gates.flat.cells }
        requires place { place < length ((probing_of self.now).wires cell) }
        ensures { result ≡ open_wire (probing_of self.now) (times_of times) cell place }
    {
        let wires = wires_of(self.cell(cell));
        if self.is_open(times, cell, place as u32) {
            wires[place]
        } else {
            Wire::Const(false)
        }
    }

    fn is_open_in(&self, cycle: usize, cell: u32, place: u32) -> bool
        requires cycle { cycle < length self.now.rows }
        requires cell { cell < length self.now.gates.flat.cells }
        ensures { result ≡ is_open_in (probing_of self.now) cell place cycle }
    {
        self.moves(cycle, self.cell(cell).output) && self.is_live(cycle, cell, place)
    }

    fn is_live(&self, cycle: usize, cell: u32, place: u32) -> bool
        requires cycle { cycle < length self.now.rows }
        requires cell { cell < length self.now.gates.flat.cells }
        ensures { result ≡ (probing_of self.now).is_live cycle cell place }
    {
        let rows = self.rows;
        let _count = rows.len();
        let row = &rows[cycle];
        row.live(cell, place)
    }

    /// Which bits can be probed.
    pub(crate) fn probed(&self, alloc: Global) -> Result<List<bool>, NoMemory>
        ensures { IfOk result (λ flags. flags ≡ probed (probing_of self.now)) }
    {
        let mut flags = List::new(alloc);
        'bits: for bit in 0..self.bits() {
            flags.push(self.can_probe(bit))?;
        }
        Ok(flags)
    }

    /// Which bits can be probed and are not calm in some cycle.
    pub(crate) fn moving(&self, alloc: Global) -> Result<List<bool>, NoMemory>
        ensures { IfOk result (λ flags. flags ≡ moving (probing_of self.now)) }
    {
        let mut flags = List::new(alloc);
        'bits: for bit in 0..self.bits() {
            flags.push(self.is_moving(bit))?;
        }
        Ok(flags)
    }

    /// In which cycles a bit is not calm.
    pub(crate) fn moving_cycles(&self, alloc: Global, bit: u32) -> Result<List<bool>, NoMemory>
        ensures { let run = probing_of self.now in
            IfOk result (λ flags. flags ≡ map (λ t. run.moves t bit) (all_cycles run)) }
    {
        let mut flags = List::new(alloc);
        'cycles: for cycle in 0..self.cycles() {
            flags.push(self.moves(cycle, bit))?;
        }
        Ok(flags)
    }
}

fn varies(part: Part) -> bool
    ensures { result ≡ varies part }
{
    match part {
        Part::Zero | Part::One => false,
        Part::Vary => true,
    }
}

fn is_nothing(node: Node) -> bool
    ensures { result ≡ is_nothing node }
{
    match node {
        Node::Nothing => true,
        Node::Label(_) | Node::Copy(_) | Node::Gate { .. } => false,
    }
}

/// The wires that a cell reads.
pub(crate) fn wires_of(cell: &FlatCell) -> &[Wire]
    ensures wires { result.now ≡ wires_of cell.now }
    ensures few { length result.now ≤ 4 }
{
    let count = inputs_of(cell.kind) as usize;
    &cell.inputs[..count]
}
