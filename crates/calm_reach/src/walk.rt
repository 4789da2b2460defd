// A walk against the wires from a bit, through live inputs.
ghost use Rattle.std.specs.Prelude.{◌≡◌, ◌↔◌, ◌<◌, ℕ, length, Contains, IfOk, OnOk, IsTrue};
ghost use Rattle.gate_graph.specs.Graphs.{IsBuilt};
ghost use Rattle.calm_reach.specs.CalmRows.{HasPlaces};
ghost use Rattle.calm_reach.specs.Walks.{AddsFeeding, AddsInputs, AddsWire, AreLeavesAmong, AreWalked, IsCellDriver, IsLeafBit};

use crate::met::Met;
use crate::row::CalmRow;
use crate::wires::{varies, wires_of};
use coco_base::{List, NoMemory, Wire};
use gate_graph::{Driver, Graph};
use std::alloc::Global;
use std::collections::BTreeSet;

/// The bits on walks from a bit.
pub(crate) fn walk(alloc: Global, graph: &Graph, row: &CalmRow, bit: u32) -> Result<Met, NoMemory>
    requires places { HasPlaces graph.now.flat row.now }
    requires bit { bit < graph.now.flat.bits }
    ensures walked { IfOk result (AreWalked graph.now.flat row.now bit) }
    ensures below { IfOk result (λ m. (b : ℕ) → Contains m b → b < graph.now.flat.bits) }
{
    let mut met = Met::new(alloc);
    met.add(bit)?;
    let mut looked = 0;
    'bits: while let Some(next) = met.get(looked) {
        add_feeding(graph, row, next, &mut met)?;
        looked += 1;
    }
    Ok(met)
}

// adds the bits that feed a bit
fn add_feeding(graph: &Graph, row: &CalmRow, bit: u32, met: &mut Met) -> Result<(), NoMemory>
    requires places { HasPlaces graph.now.flat row.now }
    requires bit { bit < graph.now.flat.bits }
    ensures added { OnOk result (AddsFeeding graph.now.flat row.now bit met.old met.new) }
    ensures built { IsBuilt graph.now }
{
    let driver = graph.driver(bit);
    if !varies(row.part(bit)) {
        return Ok(());
    }
    match driver {
        Driver::Cell(number) => add_inputs(graph, row, number, met),
        _ => Ok(()),
    }
}

// adds the bits at the live inputs of a cell whose output is not calm
fn add_inputs(graph: &Graph, row: &CalmRow, number: u32, met: &mut Met) -> Result<(), NoMemory>
    requires places { HasPlaces graph.now.flat row.now }
    requires inside { number < length graph.now.flat.cells }
    ensures { OnOk result (AddsInputs graph.now.flat row.now number met.old met.new) }
{
    let wires = wires_of(graph.cell(number));
    'inputs: for place in 0..wires.len() {
        if row.live(number, place as u32) {
            add_wire(wires[place], met)?;
        }
    }
    Ok(())
}

fn add_wire(wire: Wire, met: &mut Met) -> Result<(), NoMemory>
    ensures { OnOk result (AddsWire wire met.old met.new) }
{
    match wire {
        Wire::Bit(from) => met.add(from),
        Wire::Const(_) => Ok(()),
    }
}

/// The leaves among bits, in ascending order.
pub(crate) fn leaves_among(
    alloc: Global,
    graph: &Graph,
    row: &CalmRow,
    bits: &Met,
) -> Result<List<u32>, NoMemory>
    requires places { HasPlaces graph.now.flat row.now }
    requires below { (b : ℕ) → Contains bits.now b → b < graph.now.flat.bits }
    ensures { IfOk result (AreLeavesAmong graph.now.flat row.now bits.now) }
{
    let mut leaves = BTreeSet::new(alloc);
    let mut place = 0;
    'bits: while let Some(bit) = bits.get(place) {
        if is_leaf(graph, row, bit) {
            leaves.insert(bit)?;
        }
        place += 1;
    }
    let _count = leaves.len(); // its keys ascend
    listed(alloc, &leaves)
}

fn listed(alloc: Global, leaves: &BTreeSet<u32>) -> Result<List<u32>, NoMemory>
    ensures { IfOk result (λ l. l ≡ leaves.now.keys) }
{
    let mut list = List::new(alloc);
    'leaves: for leaf in leaves.iter().copied() {
        list.push(leaf)?;
    }
    Ok(list)
}

fn is_leaf(graph: &Graph, row: &CalmRow, bit: u32) -> bool
    requires places { HasPlaces graph.now.flat row.now }
    requires bit { bit < graph.now.flat.bits }
    ensures { IsTrue result ↔ IsLeafBit graph.now.flat row.now bit }
{
    varies(row.part(bit)) && !is_cell(graph.driver(bit))
}

fn is_cell(driver: Driver) -> bool
    ensures { IsTrue result ↔ IsCellDriver driver }
{
    match driver {
        Driver::Cell(_) => true,
        Driver::Port(_) | Driver::Flop(_) | Driver::Nothing => false,
    }
}
