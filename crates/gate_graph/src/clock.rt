// The one clock, or what is at odds with it.
ghost use Rattle.std.specs.Prelude.{◌≡◌, ◌↔◌, ◌<◌, IsTrue, Some, Contains, IfOk, IfErr, IfSome, IfNone};
ghost use Rattle.coco_base.specs.declared.netlist.FlatCell.{FlatCell};
ghost use Rattle.coco_base.specs.declared.netlist.FlatFlop.{FlatFlop};
ghost use Rattle.coco_base.specs.declared.netlist.Wire.TheVariants.{Bit};
ghost use Rattle.coco_model.specs.Netlist.{wires_of, IsWireBelow};
ghost use Rattle.gate_graph.specs.Clocks.{IsGraphClock, IsClockFault, IsClockWire, IsFirstOf, IsInputWire, IsOffClock, ReadsAsValue};
ghost use Rattle.gate_graph.specs.Drivers.{IsWired};

use crate::driver::Driver;
use crate::wires::wires_of;
use coco_base::{Flat, FlatCell, FlatFlop, Text, Wire};

/// The clock of a netlist, or the name of the first flop or cell that is at odds with it.
pub(crate) fn clock_of<'a>(flat: &'a Flat, drivers: &[Driver]) -> Result<Option<u32>, &'a Text>
    requires { IsWired flat.now drivers.now }
    ensures clock { IfOk result (IsGraphClock flat.now) }
    ensures fault { IfErr result (λ name. IsClockFault flat.now name.now) }
{
    let flops = flat.flops.as_slice();
    let [first, ..] = flops else {
        return Ok(None);
    };
    if let Some(flop) = off_clock(flat, drivers, first.clock) {
        return Err(&flop.name);
    }
    let Wire::Bit(bit) = first.clock else {
        return Ok(None);
    };
    if let Some(cell) = reading_cell(flat.cells.as_slice(), bit) {
        return Err(&cell.name);
    }
    match reading_flop(flops, bit) {
        Some(flop) => Err(&flop.name),
        None => Ok(Some(bit)),
    }
}

/// The first flop whose clock is not this one or is no input port bit.
fn off_clock<'a>(flat: &'a Flat, drivers: &[Driver], clock: Wire) -> Option<&'a FlatFlop>
    requires { IsWired flat.now drivers.now }
    ensures some { IfSome result (λ f. IsFirstOf (IsOffClock flat.now clock) flat.now.flops f.now) }
    ensures none { IfNone result ((f : FlatFlop) → Contains flat.now.flops f → IsClockWire flat.now clock f.clock) }
{
    let flops = flat.flops.as_slice();
    'flops: for number in 0..flops.len() {
        let flop = &flops[number];
        if !is_on_clock(flat, drivers, clock, flop.clock) {
            return Some(flop);
        }
    }
    None
}

fn is_on_clock(flat: &Flat, drivers: &[Driver], clock: Wire, wire: Wire) -> bool
    requires wired { IsWired flat.now drivers.now }
    requires below { IsWireBelow flat.now.bits wire }
    ensures { IsTrue result ↔ IsClockWire flat.now clock wire }
{
    wire == clock && is_input(flat, drivers, wire)
}

fn is_input(flat: &Flat, drivers: &[Driver], wire: Wire) -> bool
    requires wired { IsWired flat.now drivers.now }
    requires below { IsWireBelow flat.now.bits wire }
    ensures { IsTrue result ↔ IsInputWire flat.now wire }
{
    let _ports = flat.ports.as_slice();
    let Wire::Bit(bit) = wire else {
        return false;
    };
    match drivers[bit as usize] {
        Driver::Port(_) => true,
        _ => false,
    }
}

/// The first cell that reads a bit.
fn reading_cell(cells: &[FlatCell], bit: u32) -> Option<&FlatCell>
    ensures some { IfSome result (λ c. IsFirstOf (λ (d : FlatCell). Contains (wires_of d) (Bit bit)) cells.now c.now) }
    ensures none { IfNone result ((c : FlatCell) → Contains cells.now c → Contains (wires_of c) (Bit bit) → ⊥) }
{
    'cells: for number in 0..cells.len() {
        let cell = &cells[number];
        if reads(cell, bit) {
            return Some(cell);
        }
    }
    None
}

fn reads(cell: &FlatCell, bit: u32) -> bool
    ensures { IsTrue result ↔ Contains (wires_of cell.now) (Bit bit) }
{
    let wires = wires_of(cell);
    'wires: for number in 0..wires.len() {
        if is_bit(wires[number], bit) {
            return true;
        }
    }
    false
}

/// The first flop that reads a bit as its next value or as its reset.
fn reading_flop(flops: &[FlatFlop], bit: u32) -> Option<&FlatFlop>
    ensures some { IfSome result (λ f. IsFirstOf (λ (g : FlatFlop). ReadsAsValue g bit) flops.now f.now) }
    ensures none { IfNone result ((f : FlatFlop) → Contains flops.now f → ReadsAsValue f bit → ⊥) }
{
    'flops: for number in 0..flops.len() {
        let flop = &flops[number];
        if reads_as_value(flop, bit) {
            return Some(flop);
        }
    }
    None
}

fn reads_as_value(flop: &FlatFlop, bit: u32) -> bool
    ensures { IsTrue result ↔ ReadsAsValue flop.now bit }
{
    flop.next == Wire::Bit(bit) || flop.reset == Some(Wire::Bit(bit))
}

fn is_bit(wire: Wire, bit: u32) -> bool
    ensures { IsTrue result ↔ (wire ≡ Bit bit) }
{
    wire == Wire::Bit(bit)
}
