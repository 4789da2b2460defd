// Whether a netlist can have a graph: numbers in range, and few enough of them.
ghost use Rattle.std.specs.Prelude.{◌≡◌, ◌↔◌, ◌<◌, ◌^◌, length, Contains, IsTrue};
ghost use Rattle.coco_base.specs.declared.netlist.FlatCell.{FlatCell};
ghost use Rattle.coco_base.specs.declared.netlist.FlatFlop.{FlatFlop};
ghost use Rattle.coco_base.specs.declared.netlist.FlatNet.{FlatNet};
ghost use Rattle.coco_base.specs.declared.netlist.FlatPort.{FlatPort};
ghost use Rattle.coco_model.specs.Netlist.{IsInRange, IsWireBelow};
ghost use Rattle.gate_graph.specs.Drivers.{HasNumbers};
ghost use Rattle.gate_graph.specs.Numbers.{AreGatesBelow, AreNamesBelow, AreWiresBelow, IsBelow, IsCellBelow, IsFlopBelow, IsResetBelow};

use crate::wires::wires_of;
use coco_base::{Flat, FlatCell, FlatFlop, FlatNet, FlatPort, Wire};

/// Whether `build` may be called: each bit that the netlist names is below its number of bits, and its ports, cells and
/// flops are fewer than 2^32 each.
pub fn can_build(flat: &Flat) -> bool
    ensures { IsTrue result ↔ IsInRange flat.now × HasNumbers flat.now }
{
    has_numbers(flat) && is_below(flat)
}

fn is_below(flat: &Flat) -> bool
    ensures { IsTrue result ↔ IsBelow flat.now }
{
    are_gates_below(flat) && are_names_below(flat)
}

fn are_gates_below(flat: &Flat) -> bool
    ensures { IsTrue result ↔ AreGatesBelow flat.now }
{
    let cells = flat.cells.as_slice();
    let flops = flat.flops.as_slice();
    are_cells_below(flat.bits, cells) && are_flops_below(flat.bits, flops)
}

fn are_names_below(flat: &Flat) -> bool
    ensures { IsTrue result ↔ AreNamesBelow flat.now }
{
    let ports = flat.ports.as_slice();
    let nets = flat.nets.as_slice();
    are_ports_below(flat.bits, ports) && are_nets_below(flat.bits, nets)
}

fn has_numbers(flat: &Flat) -> bool
    ensures { IsTrue result ↔ HasNumbers flat.now }
{
    let end = 1 << 32;
    flat.ports.len() < end && flat.cells.len() < end && flat.flops.len() < end
}

fn are_cells_below(bits: u32, cells: &[FlatCell]) -> bool
    ensures { IsTrue result ↔ ((c : FlatCell) → Contains cells.now c → IsCellBelow bits c) }
{
    'cells: for number in 0..cells.len() {
        if !is_cell_below(bits, &cells[number]) {
            return false;
        }
    }
    true
}

fn is_cell_below(bits: u32, cell: &FlatCell) -> bool
    ensures { IsTrue result ↔ IsCellBelow bits cell.now }
{
    cell.output < bits && are_wires_below(bits, wires_of(cell))
}

fn are_flops_below(bits: u32, flops: &[FlatFlop]) -> bool
    ensures { IsTrue result ↔ ((f : FlatFlop) → Contains flops.now f → IsFlopBelow bits f) }
{
    'flops: for number in 0..flops.len() {
        if !is_flop_below(bits, &flops[number]) {
            return false;
        }
    }
    true
}

fn is_flop_below(bits: u32, flop: &FlatFlop) -> bool
    ensures { IsTrue result ↔ IsFlopBelow bits flop.now }
{
    flop.output < bits
        && is_wire_below(bits, flop.next)
        && is_wire_below(bits, flop.clock)
        && is_reset_below(bits, flop.reset)
}

fn is_reset_below(bits: u32, reset: Option<Wire>) -> bool
    ensures { IsTrue result ↔ IsResetBelow bits reset }
{
    match reset {
        None => true,
        Some(wire) => is_wire_below(bits, wire),
    }
}

fn are_ports_below(bits: u32, ports: &[FlatPort]) -> bool
    ensures { IsTrue result ↔ ((p : FlatPort) → Contains ports.now p → AreWiresBelow bits p.wires) }
{
    'ports: for number in 0..ports.len() {
        if !are_wires_below(bits, ports[number].wires.as_slice()) {
            return false;
        }
    }
    true
}

fn are_nets_below(bits: u32, nets: &[FlatNet]) -> bool
    ensures { IsTrue result ↔ ((n : FlatNet) → Contains nets.now n → AreWiresBelow bits n.wires) }
{
    'nets: for number in 0..nets.len() {
        if !are_wires_below(bits, nets[number].wires.as_slice()) {
            return false;
        }
    }
    true
}

fn are_wires_below(bits: u32, wires: &[Wire]) -> bool
    ensures { IsTrue result ↔ AreWiresBelow bits wires.now }
{
    'wires: for number in 0..wires.len() {
        if !is_wire_below(bits, wires[number]) {
            return false;
        }
    }
    true
}

fn is_wire_below(bits: u32, wire: Wire) -> bool
    ensures { IsTrue result ↔ IsWireBelow bits wire }
{
    match wire {
        Wire::Const(_) => true,
        Wire::Bit(bit) => bit < bits,
    }
}
