//! Which bits cells and flops read.
ghost use Rattle.std.specs.Prelude.{◌≡◌};
ghost use Rattle.std.specs.List.{list_any};
ghost use Rattle.coco_model.specs.Netlist as netlist;
ghost use Rattle.bind_run.specs.Binding.{cell_reads, flop_reads, is_option_of, is_read, is_wire_of};

use cell_table::inputs_of;
use coco_base::{Flat, FlatCell, FlatFlop, Wire};

fn is_wire_of(bit: u32, wire: Wire) -> bool
    ensures { result ≡ is_wire_of bit wire }
{
    match wire {
        Wire::Const(_) => false,
        Wire::Bit(number) => bit == number,
    }
}

/// The wires that a cell reads.
fn wires_of(cell: &FlatCell) -> &[Wire]
    ensures { result.now ≡ netlist.wires_of cell.now }
{
    let count = inputs_of(cell.kind) as usize;
    &cell.inputs[..count]
}

fn is_among(bit: u32, wires: &[Wire]) -> bool
    ensures { result ≡ list_any (is_wire_of bit) wires.now }
{
    wires.iter().any(|wire| is_wire_of(bit, *wire))
}

fn cell_reads(bit: u32, cell: &FlatCell) -> bool
    ensures { result ≡ cell_reads bit cell.now }
{
    is_among(bit, wires_of(cell))
}

fn is_option_of(bit: u32, wire: Option<Wire>) -> bool
    ensures { result ≡ is_option_of bit wire }
{
    match wire {
        Some(wire) => is_wire_of(bit, wire),
        None => false,
    }
}

fn flop_reads(bit: u32, flop: &FlatFlop) -> bool
    ensures { result ≡ flop_reads bit flop.now }
{
    is_wire_of(bit, flop.next) || is_wire_of(bit, flop.clock) || is_option_of(bit, flop.reset)
}

fn some_cell_reads(bit: u32, cells: &[FlatCell]) -> bool
    ensures { result ≡ list_any (cell_reads bit) cells.now }
{
    cells.iter().any(|cell| cell_reads(bit, cell))
}

fn some_flop_reads(bit: u32, flops: &[FlatFlop]) -> bool
    ensures { result ≡ list_any (flop_reads bit) flops.now }
{
    flops.iter().any(|flop| flop_reads(bit, flop))
}

/// Whether a cell or a flop reads a bit.
pub(crate) fn is_read(flat: &Flat, bit: u32) -> bool
    ensures { result ≡ is_read flat.now bit }
{
    some_cell_reads(bit, flat.cells.as_slice()) || some_flop_reads(bit, flat.flops.as_slice())
}
