// What the known leaves force of all other bits, cell by cell in order.
ghost use Rattle.std.specs.Prelude.{◌≡◌, ℕ, map, length, get_or};
ghost use Rattle.coco_base.specs.declared.cell.Part.TheVariants.{Zero};
ghost use Rattle.coco_model.specs.Cells.{IsForced, input_count};
ghost use Rattle.coco_model.specs.Known.{IsForcedRow, cell_parts, wire_part};
ghost use Rattle.coco_model.specs.Netlist.{IsCellBit, wires_of};
ghost use Rattle.coco_model.specs.Stepped.{row_of};

use crate::parts::wire_part;
use cell_table::{forced, inputs_of};
use coco_base::{FlatCell, Part, Wire};
use gate_graph::Graph;

/// Gives the output of each cell what the known inputs force. Other bits stay.
pub(crate) fn settle(graph: &Graph, row: &mut [Part])
    requires { length row.old ≡ graph.now.flat.bits }
    ensures forced { IsForcedRow graph.now.flat (row_of row.new) }
    ensures kept { (b : ℕ) → (IsCellBit graph.now.flat b → ⊥) → row_of row.new b ≡ row_of row.old b }
{
    'cells: for number in graph.order() {
        let cell = graph.cell(*number);
        row[cell.output as usize] = cell_part(row, cell);
    }
}

fn cell_part(row: &[Part], cell: &FlatCell) -> Part
    ensures { IsForced cell.now.kind (cell_parts (row_of row.now) cell.now) result }
{
    let wires = wires_of(cell);
    let parts = [
        part_at(row, wires, 0),
        part_at(row, wires, 1),
        part_at(row, wires, 2),
        part_at(row, wires, 3),
    ];
    forced(cell.kind, parts)
}

fn wires_of(cell: &FlatCell) -> &[Wire]
    ensures wires { result.now ≡ wires_of cell.now }
    ensures count { length result.now ≡ input_count cell.now.kind }
{
    let count = inputs_of(cell.kind) as usize;
    &cell.inputs[..count]
}

fn part_at(row: &[Part], wires: &[Wire], place: usize) -> Part
    ensures { result ≡ get_or (map (wire_part (row_of row.now)) wires.now) place Zero }
{
    match wires.get(place) {
        Some(wire) => wire_part(row, *wire),
        None => Part::Zero,
    }
}
