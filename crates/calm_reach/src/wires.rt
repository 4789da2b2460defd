// What a row of parts tells of wires and of the inputs of cells.
ghost use Rattle.std.specs.Prelude.{◌≡◌, ◌↔◌, length, map, IsTrue};
ghost use Rattle.coco_base.specs.declared.cell.Part.TheVariants.{Vary};
ghost use Rattle.coco_model.specs.Cells.{input_places};
ghost use Rattle.coco_model.specs.Netlist.{wires_of};
ghost use Rattle.coco_model.specs.Known.{cell_parts, wire_part};
ghost use Rattle.calm_reach.specs.CalmRows.{row_of};

use cell_table::inputs_of;
use coco_base::{FlatCell, Part, Wire};

/// The wires that a cell reads.
pub(crate) fn wires_of(cell: &FlatCell) -> &[Wire]
    ensures { result.now ≡ wires_of cell.now }
{
    let count = inputs_of(cell.kind) as usize;
    &cell.inputs[..count]
}

/// What a row tells of a cell's inputs, at the places that the cell reads.
pub(crate) fn cell_parts(row: &[Part], cell: &FlatCell) -> [Part; 4]
    ensures parts { input_places cell.now.kind result ≡ cell_parts (row_of row.now) cell.now }
    ensures four { length result ≡ 4 }
{
    wire_parts(row, &cell.inputs)
}

fn wire_parts(row: &[Part], wires: &[Wire]) -> [Part; 4]
    requires { length wires.now ≡ 4 }
    ensures parts { result ≡ map (wire_part (row_of row.now)) wires.now }
    ensures four { length result ≡ 4 }
{
    [
        wire_part(row, wires[0]),
        wire_part(row, wires[1]),
        wire_part(row, wires[2]),
        wire_part(row, wires[3]),
    ]
}

fn wire_part(row: &[Part], wire: Wire) -> Part
    ensures { result ≡ wire_part (row_of row.now) wire }
{
    match wire {
        Wire::Const(false) => Part::Zero,
        Wire::Const(true) => Part::One,
        Wire::Bit(bit) => row.get(bit as usize).copied().unwrap_or(Part::Zero),
    }
}

/// Whether a bit may vary.
pub(crate) fn varies(part: Part) -> bool
    ensures { IsTrue result ↔ (part ≡ Vary) }
{
    match part {
        Part::Zero | Part::One => false,
        Part::Vary => true,
    }
}
