ghost use Rattle.std.specs.Prelude.{◌≡◌};
ghost use Rattle.coco_model.specs.Netlist.{wires_of};

use cell_table::inputs_of;
use coco_base::{FlatCell, Wire};

/// The wires that a cell reads.
pub(crate) fn wires_of(cell: &FlatCell) -> &[Wire]
    ensures { result.now ≡ wires_of cell.now }
{
    let count = inputs_of(cell.kind) as usize;
    &cell.inputs[..count]
}
