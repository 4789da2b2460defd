ghost use Rattle.std.specs.Prelude.{◌≡◌, length, IfOk};
ghost use Rattle.calm_reach.specs.CalmRows.{row_of, IsCalmRow};

use crate::calm::calm_parts;
use crate::masks::live_masks;
use crate::row::CalmRow;
use coco_base::{NoMemory, Part};
use gate_graph::Graph;
use std::alloc::Global;

/// What is calm between two rows of what is known, the old one and the present one, gate by gate: a leaf that is known
/// with one value in both, and a cell's output that calm inputs force. An output that is equal in both but may pulse is
/// not calm.
pub fn calm_row(
    alloc: Global,
    graph: &Graph,
    before: &[Part],
    now: &[Part],
) -> Result<CalmRow, NoMemory>
    requires before { length before.now ≡ graph.now.flat.bits }
    requires now { length now.now ≡ graph.now.flat.bits }
    ensures row { IfOk result (IsCalmRow graph.now.flat (row_of before.now) (row_of now.now)) }
{
    let parts = calm_parts(alloc, graph, before, now)?;
    let masks = live_masks(alloc, graph, parts.as_slice())?;
    Ok(CalmRow {
        parts,
        cells: graph.cells(),
        masks,
    })
}
