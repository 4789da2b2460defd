// The live inputs of cells, two cells to a byte.
ghost use Rattle.std.specs.Prelude.{◌≡◌, ◌↔◌, ◌+◌, ◌*◌, ◌/◌, ◌<◌, ℕ, length, get_or, IfOk, IsTrue};
ghost use Rattle.gate_graph.specs.Graphs.{IsBuilt};
ghost use Rattle.calm_reach.specs.CalmRows.{has_place, half, live_in, row_of};
ghost use Rattle.calm_reach.specs.Masks.{IsLiveMask, IsMaskAt, IsPairAt};

use crate::wires::cell_parts;
use cell_table::live;
use coco_base::{FlatCell, NoMemory, Part};
use gate_graph::Graph;
use std::alloc::Global;

/// The masks of all cells' live inputs, in pairs of cells.
pub(crate) fn live_masks(alloc: Global, graph: &Graph, parts: &[Part]) -> Result<Vec<u8>, NoMemory>
    ensures as_long { IfOk result (λ v. length v.items ≡ (length graph.now.flat.cells + 1) / 2) }
    ensures masks { IfOk result (λ v. (pair : ℕ) → pair < length v.items
        → IsPairAt (row_of parts.now) graph.now.flat.cells pair (get_or v.items pair 0)) }
{
    let mut masks = Vec::new(alloc);
    'pairs: for pair in 0..graph.cells().div_ceil(2) {
        let even = mask_at(graph, parts, 2 * pair);
        let odd = mask_at(graph, parts, 2 * pair + 1);
        masks.push(even + 16 * odd)?;
    }
    Ok(masks)
}

// the mask of the cell of a number; none where there is no such cell
fn mask_at(graph: &Graph, parts: &[Part], number: u32) -> u8
    ensures { IsMaskAt (row_of parts.now) graph.now.flat.cells number result }
{
    if number < graph.cells() {
        live_mask(parts, graph.cell(number))
    } else {
        0
    }
}

fn live_mask(parts: &[Part], cell: &FlatCell) -> u8
    ensures { IsLiveMask (row_of parts.now) cell.now result }
{
    let inputs = cell_parts(parts, cell);
    let first = u8::from(live(cell.kind, inputs, 0));
    let second = u8::from(live(cell.kind, inputs, 1));
    let third = u8::from(live(cell.kind, inputs, 2));
    let fourth = u8::from(live(cell.kind, inputs, 3));
    first + 2 * second + 4 * third + 8 * fourth
}

/// Whether the masks have an input of a cell as live.
pub(crate) fn is_live_in(masks: &[u8], cell: u32, place: u32) -> bool
    requires { cell / 2 < length masks.now }
    ensures { result ≡ live_in masks.now cell place }
{
    has_place(half(masks[(cell / 2) as usize], cell), place)
}

fn half(byte: u8, cell: u32) -> u8
    ensures { result ≡ half byte cell }
{
    if cell % 2 == 0 { byte % 16 } else { byte / 16 }
}

fn has_place(mask: u8, place: u32) -> bool
    ensures { result ≡ has_place mask place }
{
    match place {
        0 => mask % 2 == 1,
        1 => mask / 2 % 2 == 1,
        2 => mask / 4 % 2 == 1,
        3 => mask / 8 % 2 == 1,
        _ => false,
    }
}
