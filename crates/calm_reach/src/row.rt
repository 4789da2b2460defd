ghost use Rattle.std.specs.Prelude.{◌≡◌, ◌<◌, length, IfOk};

use crate::masks::is_live_in;
use crate::walk::{leaves_among, walk};
use coco_base::{List, NoMemory, Part};
use gate_graph::Graph;
use std::alloc::Global;
use std::marker::Model;

/// What is calm in a cycle, and which inputs of cells are live. It has a byte for each bit and half a byte for each cell.
#[derive(Debug, Drop)]
pub struct CalmRow {
    pub(crate) parts: Vec<Part>,
    pub(crate) cells: u32,
    pub(crate) masks: Vec<u8>,
}

impl Model for CalmRow {
    ghost use Rattle.std.specs.Prelude.{◌≡◌, ◌+◌, ◌/◌, length};
    ghost use Rattle.calm_reach.specs.CalmRows.{Calmness, calmness_of};

    ghost Value = { Calmness };

    ghost view = { λ r. calmness_of r.parts.items r.cells r.masks.items };

    ghost invariant = { λ r. length r.masks.items ≡ (r.cells + 1) / 2 };
}

impl CalmRow {
    ghost use Rattle.calm_reach.specs.CalmRows.{calm_of, is_live, HasPlaces};
    ghost use Rattle.calm_reach.specs.Walks.{AreLeavesOf, AreReachedLeaves};

    /// The value that a bit keeps through the cycle, or `Vary` where it is not calm.
    pub fn part(&self, bit: u32) -> Part
        requires { bit < length self.now.parts }
        ensures { result ≡ calm_of self.now bit }
    {
        self.parts[bit as usize]
    }

    /// Whether an input of a cell is live: it is not calm, and the output changes with it for some value of the other
    /// inputs that are not calm. Places count from 0 in the order of the inputs; no place beyond them is live.
    pub fn live(&self, cell: u32, place: u32) -> bool
        requires { cell < self.now.cells }
        ensures { result ≡ is_live self.now cell place }
    {
        is_live_in(self.masks.as_slice(), cell, place)
    }

    /// The leaves that a bit reaches through live inputs, in ascending order; none where the bit is calm.
    pub fn reached(&self, alloc: Global, graph: &Graph, bit: u32) -> Result<List<u32>, NoMemory>
        requires places { HasPlaces graph.now.flat self.now }
        requires bit { bit < graph.now.flat.bits }
        ensures leaves { IfOk result (AreLeavesOf graph.now.flat self.now bit) }
        ensures reached { IfOk result (AreReachedLeaves graph.now.flat self.now bit) }
    {
        let walked = walk(alloc, graph, self, bit)?;
        leaves_among(alloc, graph, self, &walked)
    }
}
