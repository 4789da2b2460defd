// The numbers of nodes, and what is written there.
ghost use Rattle.std.specs.Prelude.{◌≡◌, ℕ, suc, ◌*◌, ◌<◌, ◌≤◌, length};
ghost use Rattle.coco_base.specs.declared.unrolled.Node.TheVariants.{Nothing};
ghost use Rattle.coco_model.specs.Nodes.{copy_of};
ghost use Rattle.coco_model.specs.Stepped.{row_of};
ghost use Rattle.unroll.specs.NodeRows.{copies, nodes_of};
ghost use Rattle.unroll.specs.RootedRuns.{number_in};
ghost use Rattle.unroll.specs.Walks.{AreNumbered};
ghost use Rattle.unroll.specs.declared.origin.Origin.TheVariants.{Nothing as NoOrigin};

use crate::origin::Origin;
use coco_base::{Node, Part};
use gate_graph::Graph;

/// The number of the node of a bit in a cycle.
pub(crate) fn number(graph: &Graph, cycle: u32, bit: u32) -> u32
    requires bit { bit < graph.now.flat.bits }
    requires few { graph.now.flat.bits * suc cycle ≤ 4000000 }
    ensures number { result ≡ number_in graph.now cycle bit }
    ensures inside { result < graph.now.flat.bits * suc cycle }
{
    graph.bits() * cycle + graph.rank(bit)
}

/// Writes copies of the nodes of all unknown bits of a cycle.
pub(crate) fn write_copies(graph: &Graph, cycle: u32, row: &[Part], copied: &mut [Node])
    requires row { length row.now ≡ graph.now.flat.bits }
    requires copied { length copied.old ≡ graph.now.flat.bits }
    requires few { graph.now.flat.bits * suc cycle ≤ 4000000 }
    ensures { (b : ℕ) → nodes_of copied.new b ≡ copies (number_in graph.now cycle) (row_of row.now) b }
{
    'bits: for bit in 0..graph.bits() {
        copied[bit as usize] = copy_of(row[bit as usize], number(graph, cycle, bit));
    }
}

/// A copy of a node where its bit is unknown, and else nothing.
fn copy_of(part: Part, number: u32) -> Node
    ensures { result ≡ copy_of part number }
{
    match part {
        Part::Zero | Part::One => Node::Nothing,
        Part::Vary => Node::Copy(number),
    }
}

/// Writes the nodes of a cycle at their numbers.
pub(crate) fn place_nodes(graph: &Graph, cycle: u32, row: &[Node], nodes: &mut [Node])
    requires row { length row.now ≡ graph.now.flat.bits }
    requires nodes { graph.now.flat.bits * suc cycle ≤ length nodes.old }
    requires few { graph.now.flat.bits * suc cycle ≤ 4000000 }
    ensures { AreNumbered Nothing graph.now cycle graph.now.flat.bits row.now nodes.old nodes.new }
{
    'bits: for bit in 0..graph.bits() {
        let place = number(graph, cycle, bit) as usize;
        nodes[place] = row[bit as usize];
    }
}

/// Writes the roots of a cycle at the numbers of their nodes.
pub(crate) fn place_roots(graph: &Graph, cycle: u32, row: &[Origin], origins: &mut [Origin])
    requires row { length row.now ≡ graph.now.flat.bits }
    requires origins { graph.now.flat.bits * suc cycle ≤ length origins.old }
    requires few { graph.now.flat.bits * suc cycle ≤ 4000000 }
    ensures { AreNumbered NoOrigin graph.now cycle graph.now.flat.bits row.now origins.old origins.new }
{
    'bits: for bit in 0..graph.bits() {
        let place = number(graph, cycle, bit) as usize;
        origins[place] = row[bit as usize];
    }
}
