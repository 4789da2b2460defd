// Whether the nodes of a run read earlier ones alone.
ghost use Rattle.std.specs.Prelude.{◌≡◌, ◌<◌, ◌↔◌, IsTrue};
ghost use Rattle.coco_base.specs.declared.cell.Part.TheVariants.{Vary};
ghost use Rattle.label_cone.specs.NodeCones.{AreEarlier, AreOrdered, IsOrderedRun, ReadsEarlier};

use coco_base::{Node, Part, Unrolled};

/// Whether a value can be an unrolled run: it has a node for each bit in each cycle, fewer than 2^32 in all, and each node
/// reads earlier ones.
pub fn is_ordered_run(unrolled: &Unrolled) -> bool
    ensures { IsTrue result ↔ IsOrderedRun unrolled.now }
{
    let nodes = unrolled.nodes.as_slice();
    let count = u64::from(unrolled.bits) * u64::from(unrolled.cycles);
    count < 1 << 32 && nodes.len() as u64 == count && are_ordered(nodes)
}

fn are_ordered(nodes: &[Node]) -> bool
    ensures { IsTrue result ↔ AreOrdered nodes.now }
{
    'nodes: for place in 0..nodes.len() {
        if !reads_earlier(&nodes[place], place) {
            return false;
        }
    }
    true
}

fn reads_earlier(node: &Node, place: usize) -> bool
    ensures { IsTrue result ↔ ReadsEarlier place node.now }
{
    match *node {
        Node::Nothing | Node::Label(_) => true,
        Node::Copy(origin) => (origin as usize) < place,
        Node::Gate {
            parts,
            operands,
            ..
        } => are_earlier(parts, operands, place),
    }
}

fn are_earlier(parts: [Part; 4], operands: [u32; 4], place: usize) -> bool
    ensures { IsTrue result ↔ AreEarlier parts operands place }
{
    'inputs: for input in 0..4 {
        if !is_earlier(parts[input], operands[input], place) {
            return false;
        }
    }
    true
}

fn is_earlier(part: Part, operand: u32, place: usize) -> bool
    ensures { IsTrue result ↔ (part ≡ Vary → operand < place) }
{
    part != Part::Vary || (operand as usize) < place
}
