// The roots of bits, and those of leaves by their nodes.
ghost use Rattle.std.specs.Prelude.{◌≡◌, ℕ, length};
ghost use Rattle.unroll.specs.NodeRows.{leaf_root, nodes_of, root_of, roots_of};

use coco_base::Node;

/// The root of a bit in a cycle: nothing where it is known, a label, or the output of a cell in a cycle.
#[derive(Clone, Copy, Debug, PartialEq, Eq)]
pub(crate) enum Origin {
    Nothing,
    Label(u32),
    Output { cycle: u32, bit: u32 },
}

/// The origin at a place; behind the list's end is nothing.
pub(crate) fn origin_at(origins: &[Origin], place: u32) -> Origin
    ensures { root_of result ≡ roots_of origins.now place }
{
    origins
        .get(place as usize)
        .copied()
        .unwrap_or(Origin::Nothing)
}

fn leaf_origin(origins: &[Origin], node: Node) -> Origin
    ensures { root_of result ≡ leaf_root (roots_of origins.now) node }
{
    match node {
        Node::Nothing | Node::Gate { .. } => Origin::Nothing,
        Node::Label(label) => Origin::Label(label),
        Node::Copy(source) => origin_at(origins, source),
    }
}

/// Writes the roots of leaves by their nodes, where `origins` has those of earlier nodes.
pub(crate) fn write_roots(origins: &[Origin], nodes: &[Node], roots: &mut [Origin])
    requires { length roots.old ≡ length nodes.now }
    ensures { (b : ℕ) → roots_of roots.new b ≡ leaf_root (roots_of origins.now) (nodes_of nodes.now b) }
{
    'bits: for bit in 0..nodes.len() {
        roots[bit] = leaf_origin(origins, nodes[bit]);
    }
}
