// What is known of wires and numbers, and the nodes of wires.
ghost use Rattle.std.specs.Prelude.{◌≡◌, ◌≤◌, false, length, get_or};
ghost use Rattle.coco_base.specs.declared.netlist.Wire.TheVariants.{Const};
ghost use Rattle.coco_model.specs.Netlist.{wire_value};
ghost use Rattle.coco_model.specs.Carried.{wire_or_off, number_on};
ghost use Rattle.coco_model.specs.Known.{is_one, ones, part_of, wire_part};
ghost use Rattle.coco_model.specs.Stepped.{row_of};
ghost use Rattle.unroll.specs.NodeRows.{nodes_of, wire_node};

use coco_base::{Node, Part, Wire};

fn part_of(value: bool) -> Part
    ensures { result ≡ part_of value }
{
    if value { Part::One } else { Part::Zero }
}

/// What is known of a bit; a bit behind the row's end is 0.
pub(crate) fn bit_part(row: &[Part], bit: u32) -> Part
    ensures { result ≡ row_of row.now bit }
{
    row.get(bit as usize).copied().unwrap_or(Part::Zero)
}

pub(crate) fn wire_part(row: &[Part], wire: Wire) -> Part
    ensures { result ≡ wire_part (row_of row.now) wire }
{
    match wire {
        Wire::Const(value) => part_of(value),
        Wire::Bit(bit) => bit_part(row, bit),
    }
}

fn is_one(part: Part) -> bool
    ensures { result ≡ is_one part }
{
    match part {
        Part::One => true,
        Part::Zero | Part::Vary => false,
    }
}

pub(crate) fn wire_is_one(row: &[Part], wire: Wire) -> bool
    ensures { result ≡ wire_value (ones (row_of row.now)) wire }
{
    is_one(wire_part(row, wire))
}

pub(crate) fn wire_or_off(wire: Option<Wire>) -> Wire
    ensures { result ≡ wire_or_off wire }
{
    match wire {
        Some(wire) => wire,
        None => Wire::Const(false),
    }
}

/// The wire at a place of a list; behind its end a wire is 0.
pub(crate) fn wire_at(wires: &[Wire], place: usize) -> Wire
    ensures { result ≡ get_or wires.now place (Const false) }
{
    wires.get(place).copied().unwrap_or(Wire::Const(false))
}

/// The number on wires, as far as it is known: an unknown bit counts as 0.
pub(crate) fn number_on(row: &[Part], wires: &[Wire]) -> u32
    requires { length wires.now ≤ 32 }
    ensures { result ≡ number_on (ones (row_of row.now)) wires.now }
{
    let mut number = 0;
    let mut rest = wires.len();
    'digits: while rest > 0 {
        rest -= 1;
        number = 2 * number + u32::from(wire_is_one(row, wires[rest]));
    }
    number
}

/// The node at a bit; behind the row's end is nothing.
pub(crate) fn node_at(nodes: &[Node], bit: u32) -> Node
    ensures { result ≡ nodes_of nodes.now bit }
{
    nodes.get(bit as usize).copied().unwrap_or(Node::Nothing)
}

/// The node of what a wire has; a constant is nothing.
pub(crate) fn wire_node(nodes: &[Node], wire: Wire) -> Node
    ensures { result ≡ wire_node (nodes_of nodes.now) wire }
{
    match wire {
        Wire::Const(_) => Node::Nothing,
        Wire::Bit(bit) => node_at(nodes, bit),
    }
}
