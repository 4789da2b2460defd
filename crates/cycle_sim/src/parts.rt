// What is known of wires, numbers and starts.
ghost use Rattle.std.specs.Prelude.{◌≡◌, ℕ, ◌≤◌, false, length, get_or};
ghost use Rattle.coco_base.specs.declared.labels.LabelTable.{LabelTable};
ghost use Rattle.coco_base.specs.declared.netlist.Wire.TheVariants.{Const};
ghost use Rattle.coco_model.specs.Netlist.{wire_value};
ghost use Rattle.coco_model.specs.Carried.{start_state, wire_or_off, number_on};
ghost use Rattle.coco_model.specs.Known.{is_one, ones, part_of, parts, wire_part};
ghost use Rattle.coco_model.specs.Stepped.{row_of};

use coco_base::{Part, Start, Wire};

pub(crate) fn part_of(value: bool) -> Part
    ensures { result ≡ part_of value }
{
    if value { Part::One } else { Part::Zero }
}

pub(crate) fn start_part(start: Start) -> Part
    ensures { (table : LabelTable) (cycle : ℕ) → result ≡ start_state parts table cycle start }
{
    match start {
        Start::Public(value) => part_of(value),
        Start::Label(_) | Start::Fresh(_) => Part::Vary,
    }
}

/// What is known of a bit; a bit behind the row's end is 0.
pub(crate) fn bit_part(row: &[Part], bit: u32) -> Part
    ensures { result ≡ row_of row.now bit }
{
    row.get(bit as usize).copied().unwrap_or(Part::Zero)
}

pub(crate) fn wire_part(row: &[Part], wire: Wire) -> Part
    ensures { result ≡ wire_part (row_of row.now) wire }
{
    match wire {
        Wire::Const(value) => part_of(value),
        Wire::Bit(bit) => bit_part(row, bit),
    }
}

pub(crate) fn is_one(part: Part) -> bool
    ensures { result ≡ is_one part }
{
    match part {
        Part::One => true,
        Part::Zero | Part::Vary => false,
    }
}

pub(crate) fn wire_is_one(row: &[Part], wire: Wire) -> bool
    ensures { result ≡ wire_value (ones (row_of row.now)) wire }
{
    is_one(wire_part(row, wire))
}

pub(crate) fn wire_or_off(wire: Option<Wire>) -> Wire
    ensures { result ≡ wire_or_off wire }
{
    match wire {
        Some(wire) => wire,
        None => Wire::Const(false),
    }
}

/// The wire at a place of a list; behind its end a wire is 0.
pub(crate) fn wire_at(wires: &[Wire], place: usize) -> Wire
    ensures { result ≡ get_or wires.now place (Const false) }
{
    wires.get(place).copied().unwrap_or(Wire::Const(false))
}

/// The number on wires, as far as it is known: an unknown bit counts as 0.
pub(crate) fn number_on(row: &[Part], wires: &[Wire]) -> u32
    requires { length wires.now ≤ 32 }
    ensures { result ≡ number_on (ones (row_of row.now)) wires.now }
{
    let mut number = 0;
    let mut rest = wires.len();
    'digits: while rest > 0 {
        rest -= 1;
        number = 2 * number + u32::from(wire_is_one(row, wires[rest]));
    }
    number
}
