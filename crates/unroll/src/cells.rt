// The nodes and roots of cells, cell by cell by rank.
ghost use Rattle.std.specs.Prelude.{◌≡◌, ℕ, suc, ◌*◌, ◌<◌, ◌≤◌, ◌↔◌, map, length, get_or, Contains, IsTrue};
ghost use Rattle.coco_base.specs.declared.cell.Part.TheVariants.{Zero, Vary};
ghost use Rattle.coco_base.specs.declared.netlist.FlatCell.{FlatCell};
ghost use Rattle.coco_base.specs.declared.netlist.Wire.{Wire};
ghost use Rattle.coco_model.specs.Cells.{input_count};
ghost use Rattle.coco_model.specs.Known.{wire_part};
ghost use Rattle.coco_model.specs.Netlist.{IsCellBit, IsWireBelow, wires_of};
ghost use Rattle.coco_model.specs.Nodes.{wire_operand, IsOwnGate};
ghost use Rattle.coco_model.specs.Roots.{IsSteady, HasCellRoot};
ghost use Rattle.coco_model.specs.Stepped.{row_of};
ghost use Rattle.unroll.specs.NodeRows.{nodes_of, HasFourPlaces};
ghost use Rattle.unroll.specs.RootedRuns.{number_in};
ghost use Rattle.unroll.specs.Walks.{AgreeOnLeaves};
ghost use Rattle.unroll.specs.Moments.{bits_in, row_in, operands_in, HasFewNodes, AreWiresBelow, IsSteadyIn, AreSteadyIn, IsEntryOf, IsSettledFrom};

use crate::cycle::Moment;
use crate::origin::{Origin, origin_at};
use crate::parts::{bit_part, wire_part};
use crate::place::number;
use cell_table::inputs_of;
use coco_base::{FlatCell, Node, Part, Wire};

/// The node of a bit in a cycle, and its root.
#[derive(Clone, Copy)]
struct Entry {
    node: Node,
    root: Origin,
}

/// Gives each cell's output its node and its root, where all other bits have theirs. `old` has the roots of the cycle
/// before.
pub(crate) fn settle(at: &Moment<'_>, old: &[Origin], now: &mut [Node], roots: &mut [Origin])
    requires now { length now.old ≡ bits_in at.now }
    requires roots { length roots.old ≡ bits_in at.now }
    requires few { HasFewNodes at.now }
    ensures kept { AgreeOnLeaves at.now.graph.now.flat (nodes_of now.new) (nodes_of now.old) }
    ensures settled { IsSettledFrom at.now old.now roots.old now.new roots.new }
{
    'cells: for number in at.graph.order() {
        let cell = at.graph.cell(*number);
        let entry = entry_of(at, old, roots, cell);
        now[cell.output as usize] = entry.node;
        roots[cell.output as usize] = entry.root;
    }
}

fn entry_of(at: &Moment<'_>, old: &[Origin], roots: &[Origin], cell: &FlatCell) -> Entry
    requires few { HasFewNodes at.now }
    requires output { cell.now.output < bits_in at.now }
    requires inputs { AreWiresBelow (bits_in at.now) (wires_of cell.now) }
    ensures { IsEntryOf at.now old.now roots.now cell.now result }
{
    match bit_part(at.known, cell.output) {
        Part::Zero | Part::One => Entry {
            node: Node::Nothing,
            root: Origin::Nothing,
        },
        Part::Vary => unknown_entry(at, old, roots, cell),
    }
}

fn unknown_entry(at: &Moment<'_>, old: &[Origin], roots: &[Origin], cell: &FlatCell) -> Entry
    requires few { HasFewNodes at.now }
    requires output { cell.now.output < bits_in at.now }
    requires inputs { AreWiresBelow (bits_in at.now) (wires_of cell.now) }
    requires varies { row_in at.now cell.now.output ≡ Vary }
    ensures { IsEntryOf at.now old.now roots.now cell.now result }
{
    let bit = cell.output;
    if at.cycle > 0 && is_kept(at, old, roots, cell) {
        return Entry {
            node: Node::Copy(number(at.graph, at.cycle - 1, bit)),
            root: origin_at(old, bit),
        };
    }
    Entry {
        node: gate_of(at, cell),
        root: Origin::Output {
            cycle: at.cycle,
            bit,
        },
    }
}

// Each input is known in both cycles with one value, or unknown in both with one root.
fn is_kept(at: &Moment<'_>, old: &[Origin], roots: &[Origin], cell: &FlatCell) -> bool
    ensures { IsTrue result ↔ AreSteadyIn at.now old.now roots.now cell.now }
{
    'inputs: for wire in wires_of(cell) {
        if !is_steady(at, old, roots, *wire) {
            return false;
        }
    }
    true
}

fn is_steady(at: &Moment<'_>, old: &[Origin], roots: &[Origin], wire: Wire) -> bool
    ensures { IsTrue result ↔ IsSteadyIn at.now old.now roots.now wire }
{
    match wire {
        Wire::Const(_) => true,
        Wire::Bit(bit) => {
            bit_part(at.before, bit) == bit_part(at.known, bit)
                && origin_at(old, bit) == origin_at(roots, bit)
        }
    }
}

fn gate_of(at: &Moment<'_>, cell: &FlatCell) -> Node
    requires few { HasFewNodes at.now }
    requires inputs { AreWiresBelow (bits_in at.now) (wires_of cell.now) }
    ensures gate { IsOwnGate (number_in at.now.graph.now at.now.cycle) (row_in at.now) cell.now result }
    ensures places { HasFourPlaces result }
{
    let wires = wires_of(cell);
    Node::Gate {
        kind: cell.kind,
        parts: [
            part_at(at.known, wires, 0),
            part_at(at.known, wires, 1),
            part_at(at.known, wires, 2),
            part_at(at.known, wires, 3),
        ],
        operands: [
            operand_at(at, wires, 0),
            operand_at(at, wires, 1),
            operand_at(at, wires, 2),
            operand_at(at, wires, 3),
        ],
    }
}

fn wires_of(cell: &FlatCell) -> &[Wire]
    ensures wires { result.now ≡ wires_of cell.now }
    ensures count { length result.now ≡ input_count cell.now.kind }
{
    let count = inputs_of(cell.kind) as usize;
    &cell.inputs[..count]
}

fn part_at(row: &[Part], wires: &[Wire], place: usize) -> Part
    ensures { result ≡ get_or (map (wire_part (row_of row.now)) wires.now) place Zero }
{
    match wires.get(place) {
        Some(wire) => wire_part(row, *wire),
        None => Part::Zero,
    }
}

fn operand_at(at: &Moment<'_>, wires: &[Wire], place: usize) -> u32
    requires few { HasFewNodes at.now }
    requires wires { AreWiresBelow (bits_in at.now) wires.now }
    ensures { result ≡ get_or (operands_in at.now wires.now) place 0 }
{
    match wires.get(place) {
        Some(wire) => operand_of(at, *wire),
        None => 0,
    }
}

// The node of an input that is unknown, else 0.
fn operand_of(at: &Moment<'_>, wire: Wire) -> u32
    requires few { HasFewNodes at.now }
    requires wire { IsWireBelow (bits_in at.now) wire }
    ensures { result ≡ wire_operand (row_in at.now) (number_in at.now.graph.now at.now.cycle) wire }
{
    match wire {
        Wire::Const(_) => 0,
        Wire::Bit(bit) => match bit_part(at.known, bit) {
            Part::Vary => number(at.graph, at.cycle, bit),
            Part::Zero | Part::One => 0,
        },
    }
}
