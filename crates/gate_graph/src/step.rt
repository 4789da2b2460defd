// What a walk does at one cell.
ghost use Rattle.std.specs.Prelude.{◌≡◌, ◌<◌, length, max};
ghost use Rattle.coco_model.specs.Netlist.{IsWireBelow};
ghost use Rattle.gate_graph.specs.Drivers.{IsWired};
ghost use Rattle.gate_graph.specs.declared.mark.Mark.TheVariants.{Walked};
ghost use Rattle.gate_graph.specs.Marks.{mark_of, AreMarks, IsStep, IsInputStep};

use crate::driver::Driver;
use crate::mark::{Mark, Step};
use crate::wires::wires_of;
use coco_base::{Flat, Wire};

/// Looks at the inputs of a cell in order: the first whose driver has no level says where to go; where all have levels,
/// the cell gets one more than the greatest.
pub(crate) fn step_at(flat: &Flat, drivers: &[Driver], marks: &[Mark], cell: u32) -> Step
    requires wired { IsWired flat.now drivers.now }
    requires marks { AreMarks flat.now marks.now }
    requires inside { cell < length marks.now }
    requires walked { mark_of marks.now cell ≡ Walked }
    ensures { IsStep flat.now marks.now cell result }
{
    let wires = wires_of(&flat.cells.as_slice()[cell as usize]);
    let mut greatest = 0;
    'inputs: for wire in wires {
        match input_step(flat, drivers, marks, *wire) {
            Step::Up(level) => greatest = larger(greatest, level),
            other => return other,
        }
    }
    Step::Up(greatest + 1)
}

fn larger(a: u32, b: u32) -> u32
    ensures { result ≡ max a b }
{
    a.max(b)
}

fn input_step(flat: &Flat, drivers: &[Driver], marks: &[Mark], wire: Wire) -> Step
    requires wired { IsWired flat.now drivers.now }
    requires marks { AreMarks flat.now marks.now }
    requires below { IsWireBelow flat.now.bits wire }
    ensures { IsInputStep flat.now drivers.now marks.now wire result }
{
    let _cells = flat.cells.as_slice();
    let Wire::Bit(bit) = wire else {
        return Step::Up(0);
    };
    let Driver::Cell(cell) = drivers[bit as usize] else {
        return Step::Up(0);
    };
    match marks[cell as usize] {
        Mark::New => Step::Down(cell),
        Mark::Walked => Step::Closed(cell),
        Mark::Level(level) => Step::Up(level),
    }
}
