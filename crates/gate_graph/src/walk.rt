// A walk from a cell against the wires, that gives levels on its way back.
ghost use Rattle.std.specs.Prelude.{◌≡◌, ◌↔◌, ◌<◌, ℕ, length, get_or, IfOk, IsTrue};
ghost use Rattle.gate_graph.specs.Drivers.{IsWired};
ghost use Rattle.gate_graph.specs.declared.mark.Mark.TheVariants.{New};
ghost use Rattle.gate_graph.specs.Marks.{mark_of, AreMarks, AreLeft, IsWalkEnd};

use crate::driver::Driver;
use crate::mark::{ClosedPath, Mark, Step};
use crate::step::step_at;
use coco_base::{Flat, NoMemory};
use std::alloc::Global;

/// Gives a level to a cell and to all that it needs, or answers the walk that came back to one of its cells.
pub(crate) fn walk_from(
    alloc: Global,
    flat: &Flat,
    drivers: &[Driver],
    marks: &mut [Mark],
    start: u32,
) -> Result<Option<ClosedPath>, NoMemory>
    requires wired { IsWired flat.now drivers.now }
    requires marks { AreMarks flat.now marks.old }
    requires left { AreLeft marks.old }
    requires inside { start < length marks.old }
    ensures { IfOk result (IsWalkEnd flat.now start marks.old marks.new) }
{
    let mut path = Vec::new(alloc);
    if is_new(marks, start) {
        path.push(start)?;
        marks[start as usize] = Mark::Walked;
    }
    'walk: while path.len() > 0 {
        let top = path[path.len() - 1];
        match step_at(flat, drivers, marks, top) {
            Step::Down(cell) => {
                path.push(cell)?;
                marks[cell as usize] = Mark::Walked;
            }
            Step::Closed(cell) => {
                let entry = place_of(path.as_slice(), cell);
                return Ok(Some(ClosedPath { path, entry }));
            }
            Step::Up(level) => {
                path.truncate(path.len() - 1);
                marks[top as usize] = Mark::Level(level);
            }
        }
    }
    Ok(None)
}

fn is_new(marks: &[Mark], cell: u32) -> bool
    requires { cell < length marks.now }
    ensures { IsTrue result ↔ (mark_of marks.now cell ≡ New) }
{
    marks[cell as usize] == Mark::New
}

fn place_of(path: &[u32], cell: u32) -> usize
    requires { (k : ℕ) × (k < length path.now) × (get_or path.now k 0 ≡ cell) }
    ensures place { result < length path.now }
    ensures at { get_or path.now result 0 ≡ cell }
{
    'places: for place in 0..path.len() {
        if path[place] == cell {
            return place;
        }
    }
    path.len()
}
