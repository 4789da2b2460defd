// The levels of bits, or the loop where cells have none.
ghost use Rattle.std.specs.Prelude.{◌≡◌, ◌≤◌, map, length, replicate, IfOk, IfErr};
ghost use Rattle.gate_graph.specs.declared.fault.GraphFault.TheVariants.{Loop};
ghost use Rattle.gate_graph.specs.declared.mark.Mark.TheVariants.{New};
ghost use Rattle.gate_graph.specs.Drivers.{IsWired};
ghost use Rattle.gate_graph.specs.Faults.{IsGraphFault};
ghost use Rattle.gate_graph.specs.Loops.{names_from};
ghost use Rattle.gate_graph.specs.Marks.{AreBitLevels, driver_level, mark_level};

use crate::driver::Driver;
use crate::fault::GraphFault;
use crate::mark::{ClosedPath, Mark};
use crate::names::cell_name;
use crate::walk::walk_from;
use coco_base::{Flat, List, NoMemory};
use std::alloc::Global;

/// The level of each bit, where no cells make a loop.
pub(crate) fn levels_of(
    alloc: Global,
    flat: &Flat,
    drivers: &[Driver],
) -> Result<Vec<u32>, GraphFault>
    requires { IsWired flat.now drivers.now }
    ensures levels { IfOk result (λ levels. AreBitLevels flat.now levels.items) }
    ensures fault { IfErr result (IsGraphFault flat.now) }
{
    let count = flat.cells.len();
    let mut marks = new_marks(alloc, count)?;
    'starts: for start in 0..count {
        let end = walk_from(alloc, flat, drivers, marks.as_mut_slice(), start as u32)?;
        if let Some(closed) = end {
            return Err(loop_of(alloc, flat, &closed)?);
        }
    }
    Ok(bit_levels(alloc, drivers, marks.as_slice())?)
}

fn new_marks(alloc: Global, count: usize) -> Result<Vec<Mark>, NoMemory>
    ensures { IfOk result (λ marks. marks.items ≡ replicate count New) }
{
    Ok(vec![in alloc; Mark::New; count]?)
}

/// The fault that names the cells of a walk from its entry on.
fn loop_of(alloc: Global, flat: &Flat, closed: &ClosedPath) -> Result<GraphFault, NoMemory>
    requires { closed.now.entry ≤ length closed.now.path.items }
    ensures { IfOk result (λ fault. fault ≡ Loop (names_from flat.now closed.now.path.items closed.now.entry)) }
{
    let mut cells = List::new(alloc);
    let met = &closed.path.as_slice()[closed.entry..];
    'names: for number in met {
        cells.push(cell_name(alloc, flat, *number)?)?;
    }
    Ok(GraphFault::Loop { cells })
}

fn bit_levels(alloc: Global, drivers: &[Driver], marks: &[Mark]) -> Result<Vec<u32>, NoMemory>
    ensures { IfOk result (λ levels. levels.items ≡ map (driver_level marks.now) drivers.now) }
{
    let mut levels = Vec::new(alloc);
    'bits: for driver in drivers {
        levels.push(driver_level(marks, *driver))?;
    }
    Ok(levels)
}

fn driver_level(marks: &[Mark], driver: Driver) -> u32
    ensures { result ≡ driver_level marks.now driver }
{
    match driver {
        Driver::Cell(cell) => mark_level(marks.get(cell as usize).copied().unwrap_or(Mark::New)),
        Driver::Port(_) | Driver::Flop(_) => 0,
        Driver::Nothing => 0,
    }
}

fn mark_level(mark: Mark) -> u32
    ensures { result ≡ mark_level mark }
{
    match mark {
        Mark::Level(level) => level,
        Mark::New | Mark::Walked => 0,
    }
}
