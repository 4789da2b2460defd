ghost use Rattle.std.specs.Prelude.{◌≡◌, ◌<◌, suc, ◌++◌, option_to_list, All, IfOk, OnOk};
ghost use Rattle.coco_model.specs.Setups.{IsBoundTo};
ghost use Rattle.coco_model.specs.Stepped.{HasNoFault};
ghost use Rattle.calm_reach.specs.CalmRows.{HasPlaces};
ghost use Rattle.stable_sets.specs.Reached.{AreRows};
ghost use Rattle.unroll.specs.Counters.{ArePcs, IsPcIn};
ghost use Rattle.unroll.specs.Walks.{IsStanding};
ghost use Rattle.run_rows.specs.RunRows.{AreCalmRows, AreRowsOfRun};
ghost use Rattle.run_rows.specs.Cycles.{IsRowIn};

use calm_reach::{CalmRow, calm_row};
use coco_base::{List, NoMemory, Setup};
use cycle_sim::Sim;
use gate_graph::Graph;
use stable_sets::Rows;
use std::alloc::Global;

/// What a simulated run tells of each cycle: its calm row, and the number on the net of the program counter. There are
/// no numbers where the setup has no such net.
#[derive(Debug, Drop)]
pub struct RunRows {
    pub rows: Rows,
    pub pcs: List<u32>,
}

/// The same of one cycle.
#[derive(Drop)]
struct Told {
    row: CalmRow,
    pc: Option<u32>,
}

/// The calm rows and the program counters of a run in which no cycle has a fault, as one that was unrolled. The only
/// error is want of memory.
pub fn rows_of(
    alloc: Global,
    graph: &Graph,
    setup: &Setup,
    cycles: u32,
) -> Result<RunRows, NoMemory>
    requires bound { IsBoundTo graph.now.flat setup.now }
    requires no_fault { HasNoFault graph.now.flat setup.now cycles }
    ensures rows { IfOk result (λ run. AreRows graph.now.flat cycles run.rows) }
    ensures places { IfOk result (λ run. All (HasPlaces graph.now.flat) run.rows) }
    ensures calm { IfOk result (λ run. AreCalmRows graph.now.flat setup.now cycles run.rows) }
    ensures tells { IfOk result (λ run. AreRowsOfRun graph.now.flat setup.now cycles run.rows) }
    ensures pcs { IfOk result (λ run. ArePcs graph.now.flat setup.now cycles run.pcs) }
{
    let mut sim = Sim::new(alloc, graph, setup)?;
    let mut rows = List::new(alloc);
    let mut pcs = List::new(alloc);
    'cycles: for cycle in 0..cycles {
        let told = tell_next(alloc, graph, setup, cycle, &mut sim)?;
        rows.push(told.row)?;
        add_pc(&mut pcs, told.pc)?;
    }
    Ok(RunRows { rows, pcs })
}

fn add_pc(pcs: &mut List<u32>, pc: Option<u32>) -> Result<(), NoMemory>
    ensures { OnOk result (pcs.new ≡ pcs.old ++ option_to_list pc) }
{
    match pc {
        Some(pc) => pcs.push(pc),
        None => Ok(()),
    }
}

// Simulates the next cycle, which has no fault.
fn tell_next(
    alloc: Global,
    graph: &Graph,
    setup: &Setup,
    cycle: u32,
    sim: &mut Sim<'_>,
) -> Result<Told, NoMemory>
    requires bound { IsBoundTo graph.now.flat setup.now }
    requires no_fault { HasNoFault graph.now.flat setup.now (suc cycle) }
    requires last { cycle < 4294967295 }
    requires standing { IsStanding graph.now setup.now cycle sim.old }
    ensures standing { OnOk result (IsStanding graph.now setup.now (suc cycle) sim.new) }
    ensures row { IfOk result (λ told. IsRowIn graph.now.flat setup.now cycle told.row) }
    ensures pc { IfOk result (λ told. IsPcIn graph.now.flat setup.now cycle told.pc) }
{
    match sim.next() {
        Ok(()) => {}
        Err(_) => unreachable!(),
    }
    let row = calm_row(alloc, graph, sim.before(), sim.known())?;
    Ok(Told { row, pc: sim.pc() })
}
