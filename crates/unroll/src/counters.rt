ghost use Rattle.std.specs.Prelude.{◌≡◌, ◌<◌, suc, ◌++◌, option_to_list, IfOk, IfErr, OnOk};
ghost use Rattle.coco_model.specs.Setups.{IsBoundTo};
ghost use Rattle.unroll.specs.Counters.{ArePcs, IsPcIn};
ghost use Rattle.unroll.specs.Unrolls.{IsFaultIn, IsSimFault};
ghost use Rattle.unroll.specs.Walks.{IsStanding};

use crate::fault::UnrollFault;
use crate::naming::named;
use coco_base::{List, NoMemory, Setup};
use cycle_sim::{Sim, SimFault};
use gate_graph::Graph;
use std::alloc::Global;

/// The number on the net of the program counter in each cycle; an empty list where the setup has no such net. It is
/// refused where the simulation meets a fault, as `unroll` is.
pub fn pcs_of(
    alloc: Global,
    graph: &Graph,
    setup: &Setup,
    cycles: u32,
) -> Result<List<u32>, UnrollFault>
    requires { IsBoundTo graph.now.flat setup.now }
    ensures pcs { IfOk result (ArePcs graph.now.flat setup.now cycles) }
    ensures fault { IfErr result (IsSimFault graph.now.flat setup.now cycles) }
{
    let mut sim = Sim::new(alloc, graph, setup)?;
    let mut pcs = List::new(alloc);
    'cycles: for cycle in 0..cycles {
        match next_pc(graph, setup, cycle, &mut sim) {
            Ok(pc) => add_pc(&mut pcs, pc)?,
            Err(fault) => return Err(named(alloc, graph, setup, fault)?),
        }
    }
    Ok(pcs)
}

fn add_pc(pcs: &mut List<u32>, pc: Option<u32>) -> Result<(), NoMemory>
    ensures { OnOk result (pcs.new ≡ pcs.old ++ option_to_list pc) }
{
    match pc {
        Some(pc) => pcs.push(pc),
        None => Ok(()),
    }
}

// Simulates the next cycle.
fn next_pc(
    graph: &Graph,
    setup: &Setup,
    cycle: u32,
    sim: &mut Sim<'_>,
) -> Result<Option<u32>, SimFault>
    requires bound { IsBoundTo graph.now.flat setup.now }
    requires last { cycle < 4294967295 }
    requires standing { IsStanding graph.now setup.now cycle sim.old }
    ensures standing { OnOk result (IsStanding graph.now setup.now (suc cycle) sim.new) }
    ensures pc { IfOk result (IsPcIn graph.now.flat setup.now cycle) }
    ensures fault { IfErr result (IsFaultIn graph.now.flat setup.now cycle) }
{
    match sim.next() {
        Ok(()) => Ok(sim.pc()),
        Err(fault) => Err(fault),
    }
}
