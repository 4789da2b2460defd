ghost use Rattle.std.specs.Prelude.{◌≡◌, ℕ, suc, ◌*◌, ◌<◌, ◌≤◌, IfOk, IfErr, OnOk};
ghost use Rattle.coco_model.specs.Setups.{IsBoundTo};
ghost use Rattle.coco_model.specs.Stepped.{HasNoFault};
ghost use Rattle.coco_model.specs.UnrolledRuns.{IsUnrolledFor, IsUnrolledOf};
ghost use Rattle.unroll.specs.Unrolls.{IsFaultIn, IsSimFault, IsUnrollFault, IsWithin};
ghost use Rattle.unroll.specs.Walks.{HasRoom, HasNodes, IsOneMore, IsStanding};
ghost use Rattle.unroll.specs.Moments.{KeepsSizes};

use crate::copies::{ranks_of, table_of};
use crate::cycle::{Moment, Walk, add_cycle, new_walk};
use crate::fault::UnrollFault;
use crate::naming::named;
use coco_base::{Limits, List, Node, Setup, Unrolled};
use cycle_sim::{Sim, SimFault};
use gate_graph::Graph;
use std::alloc::Global;

/// The unrolled run of a graph and a setup over so many cycles: the node of bit b in cycle t has the number
/// `t * bits + rank(b)`. It is refused where bits times cycles exceed the limit, and else where the simulation meets a
/// fault.
pub fn unroll(
    alloc: Global,
    graph: &Graph,
    setup: &Setup,
    cycles: u32,
    limits: &Limits,
) -> Result<Unrolled, UnrollFault>
    requires bound { IsBoundTo graph.now.flat setup.now }
    requires some { 0 < cycles }
    requires limits { limits.now.nodes ≤ 4000000 }
    ensures unrolled { IfOk result (IsUnrolledOf graph.now.flat setup.now cycles) }
    ensures as_graph { IfOk result (IsUnrolledFor graph.now.flat graph.now.ranks) }
    ensures within { IfOk result (λ _. IsWithin graph.now.flat cycles limits.now) }
    ensures fault { IfErr result (IsUnrollFault graph.now.flat setup.now cycles limits.now) }
{
    let bits = graph.bits();
    let count = u64::from(bits) * u64::from(cycles);
    let limit = limits.nodes;
    if count > limit {
        return Err(UnrollFault::TooManyNodes { count, limit });
    }
    let nodes = nodes_of(alloc, graph, setup, cycles)?;
    Ok(Unrolled {
        bits,
        cycles,
        ranks: ranks_of(alloc, graph)?,
        nodes,
        table: table_of(alloc, &setup.table)?,
    })
}

// The nodes of all cycles by their numbers.
fn nodes_of(
    alloc: Global,
    graph: &Graph,
    setup: &Setup,
    cycles: u32,
) -> Result<List<Node>, UnrollFault>
    requires bound { IsBoundTo graph.now.flat setup.now }
    requires some { 0 < cycles }
    requires few { graph.now.flat.bits * cycles ≤ 4000000 }
    ensures nodes { IfOk result (HasNodes graph.now setup.now cycles) }
    ensures fault { IfErr result (IsSimFault graph.now.flat setup.now cycles) }
{
    let mut sim = Sim::new(alloc, graph, setup)?;
    let mut walk = new_walk(alloc, graph, setup, cycles)?;
    'cycles: for cycle in 0..cycles {
        match add_next(graph, setup, cycle, &mut sim, &mut walk) {
            Ok(()) => {}
            Err(fault) => return Err(named(alloc, graph, setup, fault)?),
        }
    }
    Ok(List::from_vec(walk.nodes))
}

// Simulates the next cycle, and adds its nodes.
fn add_next(
    graph: &Graph,
    setup: &Setup,
    cycle: u32,
    sim: &mut Sim<'_>,
    walk: &mut Walk,
) -> Result<(), SimFault>
    requires bound { IsBoundTo graph.now.flat setup.now }
    requires few { graph.now.flat.bits * suc cycle ≤ 4000000 }
    requires last { cycle < 4294967295 }
    requires standing { IsStanding graph.now setup.now cycle sim.old }
    requires room { HasRoom graph.now cycle walk.old }
    ensures standing { OnOk result (IsStanding graph.now setup.now (suc cycle) sim.new) }
    ensures good { OnOk result (HasNoFault graph.now.flat setup.now (suc cycle)) }
    ensures sized { OnOk result (KeepsSizes graph.now walk.old walk.new) }
    ensures done { OnOk result (IsOneMore graph.now setup.now cycle walk.old walk.new) }
    ensures fault { IfErr result (IsFaultIn graph.now.flat setup.now cycle) }
{
    match sim.next() {
        Ok(()) => {}
        Err(fault) => return Err(fault),
    }
    let at = Moment {
        graph,
        setup,
        cycle,
        before: sim.before(),
        known: sim.known(),
    };
    add_cycle(&at, walk);
    Ok(())
}
