ghost use Rattle.std.specs.Prelude.{◌≡◌, IfOk, IfErr};
ghost use Rattle.coco_model.specs.Setups.{IsBoundTo};
ghost use Rattle.unroll.specs.Counters.{ArePcs};
ghost use Rattle.run_verdict.specs.Stops.{AreRunLimits, IsRunStop};
ghost use Rattle.run_verdict.specs.Written.{IsAsked, IsWritten};

use coco_base::{Limits, List, Setup};
use gate_graph::Graph;
use label_cone::cone_of;
use probe_encode::{Encoded, encode};
use refusal_lines::Stop;
use run_rows::{RunRows, rows_of};
use std::alloc::Global;
use unroll::unroll;

/// How many probes there are at most, from 1 to 64, how many cycles each lasts, at least 1, and how many cycles are
/// run, from 1 to 65,536.
#[derive(Clone, Copy, Debug, PartialEq, Eq)]
pub struct Asked {
    pub order: u32,
    pub window: u32,
    pub cycles: u32,
}

/// The formula of a run, and the number on the net of the program counter in each cycle.
#[derive(Debug, Drop)]
pub struct Written {
    pub encoded: Encoded,
    pub pcs: List<u32>,
}

/// The formula of a bound run. It is refused where the run has too many nodes, else where a cycle has a fault, and else
/// where its weight is above the limit.
pub fn write_formula(
    alloc: Global,
    graph: &Graph,
    setup: &Setup,
    asked: Asked,
    limits: &Limits,
) -> Result<Written, Stop>
    requires bound { IsBoundTo graph.now.flat setup.now }
    requires asked { IsAsked asked }
    requires limits { AreRunLimits graph.now.flat limits.now }
    ensures written { IfOk result (λ w. IsWritten graph.now setup.now asked limits.now.weight w.encoded) }
    ensures pcs { IfOk result (λ w. ArePcs graph.now.flat setup.now asked.cycles w.pcs) }
    ensures stop { IfErr result (IsRunStop graph.now.flat setup.now asked limits.now) }
{
    let unrolled = unroll(alloc, graph, setup, asked.cycles, limits)?;
    let cones = cone_of(alloc, &unrolled, asked.order, limits)?;
    let RunRows { rows, pcs } = rows_of(alloc, graph, setup, asked.cycles)?;
    let encoded = encode(
        alloc,
        graph,
        &unrolled,
        &rows,
        &cones,
        setup.clock,
        asked.order,
        asked.window,
    )?;
    Ok(Written { encoded, pcs })
}
