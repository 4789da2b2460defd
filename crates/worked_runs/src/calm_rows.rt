//! What probes reach in whole runs, by their calm rows, and the program counters that come with these.
ghost use Rattle.std.specs.Prelude.{All, IfOk};
ghost use Rattle.calm_reach.specs.CalmRows.{HasPlaces};
ghost use Rattle.coco_model.specs.Setups.{IsBoundTo};

use crate::Ready;
use crate::known::run;
use coco_base::{Limits, List};
use run_rows::{RunRows, rows_of};
use std::alloc::Global;
use std::process::Abort;
use std::test::Fail;
use unroll::unroll;

/// The rows of a run that was unrolled, and so has no fault.
fn rows(rt: &impl Abort, alloc: Global, run: &Ready, cycles: u32) -> Result<RunRows, Fail>
    requires { IsBoundTo run.now.graph.flat run.now.setup }
    ensures { IfOk result (λ r. All (HasPlaces run.now.graph.flat) r.rows) }
{
    assert!(rt; 0 < cycles);
    match unroll(alloc, &run.graph, &run.setup, cycles, &Limits::usual()) {
        Ok(_) => Ok(rows_of(alloc, &run.graph, &run.setup, cycles)?),
        Err(_) => panic!(rt; "not unrolled"),
    }
}

/// The leaves that a bit reaches in a cycle.
fn reached(
    rt: &impl Abort,
    alloc: Global,
    run: &Ready,
    rows: &RunRows,
    bit: u32,
    cycle: usize,
) -> Result<List<u32>, Fail>
    requires { All (HasPlaces run.now.graph.flat) rows.now.rows }
{
    assert!(rt; bit < run.graph.bits());
    match rows.rows.as_slice().get(cycle) {
        Some(row) => Ok(row.reached(alloc, &run.graph, bit)?),
        None => panic!(rt; "no row"),
    }
}

#[test]
fn both_inputs_of_a_multiplexer_are_reached_in_the_cycle_in_which_its_select_changes(
    rt: HostRuntime,
) -> Result<(), Fail> {
    // bits: clk 0, s 1, q0 2, q1 3, y 4
    let circuit = "in s\nq0 = FLOP(q0)\nq1 = FLOP(q1)\ny = MUX(q0, q1, s)";
    let labels = "secret a 1 2\nclock clk\nreg q0 a.0\nreg q1 a.1\ninput s 0 1";
    let run = run(&rt, rt.alloc(), circuit, labels)?;
    let rows = rows(&rt, rt.alloc(), &run, 4)?;
    assert!(rt; rows.rows.len() == 4 && rows.pcs.is_empty());
    let (low, both, high) = ([2u32], [1u32, 2, 3], [3u32]);
    let cases = [&low[..], &both[..], &high[..], &high[..]];
    'cycles: for (cycle, leaves) in cases.iter().enumerate() {
        let found = reached(&rt, rt.alloc(), &run, &rows, 4, cycle)?;
        assert!(rt; found.as_slice() == *leaves, "cycle {cycle}");
    }
    Ok(())
}

#[test]
fn a_register_that_changes_in_each_cycle_is_calm_in_the_first_alone(
    rt: HostRuntime,
) -> Result<(), Fail> {
    // bits: clk 0, p 1, n 2
    let circuit = "p = FLOP(n)\nn = NOT(p)\nnet pc = 0, 0, p";
    let run = run(&rt, rt.alloc(), circuit, "clock clk\npc pc")?;
    let rows = rows(&rt, rt.alloc(), &run, 3)?;
    assert!(rt; rows.pcs.as_slice() == [0, 4, 0].as_slice());
    assert!(rt; reached(&rt, rt.alloc(), &run, &rows, 2, 0)?.is_empty());
    for cycle in [1usize, 2] {
        let found = reached(&rt, rt.alloc(), &run, &rows, 2, cycle)?;
        assert!(rt; found.as_slice() == [1].as_slice());
    }
    Ok(())
}
