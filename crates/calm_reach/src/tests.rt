ghost use Rattle.std.specs.Prelude.{◌≡◌, length, IfOk};
ghost use Rattle.coco_model.specs.Netlist.{IsInRange};

use crate::{CalmRow, calm_row};
use coco_base::{Flat, List, NoMemory, Part};
use gate_graph::{Graph, build, can_build};
use std::alloc::Global;
use std::test::Fail;

const ZERO: Part = Part::Zero;

const ONE: Part = Part::One;

const VARY: Part = Part::Vary;

// the graph of rows
fn graph_of(alloc: Global, rows: &str) -> Result<Graph, Fail> {
    let flat = circuit_rows::netlist(alloc, rows)?;
    if !can_build(&flat) {
        return Err(Fail::from(NoMemory));
    }
    match build(alloc, &flat) {
        Ok(graph) => Ok(graph),
        Err(_) => Err(Fail::from(NoMemory)),
    }
}

// the calm row between two rows, and the leaves that a bit reaches
fn reached(
    alloc: Global,
    graph: &Graph,
    before: &[Part],
    now: &[Part],
    bit: u32,
) -> Result<List<u32>, NoMemory> {
    let bits = graph.bits();
    if before.len() != bits as usize || now.len() != bits as usize || bits <= bit {
        return Err(NoMemory);
    }
    let row = calm_row(alloc, graph, before, now)?;
    row.reached(alloc, graph, bit)
}

fn is_list(list: &List<u32>, items: &[u32]) -> bool {
    list.as_slice() == items
}

#[test]
fn a_select_that_changes_lets_both_data_inputs_through(rt: HostRuntime) -> Result<(), Fail> {
    let alloc = rt.alloc();
    let graph = graph_of(
        alloc,
        "in s\nq0 = FLOP(q0)\nq1 = FLOP(q1)\ny = MUX(q0, q1, s)",
    )?;
    let low = [ZERO, ZERO, VARY, VARY, VARY];
    let high = [ZERO, ONE, VARY, VARY, VARY];
    assert!(rt; is_list(&reached(alloc, &graph, &low, &low, 4)?, &[2]));
    assert!(rt; is_list(&reached(alloc, &graph, &low, &high, 4)?, &[1, 2, 3]));
    assert!(rt; is_list(&reached(alloc, &graph, &high, &high, 4)?, &[3]));
    Ok(())
}

#[test]
fn an_output_that_is_equal_in_both_cycles_may_pulse(rt: HostRuntime) -> Result<(), Fail> {
    let alloc = rt.alloc();
    let graph = graph_of(alloc, "in s\nz = XOR(s, s)\nq0 = FLOP(q0)\ny = AND(q0, z)")?;
    let low = [ZERO, ZERO, ZERO, VARY, ZERO];
    let high = [ZERO, ONE, ZERO, VARY, ZERO];
    assert!(rt; is_list(&reached(alloc, &graph, &low, &low, 4)?, &[]));
    assert!(rt; is_list(&reached(alloc, &graph, &low, &high, 4)?, &[1, 3]));
    Ok(())
}

// a row of a cell with four inputs and one with two
fn two_cells(alloc: Global) -> Result<CalmRow, Fail>
    ensures bits { IfOk result (λ r. length r.parts ≡ 8) }
    ensures cells { IfOk result (λ r. r.cells ≡ 2) }
{
    let graph = graph_of(
        alloc,
        "in a\nin b\nin c\nin d\nin e\nx = AOI4(a, b, c, d)\ny = OR(x, e)",
    )?;
    let parts = [ZERO, VARY, ONE, VARY, ZERO, VARY, VARY, VARY];
    if graph.bits() != 8 || graph.cells() != 2 {
        return Err(Fail::from(NoMemory));
    }
    Ok(calm_row(alloc, &graph, &parts, &parts)?)
}

#[test]
fn calm_inputs_are_not_live_and_block_others(rt: HostRuntime) -> Result<(), Fail> {
    let row = two_cells(rt.alloc())?;
    assert!(rt; row.part(2) == ONE && row.part(6) == VARY);
    assert!(rt; row.live(0, 0) && !row.live(0, 1) && !row.live(0, 2) && !row.live(0, 3));
    assert!(rt; row.live(1, 0) && row.live(1, 1) && !row.live(1, 2) && !row.live(1, 7));
    Ok(())
}

#[test]
fn a_part_takes_one_byte(rt: HostRuntime) -> Result<(), Fail> {
    assert_eq!(rt; size_of::<Part>(), 1);
    Ok(())
}
