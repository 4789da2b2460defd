//! The unrolled run of a register that keeps a mask.
ghost use Rattle.std.specs.Prelude.{◌≡◌, IfOk};
ghost use Rattle.coco_model.specs.Setups.{IsBoundTo};
ghost use Rattle.unroll.specs.Examples.{masked, register};

use crate::{UnrollFault, pcs_of, unroll};
use coco_base::{
    Flat, FlatFlop, FlatPort, LabelTable, Limits, List, MaskPlan, NoMemory, Node, Setup, Start,
    Text, Wire,
};
use gate_graph::{Graph, build, can_build};
use std::alloc::Global;
use std::process::Abort;
use std::test::Fail;

fn register(alloc: Global) -> Result<Flat, NoMemory>
    ensures { IfOk result (λ flat. flat ≡ register) }
{
    let mut wires = List::new(alloc);
    wires.push(Wire::Bit(0))?;
    let mut ports = List::new(alloc);
    ports.push(FlatPort {
        name: Text::of(alloc, "clk")?,
        input: true,
        wires,
    })?;
    let mut flops = List::new(alloc);
    flops.push(FlatFlop {
        name: Text::of(alloc, "c_q")?,
        clock: Wire::Bit(0),
        next: Wire::Bit(1),
        output: 1,
        reset: None,
        level: false,
    })?;
    Ok(Flat {
        bits: 2,
        ports,
        cells: List::new(alloc),
        flops,
        nets: List::new(alloc),
    })
}

fn one_mask(alloc: Global) -> Result<LabelTable, NoMemory>
    ensures { IfOk result (λ table. table ≡ masked.table) }
{
    let mut masks = List::new(alloc);
    masks.push(MaskPlan {
        name: Text::of(alloc, "m")?,
        width: 1,
        first: 0,
    })?;
    Ok(LabelTable {
        secrets: List::new(alloc),
        masks,
        fresh: List::new(alloc),
        declared: 1,
        per_cycle: 0,
    })
}

fn masked(alloc: Global) -> Result<Setup, NoMemory>
    ensures { IfOk result (λ setup. setup ≡ masked) }
{
    let mut starts = List::new(alloc);
    starts.push(Start::Public(false))?;
    starts.push(Start::Label(0))?;
    Ok(Setup {
        starts,
        inputs: List::new(alloc),
        echoes: List::new(alloc),
        memories: List::new(alloc),
        words: List::new(alloc),
        leaves: List::new(alloc),
        controls: List::new(alloc),
        pc: List::new(alloc),
        lines: List::new(alloc),
        table: one_mask(alloc)?,
        clock: Some(0),
    })
}

fn bound(alloc: Global) -> Result<Setup, NoMemory>
    ensures { IfOk result (IsBoundTo register) }
{
    let setup = masked(alloc)?;
    Ok(setup)
}

fn graph(rt: &impl Abort, alloc: Global) -> Result<Graph, NoMemory>
    ensures { IfOk result (λ graph. graph.flat ≡ register) }
{
    let flat = register(alloc)?;
    assert!(rt; can_build(&flat));
    match build(alloc, &flat) {
        Ok(graph) => Ok(graph),
        Err(_) => panic!(rt; "no graph"),
    }
}

#[test]
fn a_register_is_its_label_and_then_a_copy(rt: HostRuntime) -> Result<(), Fail> {
    let alloc = rt.alloc();
    let graph = graph(&rt, alloc)?;
    let setup = bound(alloc)?;
    let mut limits = Limits::usual();
    limits.nodes = 4;
    match unroll(alloc, &graph, &setup, 2, &limits) {
        Ok(run) => {
            let nodes = [Node::Nothing, Node::Label(0), Node::Nothing, Node::Copy(1)];
            assert!(rt; run.nodes.as_slice() == nodes.as_slice());
            assert!(rt; run.ranks.as_slice() == [0, 1].as_slice());
            assert_eq!(rt; run.table.declared, 1);
        }
        Err(_) => panic!(rt; "not unrolled"),
    }
    Ok(())
}

#[test]
fn four_nodes_are_above_a_limit_of_three(rt: HostRuntime) -> Result<(), Fail> {
    let alloc = rt.alloc();
    let graph = graph(&rt, alloc)?;
    let setup = bound(alloc)?;
    let mut limits = Limits::usual();
    limits.nodes = 3;
    match unroll(alloc, &graph, &setup, 2, &limits) {
        Err(UnrollFault::TooManyNodes { count, limit }) => {
            assert_eq!(rt; count, 4);
            assert_eq!(rt; limit, 3);
        }
        _ => panic!(rt; "within"),
    }
    Ok(())
}

#[test]
fn without_a_pc_line_there_are_no_numbers(rt: HostRuntime) -> Result<(), Fail> {
    let alloc = rt.alloc();
    let graph = graph(&rt, alloc)?;
    let setup = bound(alloc)?;
    match pcs_of(alloc, &graph, &setup, 2) {
        Ok(pcs) => assert!(rt; pcs.is_empty()),
        Err(_) => panic!(rt; "no numbers"),
    }
    Ok(())
}
