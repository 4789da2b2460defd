//! Unrolled runs for tests, and their nodes.
ghost use Rattle.coco_model.specs.Setups.{IsBoundTo};

use crate::Ready;
use crate::known::run;
use coco_base::{Limits, Node, Unrolled};
use std::alloc::Global;
use std::process::Abort;
use std::test::Fail;
use unroll::{UnrollFault, unroll};

/// A run over so many cycles, of at most so many nodes.
pub(crate) fn unrolled_within(
    rt: &impl Abort,
    alloc: Global,
    run: &Ready,
    cycles: u32,
    nodes: u64,
) -> Result<Unrolled, UnrollFault>
    requires { IsBoundTo run.now.graph.flat run.now.setup }
{
    assert!(rt; 0 < cycles && nodes <= 4_000_000);
    let mut limits = Limits::usual();
    limits.nodes = nodes;
    unroll(alloc, &run.graph, &run.setup, cycles, &limits)
}

/// The run over the circuit of rows that a label file tells.
pub(crate) fn unrolled(
    rt: &impl Abort,
    alloc: Global,
    rows: &str,
    file: &str,
    cycles: u32,
) -> Result<Unrolled, Fail> {
    let run = run(rt, alloc, rows, file)?;
    match unrolled_within(rt, alloc, &run, cycles, 4_000_000) {
        Ok(run) => Ok(run),
        Err(_) => panic!(rt; "not unrolled"),
    }
}

/// The number of the node of a bit in a cycle.
pub(crate) fn number(run: &Unrolled, bit: usize, cycle: u32) -> u32 {
    let rank = match run.ranks.as_slice().get(bit) {
        Some(rank) => *rank,
        None => u32::MAX,
    };
    cycle.saturating_mul(run.bits).saturating_add(rank)
}

/// The node of a bit in a cycle.
pub(crate) fn node(run: &Unrolled, bit: usize, cycle: u32) -> Option<Node> {
    run.nodes
        .as_slice()
        .get(number(run, bit, cycle) as usize)
        .copied()
}

/// A copy of the node of a bit in a cycle.
pub(crate) fn copy(run: &Unrolled, bit: usize, cycle: u32) -> Option<Node> {
    Some(Node::Copy(number(run, bit, cycle)))
}

/// A node that is a label.
pub(crate) fn label(number: u32) -> Option<Node> {
    Some(Node::Label(number))
}

pub(crate) fn is_gate(node: Option<Node>) -> bool {
    matches!(node, Some(Node::Gate { .. }))
}
