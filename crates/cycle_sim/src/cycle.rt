// One cycle: its leaves, and what they force of all other bits.
ghost use Rattle.std.specs.Prelude.{◌≡◌, ◌∷◌, suc, length};
ghost use Rattle.coco_model.specs.Carried.{start_word};
ghost use Rattle.coco_model.specs.Known.{parts};
ghost use Rattle.coco_model.specs.Setups.{IsBoundTo};
ghost use Rattle.coco_model.specs.Stepped.{IsGoodCycle};
ghost use Rattle.gate_graph.specs.Graphs.{IsBuilt};
ghost use Rattle.cycle_sim.specs.Memories.{HoldsWords};
ghost use Rattle.cycle_sim.specs.Simulations.{IsAtWith, IsBeforeWith, IsReadyWith};

use crate::leaves::{
    clear, write_answers, write_echoes, write_flops, write_inputs, write_leaves, write_starts,
};
use crate::memory::store;
use crate::settle::settle;
use coco_base::{Part, Setup};
use gate_graph::Graph;

/// What is known of the bits in a cycle and in the one before, and of the bits of the memory in the cycle.
#[derive(Debug, Drop)]
pub(crate) struct Snapshot {
    pub known: Vec<Part>,
    pub before: Vec<Part>,
    pub memory: Vec<Part>,
}

/// The cycle of this number, after good ones.
pub(crate) fn make_cycle(graph: &Graph, setup: &Setup, cycle: u32, rows: &mut Snapshot)
    requires built { IsBuilt graph.now }
    requires bound { IsBoundTo graph.now.flat setup.now }
    requires known { length rows.old.known.items ≡ graph.now.flat.bits }
    requires before { length rows.old.before.items ≡ graph.now.flat.bits }
    requires ready { IsReadyWith graph.now.flat setup.now cycle rows.old }
    ensures at { IsAtWith graph.now.flat setup.now cycle rows.new }
    ensures known { length rows.new.known.items ≡ graph.now.flat.bits }
    ensures before { length rows.new.before.items ≡ graph.now.flat.bits }
{
    if cycle == 0 {
        return first_cycle(graph, setup, rows);
    }
    next_cycle(graph, setup, cycle, rows)
}

// The first cycle; that before it is itself.
fn first_cycle(graph: &Graph, setup: &Setup, rows: &mut Snapshot)
    requires built { IsBuilt graph.now }
    requires bound { IsBoundTo graph.now.flat setup.now }
    requires known { length rows.old.known.items ≡ graph.now.flat.bits }
    requires before { length rows.old.before.items ≡ graph.now.flat.bits }
    requires words { HoldsWords rows.old.memory.items (start_word parts setup.now.table setup.now.words) }
    ensures at { IsAtWith graph.now.flat setup.now 0 rows.new }
    ensures known { length rows.new.known.items ≡ graph.now.flat.bits }
    ensures before { length rows.new.before.items ≡ graph.now.flat.bits }
{
    let known = rows.known.as_mut_slice();
    clear(known);
    write_inputs(setup.inputs.as_slice(), 0, known);
    write_leaves(setup.leaves.as_slice(), rows.memory.as_slice(), known);
    write_starts(graph, setup.starts.as_slice(), known);
    settle(graph, known);
    rows.before
        .as_mut_slice()
        .copy_from_slice(rows.known.as_slice());
}

// A later cycle, after a good one.
fn next_cycle(graph: &Graph, setup: &Setup, cycle: u32, rows: &mut Snapshot)
    requires built { IsBuilt graph.now }
    requires bound { IsBoundTo graph.now.flat setup.now }
    requires known { length rows.old.known.items ≡ graph.now.flat.bits }
    requires before { length rows.old.before.items ≡ graph.now.flat.bits }
    requires at { IsBeforeWith graph.now.flat setup.now cycle rows.old }
    ensures at { IsAtWith graph.now.flat setup.now cycle rows.new }
    ensures known { length rows.new.known.items ≡ graph.now.flat.bits }
    ensures before { length rows.new.before.items ≡ graph.now.flat.bits }
{
    rows.before
        .as_mut_slice()
        .copy_from_slice(rows.known.as_slice());
    let before = rows.before.as_slice();
    let known = rows.known.as_mut_slice();
    let memories = setup.memories.as_slice();
    clear(known);
    write_echoes(setup.echoes.as_slice(), before, known);
    write_answers(memories, before, rows.memory.as_slice(), known);
    write_inputs(setup.inputs.as_slice(), cycle, known);
    store(before, memories, rows.memory.as_mut_slice());
    write_leaves(setup.leaves.as_slice(), rows.memory.as_slice(), known);
    write_flops(graph, before, known);
    settle(graph, known);
}
