// One cycle: the nodes and roots of its leaves, and then of its cells.
ghost use Rattle.std.specs.Prelude.{◌≡◌, ℕ, suc, ◌+◌, ◌*◌, ◌<◌, ◌≤◌, ◌^◌, length, IfOk};
ghost use Rattle.coco_base.specs.declared.unrolled.Node.{Node};
ghost use Rattle.coco_model.specs.Carried.{start_word, stored_word};
ghost use Rattle.coco_model.specs.Known.{ones};
ghost use Rattle.coco_model.specs.Netlist.{IsCellBit};
ghost use Rattle.coco_model.specs.Nodes.{starting_nodes};
ghost use Rattle.coco_model.specs.Run.{before};
ghost use Rattle.coco_model.specs.Setups.{IsBoundTo};
ghost use Rattle.coco_model.specs.Stepped.{HasNoOutside, row_of};
ghost use Rattle.gate_graph.specs.Graphs.{IsBuilt};
ghost use Rattle.cycle_sim.specs.Memories.{word_bits};
ghost use Rattle.unroll.specs.NodeRows.{nodes_of, copies};
ghost use Rattle.unroll.specs.RootedRuns.{RootedRun};
ghost use Rattle.unroll.specs.Walks.{IsSized, IsDone, HasRoom, AgreeOnLeaves};
ghost use Rattle.unroll.specs.Moments.{bits_in, row_before, HasFewNodes, IsRowSettled, HasFirstLeaves, HasNextLeaves, HasLeaves, HasCycle, KeepsSizes};

use crate::cells::settle;
use crate::leaves::{
    clear, write_answers, write_echoes, write_flops, write_inputs, write_leaves, write_starts,
    write_words,
};
use crate::memory::{Past, start_words, store};
use crate::origin::{Origin, write_roots};
use crate::place::{place_nodes, place_roots, write_copies};
use coco_base::{NoMemory, Node, Part, Setup};
use gate_graph::Graph;
use std::alloc::Global;

/// What is known in a cycle and in the one before.
#[derive(Clone, Copy)]
pub(crate) struct Moment<'a> {
    pub graph: &'a Graph,
    pub setup: &'a Setup,
    pub cycle: u32,
    pub before: &'a [Part],
    pub known: &'a [Part],
}

/// The nodes and roots of the cycles so far by their numbers, the nodes of the memory's words, and by bit the nodes and
/// roots of the last cycle, with the copies and the roots of the one before.
#[derive(Debug, Drop)]
pub(crate) struct Walk {
    pub nodes: Vec<Node>,
    pub origins: Vec<Origin>,
    pub words: Vec<Node>,
    pub copies: Vec<Node>,
    pub now: Vec<Node>,
    pub earlier: Vec<Origin>,
    pub roots: Vec<Origin>,
}

/// A walk that stands before the first cycle.
pub(crate) fn new_walk(
    alloc: Global,
    graph: &Graph,
    setup: &Setup,
    cycles: u32,
) -> Result<Walk, NoMemory>
    requires bound { IsBoundTo graph.now.flat setup.now }
    requires few { graph.now.flat.bits * cycles ≤ 4000000 }
    requires some { 0 < cycles }
    ensures sized { IfOk result (IsSized graph.now cycles) }
    ensures done { IfOk result (λ walk. (run : RootedRun) → IsDone graph.now setup.now run 0 walk) }
{
    let bits = graph.bits() as usize;
    let count = bits * cycles as usize;
    Ok(Walk {
        nodes: vec![in alloc; Node::Nothing; count]?,
        origins: vec![in alloc; Origin::Nothing; count]?,
        words: start_words(alloc, &setup.table, setup.words.as_slice())?,
        copies: vec![in alloc; Node::Nothing; bits]?,
        now: vec![in alloc; Node::Nothing; bits]?,
        earlier: vec![in alloc; Origin::Nothing; bits]?,
        roots: vec![in alloc; Origin::Nothing; bits]?,
    })
}

/// Adds the nodes and roots of a cycle.
pub(crate) fn add_cycle(at: &Moment<'_>, walk: &mut Walk)
    requires built { IsBuilt at.now.graph.now }
    requires bound { IsBoundTo at.now.graph.now.flat at.now.setup.now }
    requires few { HasFewNodes at.now }
    requires before { length at.now.before.now ≡ bits_in at.now }
    requires inside { HasNoOutside at.now.setup.now (row_before at.now) }
    requires room { HasRoom at.now.graph.now at.now.cycle walk.old }
    ensures sized { KeepsSizes at.now.graph.now walk.old walk.new }
    ensures done { HasCycle at.now walk.old walk.new }
{
    write_all_leaves(
        at,
        walk.copies.as_mut_slice(),
        walk.words.as_mut_slice(),
        walk.now.as_mut_slice(),
    );
    walk.earlier
        .as_mut_slice()
        .copy_from_slice(walk.roots.as_slice());
    settle_row(
        at,
        walk.origins.as_slice(),
        walk.earlier.as_slice(),
        walk.now.as_mut_slice(),
        walk.roots.as_mut_slice(),
    );
    place_nodes(
        at.graph,
        at.cycle,
        walk.now.as_slice(),
        walk.nodes.as_mut_slice(),
    );
    place_roots(
        at.graph,
        at.cycle,
        walk.roots.as_slice(),
        walk.origins.as_mut_slice(),
    );
}

// Gives the leaves their roots, and then the cells their nodes and roots. `earlier` has the roots of the cycle before.
fn settle_row(
    at: &Moment<'_>,
    origins: &[Origin],
    earlier: &[Origin],
    now: &mut [Node],
    roots: &mut [Origin],
)
    requires now { length now.old ≡ bits_in at.now }
    requires roots { length roots.old ≡ bits_in at.now }
    requires few { HasFewNodes at.now }
    ensures kept { AgreeOnLeaves at.now.graph.now.flat (nodes_of now.new) (nodes_of now.old) }
    ensures settled { IsRowSettled at.now origins.now earlier.now now.old now.new roots.new }
{
    write_roots(origins, now, roots);
    settle(at, earlier, now, roots);
}

// Writes the nodes of the leaves, and stores what is written in the cycle before.
fn write_all_leaves(at: &Moment<'_>, copies: &mut [Node], words: &mut [Node], now: &mut [Node])
    requires built { IsBuilt at.now.graph.now }
    requires bound { IsBoundTo at.now.graph.now.flat at.now.setup.now }
    requires few { HasFewNodes at.now }
    requires before { length at.now.before.now ≡ bits_in at.now }
    requires inside { HasNoOutside at.now.setup.now (row_before at.now) }
    requires copies { length copies.old ≡ bits_in at.now }
    requires words { length words.old ≡ word_bits }
    requires now { length now.old ≡ bits_in at.now }
    ensures { HasLeaves at.now words.old words.new now.new }
{
    if at.cycle == 0 {
        return write_first_leaves(at, words, now);
    }
    write_copies(at.graph, at.cycle - 1, at.before, copies);
    let past = Past {
        parts: at.before,
        copies,
    };
    write_next_leaves(at, past, words, now);
    store(past, at.setup.memories.as_slice(), words);
}

// In the first cycle a leaf has its start.
fn write_first_leaves(at: &Moment<'_>, words: &[Node], now: &mut [Node])
    requires built { IsBuilt at.now.graph.now }
    requires bound { IsBoundTo at.now.graph.now.flat at.now.setup.now }
    requires few { bits_in at.now ≤ 4000000 }
    requires words { length words.now ≡ word_bits }
    requires now { length now.old ≡ bits_in at.now }
    ensures { HasFirstLeaves at.now words.now now.new }
{
    let setup = at.setup;
    clear(now);
    write_inputs(setup.inputs.as_slice(), &setup.table, 0, now);
    write_words(setup.leaves.as_slice(), words, now);
    write_starts(at.graph, setup.starts.as_slice(), &setup.table, now);
}

// In a later cycle a leaf is a copy of its source.
fn write_next_leaves(at: &Moment<'_>, past: Past<'_>, words: &[Node], now: &mut [Node])
    requires built { IsBuilt at.now.graph.now }
    requires bound { IsBoundTo at.now.graph.now.flat at.now.setup.now }
    requires few { HasFewNodes at.now }
    requires inside { HasNoOutside at.now.setup.now (row_of past.parts.now) }
    requires words { length words.now ≡ word_bits }
    requires now { length now.old ≡ bits_in at.now }
    ensures { HasNextLeaves at.now past.entry words.now now.new }
{
    let setup = at.setup;
    let memories = setup.memories.as_slice();
    clear(now);
    write_echoes(setup.echoes.as_slice(), past.copies, now);
    write_answers(memories, past, words, now);
    write_inputs(setup.inputs.as_slice(), &setup.table, at.cycle, now);
    write_leaves(setup.leaves.as_slice(), memories, past, now);
    write_flops(at.graph, past.copies, now);
}
