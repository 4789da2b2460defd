// The nodes of the leaves of a cycle, written bit by bit.
ghost use Rattle.std.specs.Prelude.{◌≡◌, ℕ, suc, ◌+◌, ◌<◌, ◌≤◌, ◌^◌, false, map, length, get_or, Contains};
ghost use Rattle.coco_base.specs.declared.netlist.FlatFlop.{FlatFlop};
ghost use Rattle.coco_base.specs.declared.setup.EchoPlan.{EchoPlan};
ghost use Rattle.coco_base.specs.declared.setup.InputPlan.{InputPlan};
ghost use Rattle.coco_base.specs.declared.setup.LeafPlan.{LeafPlan};
ghost use Rattle.coco_base.specs.declared.setup.MemPlan.{MemPlan};
ghost use Rattle.coco_base.specs.declared.setup.Start.TheVariants.{Public};
ghost use Rattle.coco_base.specs.declared.unrolled.Node.TheVariants.{Nothing};
ghost use Rattle.coco_model.specs.Carried.{entry_of, IsLabelled};
ghost use Rattle.coco_model.specs.Known.{ones};
ghost use Rattle.coco_model.specs.Labels.{label_count};
ghost use Rattle.coco_model.specs.Stepped.{row_of};
ghost use Rattle.cycle_sim.specs.Memories.{word_bits};
ghost use Rattle.cycle_sim.specs.Writes.{AreBitsBelow, IsAnswerPort, IsLeafWord};
ghost use Rattle.unroll.specs.NodeRows.{nodes_of, copies};
ghost use Rattle.unroll.specs.NodeWrites.{IsWritten, bit_writes, input_write, echo_write, flop_write, AreFlopsLabelled, writes_of_words, writes_of_starts};
ghost use Rattle.unroll.specs.Moments.{answer_writes, answers_writes, leaf_writes, leaves_writes};

use crate::memory::{Past, is_read, stored_node, word_place};
use crate::parts::{node_at, number_on, wire_node};
use crate::starts::{entry_of, start_node};
use coco_base::{EchoPlan, InputPlan, LabelTable, LeafPlan, MemPlan, Node, Start};
use gate_graph::Graph;

/// Makes all nodes nothing.
pub(crate) fn clear(row: &mut [Node])
    ensures { (b : ℕ) → nodes_of row.new b ≡ Nothing }
{
    'bits: for node in row.iter_mut() {
        *node = Node::Nothing;
    }
}

/// Writes the entries of a cycle at the inputs.
pub(crate) fn write_inputs(inputs: &[InputPlan], table: &LabelTable, cycle: u32, row: &mut [Node])
    requires bits { (p : InputPlan) → Contains inputs.now p → p.bit < length row.old }
    requires labelled { (p : InputPlan) → Contains inputs.now p → IsLabelled table.now (entry_of p.values cycle) }
    requires few { label_count table.now (suc cycle) < 2 ^ 32 }
    ensures { IsWritten (map (input_write table.now cycle) inputs.now) row.old row.new }
{
    'plans: for plan in inputs {
        row[plan.bit as usize] = start_node(table, cycle, entry_of(plan.values.as_slice(), cycle));
    }
}

/// Writes at the echoes copies of their sources.
pub(crate) fn write_echoes(echoes: &[EchoPlan], copies: &[Node], row: &mut [Node])
    requires { (e : EchoPlan) → Contains echoes.now e → e.bit < length row.old }
    ensures { IsWritten (map (echo_write (nodes_of copies.now)) echoes.now) row.old row.new }
{
    'plans: for plan in echoes {
        row[plan.bit as usize] = wire_node(copies, plan.source);
    }
}

/// Writes at the memory's answers the nodes of the words that were read; an answer that was not asked for is a copy of
/// itself.
pub(crate) fn write_answers(memories: &[MemPlan], past: Past<'_>, memory: &[Node], row: &mut [Node])
    requires ports { (m : MemPlan) → Contains memories.now m → IsAnswerPort (length row.old) (row_of past.parts.now) m }
    requires words { length memory.now ≡ word_bits }
    ensures { IsWritten (answers_writes past.entry memory.now memories.now) row.old row.new }
{
    'ports: for mem in memories {
        write_answer(mem, past, memory, row);
    }
}

fn write_answer(mem: &MemPlan, past: Past<'_>, memory: &[Node], row: &mut [Node])
    requires port { IsAnswerPort (length row.old) (row_of past.parts.now) mem.now }
    requires words { length memory.now ≡ word_bits }
    ensures { IsWritten (answer_writes past.entry memory.now mem.now) row.old row.new }
{
    let answer = mem.answer.as_slice();
    if !is_read(past.parts, mem) {
        return keep(answer, past.copies, row);
    }
    match word_place(number_on(past.parts, mem.address.as_slice())) {
        Some(place) => write_word(answer, place, memory, row),
        None => {}
    }
}

// Writes at bits copies of themselves.
fn keep(bits: &[u32], copies: &[Node], row: &mut [Node])
    requires { AreBitsBelow (length row.old) bits.now }
    ensures { IsWritten (bit_writes (λ k b. nodes_of copies.now b) 0 bits.now) row.old row.new }
{
    'bits: for place in 0..bits.len() {
        let bit = bits[place];
        row[bit as usize] = node_at(copies, bit);
    }
}

// Writes at bits the word that starts at a place.
fn write_word(bits: &[u32], start: usize, memory: &[Node], row: &mut [Node])
    requires bits { AreBitsBelow (length row.old) bits.now }
    requires word { start + length bits.now ≤ length memory.now }
    ensures { IsWritten (bit_writes (λ k b. nodes_of memory.now (start + k)) 0 bits.now) row.old row.new }
{
    'bits: for place in 0..bits.len() {
        let bit = bits[place] as usize;
        row[bit] = memory[start + place];
    }
}

/// Writes at the bits of the words that are leaves the nodes that the words start with.
pub(crate) fn write_words(leaves: &[LeafPlan], memory: &[Node], row: &mut [Node])
    requires leaves { (l : LeafPlan) → Contains leaves.now l → IsLeafWord (length row.old) l }
    requires words { length memory.now ≡ word_bits }
    ensures { IsWritten (writes_of_words memory.now leaves.now) row.old row.new }
{
    'leaves: for leaf in leaves {
        match word_place(leaf.address) {
            Some(place) => write_word(leaf.bits.as_slice(), place, memory, row),
            None => {}
        }
    }
}

/// Writes at the bits of the words that are leaves copies of what was stored there, and else of themselves.
pub(crate) fn write_leaves(
    leaves: &[LeafPlan],
    memories: &[MemPlan],
    past: Past<'_>,
    row: &mut [Node],
)
    requires leaves { (l : LeafPlan) → Contains leaves.now l → IsLeafWord (length row.old) l }
    requires addresses { (m : MemPlan) → Contains memories.now m → length m.address ≤ 32 }
    ensures { IsWritten (leaves_writes past.entry memories.now leaves.now) row.old row.new }
{
    'leaves: for leaf in leaves {
        write_leaf(leaf, memories, past, row);
    }
}

fn write_leaf(leaf: &LeafPlan, memories: &[MemPlan], past: Past<'_>, row: &mut [Node])
    requires leaf { IsLeafWord (length row.old) leaf.now }
    requires addresses { (m : MemPlan) → Contains memories.now m → length m.address ≤ 32 }
    ensures { IsWritten (leaf_writes past.entry memories.now leaf.now) row.old row.new }
{
    let bits = leaf.bits.as_slice();
    'bits: for place in 0..bits.len() {
        let bit = bits[place];
        let kept = node_at(past.copies, bit);
        row[bit as usize] = stored_node(past, memories, leaf.address, place, kept);
    }
}

/// Writes at the flops copies of their next wires.
pub(crate) fn write_flops(graph: &Graph, copies: &[Node], row: &mut [Node])
    requires { length row.old ≡ graph.now.flat.bits }
    ensures { IsWritten (map (flop_write (nodes_of copies.now)) graph.now.flat.flops) row.old row.new }
{
    'flops: for number in 0..graph.flops() {
        let flop = graph.flop(number);
        row[flop.output as usize] = wire_node(copies, flop.next);
    }
}

/// Writes at the flops what they start with.
pub(crate) fn write_starts(graph: &Graph, starts: &[Start], table: &LabelTable, row: &mut [Node])
    requires row { length row.old ≡ graph.now.flat.bits }
    requires starts { length starts.now ≡ graph.now.flat.bits }
    requires labelled { AreFlopsLabelled table.now starts.now graph.now.flat.flops }
    requires few { label_count table.now 1 < 2 ^ 32 }
    ensures { IsWritten (writes_of_starts table.now starts.now graph.now.flat.flops) row.old row.new }
{
    'flops: for number in 0..graph.flops() {
        let bit = graph.flop(number).output as usize;
        row[bit] = start_node(table, 0, starts[bit]);
    }
}
