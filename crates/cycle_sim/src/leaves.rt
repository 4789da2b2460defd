// What the leaves of a cycle are known to have, written bit by bit.
ghost use Rattle.std.specs.Prelude.{◌≡◌, ℕ, ◌+◌, ◌<◌, ◌≤◌, map, length, Contains};
ghost use Rattle.coco_base.specs.declared.labels.LabelTable.{LabelTable};
ghost use Rattle.coco_base.specs.declared.setup.EchoPlan.{EchoPlan};
ghost use Rattle.coco_base.specs.declared.setup.InputPlan.{InputPlan};
ghost use Rattle.coco_base.specs.declared.setup.LeafPlan.{LeafPlan};
ghost use Rattle.coco_base.specs.declared.setup.MemPlan.{MemPlan};
ghost use Rattle.coco_base.specs.declared.cell.Part.TheVariants.{Zero};
ghost use Rattle.coco_model.specs.Carried.{entry_of};
ghost use Rattle.coco_model.specs.Stepped.{row_of};
ghost use Rattle.cycle_sim.specs.Memories.{word_bits};
ghost use Rattle.cycle_sim.specs.Writes.{IsWritten, AreBitsBelow, IsAnswerPort, IsLeafWord, bit_writes, input_write, echo_write, flop_write, writes_of_answer, writes_of_answers, writes_of_leaves, writes_of_starts};

use crate::memory::{is_read, word_place};
use crate::parts::{bit_part, number_on, start_part, wire_part};
use coco_base::{EchoPlan, InputPlan, LeafPlan, MemPlan, Part, Start};
use gate_graph::Graph;

/// Makes all bits 0.
pub(crate) fn clear(row: &mut [Part])
    ensures { (b : ℕ) → row_of row.new b ≡ Zero }
{
    'bits: for part in row.iter_mut() {
        *part = Part::Zero;
    }
}

fn entry_of(values: &[Start], cycle: u32) -> Start
    ensures { result ≡ entry_of values.now cycle }
{
    let last = values.len().saturating_sub(1);
    let place = last.min(cycle as usize);
    values.get(place).copied().unwrap_or(Start::Public(false))
}

/// Writes the entries of a cycle at the inputs.
pub(crate) fn write_inputs(inputs: &[InputPlan], cycle: u32, row: &mut [Part])
    requires { (p : InputPlan) → Contains inputs.now p → p.bit < length row.old }
    ensures { (table : LabelTable) → IsWritten (map (input_write table cycle) inputs.now) row.old row.new }
{
    'plans: for plan in inputs {
        row[plan.bit as usize] = start_part(entry_of(plan.values.as_slice(), cycle));
    }
}

/// Writes at the echoes what their sources had.
pub(crate) fn write_echoes(echoes: &[EchoPlan], before: &[Part], row: &mut [Part])
    requires { (e : EchoPlan) → Contains echoes.now e → e.bit < length row.old }
    ensures { IsWritten (map (echo_write (row_of before.now)) echoes.now) row.old row.new }
{
    'plans: for plan in echoes {
        row[plan.bit as usize] = wire_part(before, plan.source);
    }
}

/// Writes at the memory's answers the words that were read; an answer that was not asked for stays.
pub(crate) fn write_answers(
    memories: &[MemPlan],
    before: &[Part],
    memory: &[Part],
    row: &mut [Part],
)
    requires ports { (m : MemPlan) → Contains memories.now m → IsAnswerPort (length row.old) (row_of before.now) m }
    requires words { length memory.now ≡ word_bits }
    ensures { IsWritten (writes_of_answers (row_of before.now) memory.now memories.now) row.old row.new }
{
    'ports: for mem in memories {
        write_answer(mem, before, memory, row);
    }
}

fn write_answer(mem: &MemPlan, before: &[Part], memory: &[Part], row: &mut [Part])
    requires port { IsAnswerPort (length row.old) (row_of before.now) mem.now }
    requires words { length memory.now ≡ word_bits }
    ensures { IsWritten (writes_of_answer (row_of before.now) memory.now mem.now) row.old row.new }
{
    let answer = mem.answer.as_slice();
    if !is_read(before, mem) {
        return keep(answer, before, row);
    }
    match word_place(number_on(before, mem.address.as_slice())) {
        Some(place) => write_word(answer, place, memory, row),
        None => {}
    }
}

// Writes at bits what they had.
fn keep(bits: &[u32], before: &[Part], row: &mut [Part])
    requires { AreBitsBelow (length row.old) bits.now }
    ensures { IsWritten (bit_writes (λ k b. row_of before.now b) 0 bits.now) row.old row.new }
{
    'bits: for place in 0..bits.len() {
        let bit = bits[place];
        row[bit as usize] = bit_part(before, bit);
    }
}

// Writes at bits the word that starts at a place.
fn write_word(bits: &[u32], start: usize, memory: &[Part], row: &mut [Part])
    requires bits { AreBitsBelow (length row.old) bits.now }
    requires word { start + length bits.now ≤ length memory.now }
    ensures { IsWritten (bit_writes (λ k b. row_of memory.now (start + k)) 0 bits.now) row.old row.new }
{
    'bits: for place in 0..bits.len() {
        let bit = bits[place] as usize;
        row[bit] = memory[start + place];
    }
}

/// Writes at the bits of the words that are leaves what the words hold.
pub(crate) fn write_leaves(leaves: &[LeafPlan], memory: &[Part], row: &mut [Part])
    requires leaves { (l : LeafPlan) → Contains leaves.now l → IsLeafWord (length row.old) l }
    requires words { length memory.now ≡ word_bits }
    ensures { IsWritten (writes_of_leaves memory.now leaves.now) row.old row.new }
{
    'leaves: for leaf in leaves {
        match word_place(leaf.address) {
            Some(place) => write_word(leaf.bits.as_slice(), place, memory, row),
            None => {}
        }
    }
}

/// Writes at the flops what their next wires had.
pub(crate) fn write_flops(graph: &Graph, before: &[Part], row: &mut [Part])
    requires { length row.old ≡ graph.now.flat.bits }
    ensures { IsWritten (map (flop_write (row_of before.now)) graph.now.flat.flops) row.old row.new }
{
    'flops: for number in 0..graph.flops() {
        let flop = graph.flop(number);
        row[flop.output as usize] = wire_part(before, flop.next);
    }
}

/// Writes at the flops what they start with.
pub(crate) fn write_starts(graph: &Graph, starts: &[Start], row: &mut [Part])
    requires row { length row.old ≡ graph.now.flat.bits }
    requires starts { length starts.now ≡ graph.now.flat.bits }
    ensures { (t : LabelTable) → IsWritten (writes_of_starts t starts.now graph.now.flat.flops) row.old row.new }
{
    'flops: for number in 0..graph.flops() {
        let bit = graph.flop(number).output as usize;
        row[bit] = start_part(starts[bit]);
    }
}
