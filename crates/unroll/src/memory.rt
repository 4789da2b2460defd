// The memory's words as one list of the nodes of their bits: those of the first region by address, then those of the
// second.
ghost use Rattle.std.specs.Prelude.{false, ◌≡◌, ℕ, ◌+◌, ◌/◌, ◌<◌, ◌≤◌, ◌^◌, [], ◌∷◌, length, get_or, Contains, IfOk, MatchOption};
ghost use Rattle.coco_base.specs.declared.setup.Start.{Start};
ghost use Rattle.coco_base.specs.declared.setup.WordPlan.{WordPlan};
ghost use Rattle.coco_base.specs.declared.setup.MemPlan.{MemPlan};
ghost use Rattle.coco_model.specs.Carried.{is_read, is_write, stores, start_word, stored_word, word_address, IsLabelled};
ghost use Rattle.coco_model.specs.Controls.{IsInRegion};
ghost use Rattle.coco_model.specs.Known.{ones};
ghost use Rattle.coco_model.specs.Labels.{label_count};
ghost use Rattle.coco_model.specs.Nodes.{starting_nodes};
ghost use Rattle.coco_model.specs.Setups.{IsMemoryWord};
ghost use Rattle.coco_model.specs.Stepped.{row_of};
ghost use Rattle.cycle_sim.specs.Memories.{word_bits, word_place};
ghost use Rattle.unroll.specs.NodeWords.{AreStored, HoldsNodes, IsPlaced, IsPortPlaced, IsWordPlaced, AreLabelled, plan_node};
ghost use Rattle.unroll.specs.Moments.{copies_of, stored_by};

use crate::parts::{number_on, wire_at, wire_is_one, wire_node, wire_or_off};
use crate::starts::start_node;
use coco_base::{LabelTable, MemPlan, NoMemory, Node, Part, Start, WordPlan};
use std::alloc::Global;

const WORD: usize = 32;

const BYTE: usize = 8;

const BITS: usize = 163_840;

const TEXT_END: u32 = 0x4000;

const DATA_START: u32 = 0x1_0000;

const DATA_END: u32 = 0x1_1000;

/// The cycle before: what is known of its bits, and copies of their nodes.
#[derive(Clone, Copy)]
pub(crate) struct Past<'a> {
    pub parts: &'a [Part],
    pub copies: &'a [Node],
}

/// The place of the first bit of the word at an address, or none outside the regions.
pub(crate) fn word_place(address: u32) -> Option<usize>
    ensures region { MatchOption result (IsInRegion address → ⊥) (λ p. IsInRegion address) }
    ensures place { MatchOption result (Unit {0}) (λ p. p ≡ word_place address) }
    ensures inside { MatchOption result (Unit {0}) (λ p. p + 32 ≤ word_bits) }
{
    if address < TEXT_END {
        return Some(WORD * (address / 4) as usize);
    }
    if address < DATA_START || address >= DATA_END {
        return None;
    }
    Some(WORD * ((TEXT_END + (address - DATA_START)) / 4) as usize)
}

/// A port reads: its request is 1 and its write is not.
pub(crate) fn is_read(row: &[Part], mem: &MemPlan) -> bool
    ensures { result ≡ is_read (ones (row_of row.now)) mem.now }
{
    wire_is_one(row, mem.request) && !wire_is_one(row, wire_or_off(mem.write))
}

fn is_write(row: &[Part], mem: &MemPlan) -> bool
    ensures { result ≡ is_write (ones (row_of row.now)) mem.now }
{
    wire_is_one(row, mem.request) && wire_is_one(row, wire_or_off(mem.write))
}

/// The nodes of the memory's words before the first cycle.
pub(crate) fn start_words(
    alloc: Global,
    table: &LabelTable,
    words: &[WordPlan],
) -> Result<Vec<Node>, NoMemory>
    requires words { (w : WordPlan) → Contains words.now w → IsMemoryWord w }
    requires labelled { (w : WordPlan) → Contains words.now w → AreLabelled table.now w.bits }
    requires few { label_count table.now 1 < 2 ^ 32 }
    ensures { IfOk result (λ m. HoldsNodes m.items (start_word starting_nodes table.now words.now)) }
{
    let mut memory = vec![in alloc; Node::Nothing; BITS]?;
    let mut rest = words.len();
    'words: while rest > 0 {
        rest -= 1;
        place_word(table, &words[rest], memory.as_mut_slice());
    }
    Ok(memory)
}

fn place_word(table: &LabelTable, word: &WordPlan, memory: &mut [Node])
    requires word { IsMemoryWord word.now }
    requires labelled { AreLabelled table.now word.now.bits }
    requires few { label_count table.now 1 < 2 ^ 32 }
    requires memory { length memory.old ≡ word_bits }
    ensures { IsWordPlaced table.now word.now memory.old memory.new }
{
    match word_place(word.address) {
        Some(place) => place_starts(table, word.bits.as_slice(), place, memory),
        None => {}
    }
}

fn place_starts(table: &LabelTable, bits: &[Start], place: usize, memory: &mut [Node])
    requires bits { length bits.now ≡ 32 }
    requires labelled { AreLabelled table.now bits.now }
    requires few { label_count table.now 1 < 2 ^ 32 }
    requires inside { place + 32 ≤ length memory.old }
    ensures { IsPlaced place 32 (plan_node table.now bits.now) memory.old memory.new }
{
    'bits: for bit in 0..WORD {
        memory[place + bit] = start_node(table, 0, bits[bit]);
    }
}

/// Stores copies of what the ports of the memory write in a cycle.
pub(crate) fn store(past: Past<'_>, memories: &[MemPlan], memory: &mut [Node])
    requires addresses { (m : MemPlan) → Contains memories.now m → length m.address ≤ 32 }
    requires memory { length memory.old ≡ word_bits }
    ensures { AreStored (row_of past.entry.parts.now) (copies_of past.entry) memories.now memory.old memory.new }
{
    let mut rest = memories.len();
    'ports: while rest > 0 {
        rest -= 1;
        store_word(past, &memories[rest], memory);
    }
}

fn store_word(past: Past<'_>, mem: &MemPlan, memory: &mut [Node])
    requires address { length mem.now.address ≤ 32 }
    requires memory { length memory.old ≡ word_bits }
    ensures { AreStored (row_of past.entry.parts.now) (copies_of past.entry) (mem.now ∷ []) memory.old memory.new }
{
    if !is_write(past.parts, mem) {
        return;
    }
    match word_place(number_on(past.parts, mem.address.as_slice())) {
        Some(place) => place_bytes(past, mem, place, memory),
        None => {}
    }
}

// Writes copies of the bytes of the value whose enables are 1.
fn place_bytes(past: Past<'_>, mem: &MemPlan, place: usize, memory: &mut [Node])
    requires { place + 32 ≤ length memory.old }
    ensures { IsPortPlaced (row_of past.entry.parts.now) (copies_of past.entry) mem.now place memory.old memory.new }
{
    let enables = mem.enables.as_slice();
    let value = mem.value.as_slice();
    'bits: for bit in 0..WORD {
        if wire_is_one(past.parts, wire_at(enables, bit / BYTE)) {
            memory[place + bit] = wire_node(past.copies, wire_at(value, bit));
        }
    }
}

/// The node of a bit of a word that is a leaf, with the node `kept` where no port stores it.
pub(crate) fn stored_node(
    past: Past<'_>,
    memories: &[MemPlan],
    address: u32,
    place: usize,
    kept: Node,
) -> Node
    requires { (m : MemPlan) → Contains memories.now m → length m.address ≤ 32 }
    ensures { result ≡ stored_by past.entry memories.now address place kept }
{
    let mut node = kept;
    let mut rest = memories.len();
    'ports: while rest > 0 {
        rest -= 1;
        let mem = &memories[rest];
        if stores(past.parts, mem, address, place) {
            node = wire_node(past.copies, wire_at(mem.value.as_slice(), place));
        }
    }
    node
}

fn stores(row: &[Part], mem: &MemPlan, address: u32, place: usize) -> bool
    requires { length mem.now.address ≤ 32 }
    ensures { result ≡ stores (ones (row_of row.now)) mem.now address place }
{
    is_write(row, mem)
        && word_address(row, mem) == address
        && wire_is_one(row, wire_at(mem.enables.as_slice(), place / BYTE))
}

fn word_address(row: &[Part], mem: &MemPlan) -> u32
    requires { length mem.now.address ≤ 32 }
    ensures { result ≡ word_address (ones (row_of row.now)) mem.now }
{
    4 * (number_on(row, mem.address.as_slice()) / 4)
}
