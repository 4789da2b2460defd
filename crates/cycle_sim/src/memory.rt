// The words of the memory, bit by bit: those of the first region by address, then those of the second.
ghost use Rattle.std.specs.Prelude.{false, ◌≡◌, ℕ, ◌+◌, ◌*◌, ◌/◌, ◌<◌, ◌≤◌, [], ◌∷◌, length, get_or, Contains, IfOk, MatchOption};
ghost use Rattle.coco_base.specs.declared.labels.LabelTable.{LabelTable};
ghost use Rattle.coco_base.specs.declared.setup.WordPlan.{WordPlan};
ghost use Rattle.coco_base.specs.declared.setup.MemPlan.{MemPlan};
ghost use Rattle.coco_model.specs.Carried.{is_read, is_write, start_word};
ghost use Rattle.coco_model.specs.Controls.{IsInRegion};
ghost use Rattle.coco_model.specs.Known.{ones, parts};
ghost use Rattle.coco_model.specs.Setups.{IsMemoryWord};
ghost use Rattle.coco_model.specs.Stepped.{row_of};
ghost use Rattle.cycle_sim.specs.Memories.{AreStored, HoldsWords, IsPlaced, IsWordPlaced, plan_part, port_part, word_bits, word_place};

use crate::parts::{number_on, start_part, wire_at, wire_is_one, wire_or_off, wire_part};
use coco_base::{MemPlan, NoMemory, Part, Start, WordPlan};
use std::alloc::Global;

const WORD: usize = 32;

const BYTE: usize = 8;

const BITS: usize = 163_840;

const TEXT_END: u32 = 0x4000;

const DATA_START: u32 = 0x1_0000;

const DATA_END: u32 = 0x1_1000;

/// The place of the first bit of the word at an address, or none outside the regions.
pub(crate) fn word_place(address: u32) -> Option<usize>
    ensures region { MatchOption result (IsInRegion address → ⊥) (λ p. IsInRegion address) }
    ensures place { MatchOption result (Unit {0}) (λ p. p ≡ word_place address) }
    ensures inside { MatchOption result (Unit {0}) (λ p. p + 32 ≤ word_bits) }
{
    if address < TEXT_END {
        return Some(WORD * (address / 4) as usize);
    }
    if address < DATA_START || address >= DATA_END {
        return None;
    }
    Some(WORD * ((TEXT_END + (address - DATA_START)) / 4) as usize)
}

/// A port reads: its request is 1 and its write is not.
pub(crate) fn is_read(row: &[Part], mem: &MemPlan) -> bool
    ensures { result ≡ is_read (ones (row_of row.now)) mem.now }
{
    wire_is_one(row, mem.request) && !wire_is_one(row, wire_or_off(mem.write))
}

fn is_write(row: &[Part], mem: &MemPlan) -> bool
    ensures { result ≡ is_write (ones (row_of row.now)) mem.now }
{
    wire_is_one(row, mem.request) && wire_is_one(row, wire_or_off(mem.write))
}

/// What is known of the memory before the first cycle.
pub(crate) fn start_words(alloc: Global, words: &[WordPlan]) -> Result<Vec<Part>, NoMemory>
    requires { (w : WordPlan) → Contains words.now w → IsMemoryWord w }
    ensures { IfOk result (λ m. (table : LabelTable) → HoldsWords m.items (start_word parts table words.now)) }
{
    let mut memory = vec![in alloc; Part::Zero; BITS]?;
    let mut rest = words.len();
    'words: while rest > 0 {
        rest -= 1;
        place_word(&words[rest], memory.as_mut_slice());
    }
    Ok(memory)
}

fn place_word(word: &WordPlan, memory: &mut [Part])
    requires word { IsMemoryWord word.now }
    requires memory { length memory.old ≡ word_bits }
    ensures { IsWordPlaced word.now memory.old memory.new }
{
    match word_place(word.address) {
        Some(place) => place_parts(word.bits.as_slice(), place, memory),
        None => {}
    }
}

fn place_parts(bits: &[Start], place: usize, memory: &mut [Part])
    requires bits { length bits.now ≡ 32 }
    requires inside { place + 32 ≤ length memory.old }
    ensures { (table : LabelTable) → IsPlaced place 32 (plan_part table bits.now) memory.old memory.new }
{
    'bits: for bit in 0..WORD {
        memory[place + bit] = start_part(bits[bit]);
    }
}

/// Stores what the ports of the memory write in a cycle, of which `row` is known.
pub(crate) fn store(row: &[Part], memories: &[MemPlan], memory: &mut [Part])
    requires addresses { (m : MemPlan) → Contains memories.now m → length m.address ≤ 32 }
    requires memory { length memory.old ≡ word_bits }
    ensures { AreStored (row_of row.now) memories.now memory.old memory.new }
{
    let mut rest = memories.len();
    'ports: while rest > 0 {
        rest -= 1;
        store_word(row, &memories[rest], memory);
    }
}

fn store_word(row: &[Part], mem: &MemPlan, memory: &mut [Part])
    requires address { length mem.now.address ≤ 32 }
    requires memory { length memory.old ≡ word_bits }
    ensures { AreStored (row_of row.now) (mem.now ∷ []) memory.old memory.new }
{
    if !is_write(row, mem) {
        return;
    }
    match word_place(number_on(row, mem.address.as_slice())) {
        Some(place) => place_bytes(row, mem, place, memory),
        None => {}
    }
}

// Writes the bytes of the value whose enables are 1.
fn place_bytes(row: &[Part], mem: &MemPlan, place: usize, memory: &mut [Part])
    requires { place + 32 ≤ length memory.old }
    ensures { IsPlaced place 32 (port_part (row_of row.now) mem.now place memory.old) memory.old memory.new }
{
    let enables = mem.enables.as_slice();
    let value = mem.value.as_slice();
    'bits: for bit in 0..WORD {
        if wire_is_one(row, wire_at(enables, bit / BYTE)) {
            memory[place + bit] = wire_part(row, wire_at(value, bit));
        }
    }
}
