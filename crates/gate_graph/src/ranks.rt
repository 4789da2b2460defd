// The ranks of bits, and the cells in their order.
ghost use Rattle.std.specs.Prelude.{◌≡◌, ◌<◌, ◌^◌, length, get_or, replicate, IfOk};
ghost use Rattle.gate_graph.specs.Drivers.{IsWired};
ghost use Rattle.gate_graph.specs.Ranks.{IsRankOrder};
ghost use Rattle.gate_graph.specs.Standings.{AreByRank, ArePlaces, IsArrangement};

use crate::driver::Driver;
use coco_base::{Flat, NoMemory};
use std::alloc::Global;

/// All bits by level, and in one level by number.
pub(crate) fn by_rank(alloc: Global, levels: &[u32]) -> Result<Vec<u32>, NoMemory>
    requires { length levels.now < 2 ^ 32 }
    ensures { IfOk result (λ bits. AreByRank levels.now bits.items) }
{
    let mut bits = Vec::new(alloc);
    'bits: for bit in 0..levels.len() {
        bits.push(bit as u32)?;
    }
    bits.sort_by_key(
        |bit: &u32| -> u32
            ensures { result ≡ get_or levels.entry.now bit.now 0 }
        { level_at(levels, *bit) },
    )?;
    Ok(bits)
}

fn level_at(levels: &[u32], bit: u32) -> u32
    ensures { result ≡ get_or levels.now bit 0 }
{
    levels.get(bit as usize).copied().unwrap_or(0)
}

/// For each bit its place among bits.
pub(crate) fn ranks_of(alloc: Global, bits: &[u32]) -> Result<Vec<u32>, NoMemory>
    requires few { length bits.now < 2 ^ 32 }
    requires arranged { IsArrangement bits.now }
    ensures { IfOk result (λ ranks. ArePlaces bits.now ranks.items) }
{
    let mut ranks = zeros(alloc, bits.len())?;
    'places: for place in 0..bits.len() {
        ranks[bits[place] as usize] = place as u32;
    }
    Ok(ranks)
}

fn zeros(alloc: Global, count: usize) -> Result<Vec<u32>, NoMemory>
    ensures { IfOk result (λ numbers. numbers.items ≡ replicate count 0) }
{
    Ok(vec![in alloc; 0; count]?)
}

/// The numbers of all cells, by the ranks of their outputs.
pub(crate) fn order_of(
    alloc: Global,
    flat: &Flat,
    drivers: &[Driver],
    bits: &[u32],
    ranks: &[u32],
) -> Result<Vec<u32>, NoMemory>
    requires wired { IsWired flat.now drivers.now }
    requires arranged { IsArrangement bits.now }
    requires places { ArePlaces bits.now ranks.now }
    requires as_long { length bits.now ≡ flat.now.bits }
    ensures { IfOk result (λ order. IsRankOrder flat.now ranks.now order.items) }
{
    let mut order = Vec::new(alloc);
    'places: for place in 0..bits.len() {
        if let Driver::Cell(cell) = drivers[bits[place] as usize] {
            order.push(cell)?;
        }
    }
    Ok(order)
}
