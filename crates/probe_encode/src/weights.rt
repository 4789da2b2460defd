// Which nodes the chosen pairs have.
ghost use Rattle.std.specs.Prelude.{◌≡◌, ◌<◌, length, IfOk};
ghost use Rattle.probe_clauses.specs.Probings.{probing_of, all_bits};
ghost use Rattle.probe_clauses.specs.Rows.{at};
ghost use Rattle.probe_encode.specs.Weights.{with_bits, pair_weights};
ghost use Rattle.probe_encode.specs.Sources.{IsGood};

use crate::source::{Source, node_of};
use circuit_clauses::{FALSE, Signal};
use clause_builds::signal_at;
use coco_base::{List, NoMemory};
use std::alloc::Global;

/// By node: whether the pair of the node is chosen; false where it has no pair.
pub(crate) fn pair_weights(
    alloc: Global,
    source: &Source<'_>,
    pairs: &[List<Signal>],
) -> Result<Vec<Signal>, NoMemory>
    requires { IsGood source.now }
    ensures weights { IfOk result (λ w. w.items ≡ pair_weights source.now.run pairs.now) }
    ensures as_long { IfOk result (λ w. length w.items ≡ length source.now.run.nodes) }
{
    let mut weights = vec![in alloc; FALSE; source.unrolled.nodes.len()]?;
    'cycles: for cycle in 0..source.unrolled.cycles {
        set_cycle(source, cycle, pairs, weights.as_mut_slice());
    }
    Ok(weights)
}

// The nodes of the bits in a cycle have the signals of the pairs of these bits.
fn set_cycle(source: &Source<'_>, cycle: u32, pairs: &[List<Signal>], weights: &mut [Signal])
    requires source { IsGood source.now }
    requires cycle { cycle < length source.now.run.rows }
    requires as_long { length weights.old ≡ length source.now.run.nodes }
    ensures weights { weights.new
        ≡ with_bits source.now.run pairs.now cycle (all_bits (probing_of source.now.run)) weights.old }
    ensures as_long { length weights.new ≡ length weights.old }
{
    'bits: for bit in 0..source.unrolled.bits {
        weights[node_of(source, cycle, bit) as usize] = at(pairs, cycle as usize, bit as usize);
    }
}

fn at(rows: &[List<Signal>], row: usize, place: usize) -> Signal
    ensures { result ≡ at rows.now row place }
{
    match rows.get(row) {
        Some(row) => signal_at(row.as_slice(), place),
        None => FALSE,
    }
}
