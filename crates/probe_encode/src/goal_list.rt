// The clauses of the goal, as lists of signals.
ghost use Rattle.std.specs.Prelude.{◌≡◌, true, false, not, cond, map, filter, flat_map, [], ◌∷◌, ◌++◌, get_or, IfOk, OnOk};
ghost use Rattle.std.specs.List.Sorted.{IsStrictlyIncreasing};
ghost use Rattle.coco_model.specs.Goals.{is_among, is_share_of, same_pairs, goal_clauses};
ghost use Rattle.probe_encode.specs.Goals.{label_signal};

use crate::whole::variable_of;
use circuit_clauses::Signal;
use clause_builds::signal_at;
use coco_base::{List, NoMemory};
use std::alloc::Global;

/// The labels with variables, in ascending order, and these.
#[derive(Clone, Copy, Debug)]
pub struct Labelled<'a> {
    pub labels: &'a [u32],
    pub variables: &'a [Signal],
}

/// The clauses of the goal: no label but shares of whole secret bits is in the sum, of each of these bits all shares are
/// or none, and share 0 of one of them is.
pub(crate) fn goal_clauses(
    alloc: Global,
    labelled: &Labelled<'_>,
    bits: &[List<u32>],
) -> Result<List<List<Signal>>, NoMemory>
    requires { IsStrictlyIncreasing labelled.now.labels.now }
    ensures { IfOk result (λ all. all ≡ goal_clauses (label_signal labelled.now.variables.now labelled.now.labels.now)
        labelled.now.labels.now bits.now) }
{
    let mut all = List::new(alloc);
    add_others(alloc, labelled, bits, &mut all)?;
    'bits: for bit in bits {
        add_pairs(alloc, labelled, bit.as_slice(), &mut all)?;
    }
    let firsts = firsts(alloc, labelled, bits)?;
    all.push(firsts)?;
    Ok(all)
}

// That a label is in the sum, or that it is not.
fn signal(labelled: &Labelled<'_>, label: u32, positive: bool) -> Signal
    requires { IsStrictlyIncreasing labelled.now.labels.now }
    ensures { result ≡ label_signal labelled.now.variables.now labelled.now.labels.now label positive }
{
    let variable = signal_at(labelled.variables, variable_of(labelled.labels, label));
    if positive {
        variable
    } else {
        variable.negated()
    }
}

// No label that is no share of a whole secret bit is in the sum.
fn add_others(
    alloc: Global,
    labelled: &Labelled<'_>,
    bits: &[List<u32>],
    all: &mut List<List<Signal>>,
) -> Result<(), NoMemory>
    requires { IsStrictlyIncreasing labelled.now.labels.now }
    ensures { let literal = label_signal labelled.now.variables.now labelled.now.labels.now in
        OnOk result (all.new ≡ all.old ++ map (λ l. literal l false ∷ [])
        (filter (λ l. not (is_share_of bits.now l)) labelled.now.labels.now)) }
{
    'labels: for label in labelled.labels {
        add_other(alloc, labelled, bits, *label, all)?;
    }
    Ok(())
}

fn add_other(
    alloc: Global,
    labelled: &Labelled<'_>,
    bits: &[List<u32>],
    label: u32,
    all: &mut List<List<Signal>>,
) -> Result<(), NoMemory>
    requires { IsStrictlyIncreasing labelled.now.labels.now }
    ensures { let literal = label_signal labelled.now.variables.now labelled.now.labels.now in
        OnOk result (all.new ≡ all.old ++ cond (not (is_share_of bits.now label)) ((literal label false ∷ []) ∷ []) []) }
{
    if !is_share_of(bits, label) {
        add_clause(alloc, all, &[signal(labelled, label, false)])?;
    }
    Ok(())
}

fn add_clause(
    alloc: Global,
    all: &mut List<List<Signal>>,
    signals: &[Signal],
) -> Result<(), NoMemory>
    ensures { OnOk result (all.new ≡ all.old ++ signals.now ∷ []) }
{
    let clause = List::from_vec(Vec::from_slice(alloc, signals)?);
    all.push(clause)?;
    Ok(())
}

fn is_share_of(bits: &[List<u32>], label: u32) -> bool
    ensures { result ≡ is_share_of bits.now label }
{
    'bits: for bit in bits {
        if contains(bit.as_slice(), label) {
            return true;
        }
    }
    false
}

fn contains(labels: &[u32], label: u32) -> bool
    ensures { result ≡ is_among labels.now label }
{
    'labels: for other in labels {
        if label == *other {
            return true;
        }
    }
    false
}

// Of two successive shares both are in the sum, or none.
fn add_pairs(
    alloc: Global,
    labelled: &Labelled<'_>,
    bit: &[u32],
    all: &mut List<List<Signal>>,
) -> Result<(), NoMemory>
    requires { IsStrictlyIncreasing labelled.now.labels.now }
    ensures { OnOk result (all.new ≡ all.old ++ same_pairs (label_signal labelled.now.variables.now
        labelled.now.labels.now) bit.now) }
{
    if bit.is_empty() {
        return Ok(());
    }
    'shares: for share in 0..bit.len() - 1 {
        add_pair(alloc, labelled, bit[share], bit[share + 1], all)?;
    }
    Ok(())
}

fn add_pair(
    alloc: Global,
    labelled: &Labelled<'_>,
    one: u32,
    other: u32,
    all: &mut List<List<Signal>>,
) -> Result<(), NoMemory>
    requires { IsStrictlyIncreasing labelled.now.labels.now }
    ensures { let literal = label_signal labelled.now.variables.now labelled.now.labels.now in
        OnOk result (all.new ≡ all.old ++ (literal one false ∷ literal other true ∷ [])
        ∷ (literal one true ∷ literal other false ∷ []) ∷ []) }
{
    add_clause(
        alloc,
        all,
        &[signal(labelled, one, false), signal(labelled, other, true)],
    )?;
    add_clause(
        alloc,
        all,
        &[signal(labelled, one, true), signal(labelled, other, false)],
    )
}

// Share 0 of each bit.
fn firsts(
    alloc: Global,
    labelled: &Labelled<'_>,
    bits: &[List<u32>],
) -> Result<List<Signal>, NoMemory>
    requires { IsStrictlyIncreasing labelled.now.labels.now }
    ensures { let literal = label_signal labelled.now.variables.now labelled.now.labels.now in
        IfOk result (λ signals. signals ≡ map (λ ls. literal (get_or ls 0 0) true) bits.now) }
{
    let mut signals = List::new(alloc);
    'bits: for bit in bits {
        let first = bit.as_slice().first().copied().unwrap_or(0);
        signals.push(signal(labelled, first, true))?;
    }
    Ok(signals)
}
