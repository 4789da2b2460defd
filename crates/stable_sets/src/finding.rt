ghost use Rattle.std.specs.Prelude.{◌≡◌, ◌↔◌, ◌<◌, ℕ, length, Contains, IsTrue, IfOk};
ghost use Rattle.coco_base.specs.declared.finding.Probe.{Probe};
ghost use Rattle.coco_base.specs.LabelSets.{has};
ghost use Rattle.coco_model.specs.Labels.{IsLabelTable};
ghost use Rattle.coco_model.specs.UnrolledRuns.{index_of, IsUnrolledValue};
ghost use Rattle.coco_model.specs.WrittenFindings.{IsLeakingSet, set_of_nodes};
ghost use Rattle.stable_sets.specs.Chosen.{AreAllowed, sets_in};
ghost use Rattle.stable_sets.specs.Reached.{AreRows, TellsCalmFinding, TellsFinding};
ghost use Rattle.stable_sets.specs.Shown.{AreSameLabels, HasLeakingSet, IsInside};

use crate::choice::allowed;
use crate::order::are_listed;
use crate::pairs::{Look, are_seen, index};
use crate::sets::follow;
use crate::whole::is_whole;
use calm_reach::CalmRow;
use coco_base::{Finding, LabelSet, LabelTable, List, NoMemory, Probe, Unrolled};
use gate_graph::Graph;
use std::alloc::Global;

/// The calm rows of a run, one for each cycle.
pub type Rows = List<CalmRow>;

/// Whether a value is a finding of an order, from 1 to 64, where a probe lasts a window of cycles, cut at the end of
/// the run: at least one and at most as many probes as the order, unknown pairs of leaf and cycle that they show, both
/// in ascending order, and a selection by which the pairs' set is the finding's and shows a leak. A window is at least
/// 1 cycle; with one of 0 nothing is shown, and no value is a finding. The only error is want of memory.
pub fn is_bad(
    alloc: Global,
    graph: &Graph,
    unrolled: &Unrolled,
    rows: &Rows,
    clock: Option<u32>,
    order: u32,
    window: u32,
    finding: &Finding,
) -> Result<bool, NoMemory>
    requires unrolled { IsUnrolledValue unrolled.now }
    requires bits { unrolled.now.bits ≡ graph.now.flat.bits }
    requires rows { AreRows graph.now.flat unrolled.now.cycles rows.now }
    ensures finding { IfOk result (TellsFinding graph.now.flat unrolled.now rows.now clock window order finding.now) }
    ensures calm { IfOk result (TellsCalmFinding graph.now.flat unrolled.now rows.now clock window order finding.now) }
{
    let look = Look {
        graph,
        unrolled,
        rows: rows.as_slice(),
        window,
    };
    if !are_listed(unrolled, clock, order, finding) {
        return Ok(false);
    }
    if !allowed(unrolled, &finding.selection) {
        return Ok(false);
    }
    if !are_seen(
        alloc,
        &look,
        finding.probes.as_slice(),
        finding.seen.as_slice(),
    )? {
        return Ok(false);
    }
    leaks(alloc, unrolled, finding)
}

// whether the set of a finding is the one that its pairs have by its selection, and shows a leak
fn leaks(alloc: Global, unrolled: &Unrolled, finding: &Finding) -> Result<bool, NoMemory>
    requires unrolled { IsUnrolledValue unrolled.now }
    requires allowed { AreAllowed unrolled.now.nodes finding.now.selection.choices }
    requires inside { (p : Probe) → Contains finding.now.seen p → IsInside unrolled.now p }
    ensures { IfOk result (λ b. IsTrue b ↔ HasLeakingSet unrolled.now finding.now) }
{
    let sets = follow(alloc, unrolled, &finding.selection)?;
    let set = set_of(alloc, unrolled, sets.as_slice(), finding.seen.as_slice())?;
    shows_leak(alloc, &unrolled.table, &set, &finding.set)
}

// whether a set is the one given, and shows a leak
fn shows_leak(
    alloc: Global,
    table: &LabelTable,
    set: &LabelSet,
    given: &LabelSet,
) -> Result<bool, NoMemory>
    requires { IsLabelTable table.now }
    ensures { IfOk result (λ b. IsTrue b ↔ (AreSameLabels set.now given.now × IsLeakingSet table.now (has set.now))) }
{
    if !are_same(alloc, set, given)? {
        return Ok(false);
    }
    Ok(is_leaking(table, set))
}

fn are_same(alloc: Global, set: &LabelSet, other: &LabelSet) -> Result<bool, NoMemory>
    ensures { IfOk result (λ b. IsTrue b ↔ AreSameLabels set.now other.now) }
{
    let difference = set.xor(alloc, other)?;
    Ok(difference.is_empty())
}

// the symmetric difference of the sets of the nodes of pairs
fn set_of(
    alloc: Global,
    unrolled: &Unrolled,
    sets: &[LabelSet],
    pairs: &[Probe],
) -> Result<LabelSet, NoMemory>
    requires unrolled { IsUnrolledValue unrolled.now }
    requires sets { length sets.now ≡ length unrolled.now.nodes }
    requires inside { (p : Probe) → Contains pairs.now p → IsInside unrolled.now p }
    ensures { IfOk result (λ s. (l : ℕ)
        → has s l ≡ set_of_nodes (index_of unrolled.now) (sets_in sets.now) pairs.now l) }
{
    let mut set = LabelSet::empty(alloc);
    'pairs: for place in 0..pairs.len() {
        set = set.xor(alloc, &sets[index(unrolled, pairs[place])])?;
    }
    Ok(set)
}

fn is_leaking(table: &LabelTable, set: &LabelSet) -> bool
    requires { IsLabelTable table.now }
    ensures { IsTrue result ↔ IsLeakingSet table.now (has set.now) }
{
    !set.is_empty() && is_whole(table, set)
}
