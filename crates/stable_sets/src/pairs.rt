// Whether probes show pairs of leaf and cycle over their windows.
ghost use Rattle.std.specs.Prelude.{◌≡◌, ◌≢◌, ◌↔◌, ◌<◌, ℕ, length, Contains, IsTrue, IfOk};
ghost use Rattle.coco_base.specs.declared.unrolled.Node.TheVariants.{Nothing};
ghost use Rattle.coco_base.specs.declared.finding.Probe.{Probe};
ghost use Rattle.coco_model.specs.UnrolledRuns.{index_of, IsUnrolledValue};
ghost use Rattle.stable_sets.specs.Shown.{AreSeenPairs, IsInside, IsLooked, IsReachedIn, IsSeenPair, IsShown, IsShownBy, IsUnknownPair, Lasts};

use calm_reach::CalmRow;
use coco_base::{NoMemory, Node, Probe, Unrolled};
use gate_graph::Graph;
use std::alloc::Global;

/// What pairs are looked at against: a run, its rows, and how many cycles a probe lasts.
#[derive(Clone, Copy, Debug)]
pub(crate) struct Look<'a> {
    pub graph: &'a Graph,
    pub unrolled: &'a Unrolled,
    pub rows: &'a [CalmRow],
    pub window: u32,
}

/// Whether each pair is unknown, and one of the probes shows it.
pub(crate) fn are_seen(
    alloc: Global,
    look: &Look,
    probes: &[Probe],
    pairs: &[Probe],
) -> Result<bool, NoMemory>
    requires look { IsLooked look.now.graph.now.flat look.now.unrolled.now look.now.rows.now }
    requires probes { (p : Probe) → Contains probes.now p → IsInside look.now.unrolled.now p }
    ensures { IfOk result (λ b. IsTrue b ↔ AreSeenPairs look.now.graph.now.flat look.now.window
        look.now.rows.now look.now.unrolled.now probes.now pairs.now) }
{
    'pairs: for place in 0..pairs.len() {
        if !is_seen(alloc, look, probes, pairs[place])? {
            return Ok(false);
        }
    }
    Ok(true)
}

fn is_seen(alloc: Global, look: &Look, probes: &[Probe], pair: Probe) -> Result<bool, NoMemory>
    requires look { IsLooked look.now.graph.now.flat look.now.unrolled.now look.now.rows.now }
    requires probes { (p : Probe) → Contains probes.now p → IsInside look.now.unrolled.now p }
    ensures { IfOk result (λ b. IsTrue b ↔ IsSeenPair look.now.graph.now.flat look.now.window look.now.rows.now
        look.now.unrolled.now probes.now pair) }
{
    if !is_unknown(look.unrolled, pair) {
        return Ok(false);
    }
    is_shown(alloc, look, probes, pair)
}

fn is_unknown(unrolled: &Unrolled, pair: Probe) -> bool
    requires { IsUnrolledValue unrolled.now }
    ensures { IsTrue result ↔ IsUnknownPair unrolled.now pair }
{
    if pair.bit >= unrolled.bits || pair.cycle >= unrolled.cycles {
        return false;
    }
    is_something(&unrolled.nodes.as_slice()[index(unrolled, pair)])
}

fn is_something(node: &Node) -> bool
    ensures { IsTrue result ↔ (node.now ≢ Nothing) }
{
    !matches!(node, Node::Nothing)
}

/// The number of the node of a bit in a cycle.
pub(crate) fn index(unrolled: &Unrolled, pair: Probe) -> usize
    requires unrolled { IsUnrolledValue unrolled.now }
    requires inside { IsInside unrolled.now pair }
    ensures number { result ≡ index_of unrolled.now pair.cycle pair.bit }
    ensures below { result < length unrolled.now.nodes }
{
    let rank = unrolled.ranks.as_slice()[pair.bit as usize];
    pair.cycle as usize * unrolled.bits as usize + rank as usize
}

// whether one of the probes shows a pair
fn is_shown(alloc: Global, look: &Look, probes: &[Probe], pair: Probe) -> Result<bool, NoMemory>
    requires look { IsLooked look.now.graph.now.flat look.now.unrolled.now look.now.rows.now }
    requires probes { (p : Probe) → Contains probes.now p → IsInside look.now.unrolled.now p }
    requires cycle { pair.cycle < look.now.unrolled.now.cycles }
    ensures { IfOk result (λ b. IsTrue b ↔ IsShown look.now.graph.now.flat look.now.unrolled.now.cycles
        look.now.window look.now.rows.now probes.now pair) }
{
    'probes: for place in 0..probes.len() {
        if shows(alloc, look, probes[place], pair)? {
            return Ok(true);
        }
    }
    Ok(false)
}

// a probe shows a pair in the pair's own cycle and in the next, where its window has these
fn shows(alloc: Global, look: &Look, probe: Probe, pair: Probe) -> Result<bool, NoMemory>
    requires look { IsLooked look.now.graph.now.flat look.now.unrolled.now look.now.rows.now }
    requires probe { IsInside look.now.unrolled.now probe }
    requires cycle { pair.cycle < look.now.unrolled.now.cycles }
    ensures { IfOk result (λ b. IsTrue b ↔ IsShownBy look.now.graph.now.flat look.now.unrolled.now.cycles
        look.now.window look.now.rows.now probe pair) }
{
    let _cycles = look.unrolled.cycles; // so the next cycle is a 32-bit number
    if reaches(alloc, look, probe, pair.cycle, pair.bit)? {
        return Ok(true);
    }
    reaches(alloc, look, probe, pair.cycle + 1, pair.bit)
}

// whether a probe's window has a cycle, and its bit reaches a leaf in it
fn reaches(
    alloc: Global,
    look: &Look,
    probe: Probe,
    cycle: u32,
    leaf: u32,
) -> Result<bool, NoMemory>
    requires look { IsLooked look.now.graph.now.flat look.now.unrolled.now look.now.rows.now }
    requires probe { IsInside look.now.unrolled.now probe }
    ensures { IfOk result (λ b. IsTrue b ↔ IsReachedIn look.now.graph.now.flat look.now.unrolled.now.cycles
        look.now.window look.now.rows.now probe cycle leaf) }
{
    if !lasts(look.unrolled.cycles, look.window, probe, cycle) {
        return Ok(false);
    }
    let leaves = look.rows[cycle as usize].reached(alloc, look.graph, probe.bit)?;
    Ok(has_leaf(leaves.as_slice(), leaf))
}

fn has_leaf(leaves: &[u32], leaf: u32) -> bool
    ensures { IsTrue result ↔ Contains leaves.now leaf }
{
    leaves.contains(&leaf)
}

fn lasts(cycles: u32, window: u32, probe: Probe, cycle: u32) -> bool
    ensures { IsTrue result ↔ Lasts cycles window probe cycle }
{
    probe.cycle <= cycle && cycle - probe.cycle < window && cycle < cycles
}
