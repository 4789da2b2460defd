// Probes and pairs in ascending order, and in range.
ghost use Rattle.std.specs.Prelude.{◌↔◌, ◌<◌, ℕ, Contains, IsTrue, length, ◌≤◌};
ghost use Rattle.coco_base.specs.declared.finding.Probe.{Probe};
ghost use Rattle.coco_model.specs.Secure.{IsProbe};
ghost use Rattle.coco_model.specs.WrittenFindings.{AreAscending, ComesBefore};
ghost use Rattle.stable_sets.specs.Listed.{AreListed, AreProbes, AreProbesListed};

use coco_base::{Finding, Probe, Unrolled};

/// Whether a finding has at least one and at most as many probes as the order, all of the run, and probes and pairs
/// ascend.
pub(crate) fn are_listed(
    unrolled: &Unrolled,
    clock: Option<u32>,
    order: u32,
    finding: &Finding,
) -> bool
    ensures { IsTrue result
        ↔ AreListed unrolled.now.bits unrolled.now.cycles clock order finding.now.probes finding.now.seen }
{
    let pairs = finding.seen.as_slice();
    are_probes_listed(unrolled, clock, order, finding.probes.as_slice()) && are_ascending(pairs)
}

fn are_probes_listed(unrolled: &Unrolled, clock: Option<u32>, order: u32, probes: &[Probe]) -> bool
    ensures { IsTrue result
        ↔ AreProbesListed unrolled.now.bits unrolled.now.cycles clock order probes.now }
{
    if !is_some_within(probes, order) {
        return false;
    }
    are_probes(unrolled, clock, probes) && are_ascending(probes)
}

fn is_some_within(probes: &[Probe], order: u32) -> bool
    ensures { IsTrue result ↔ ((0 < length probes.now) × (length probes.now ≤ order)) }
{
    !probes.is_empty() && probes.len() as u64 <= u64::from(order)
}

// whether each comes before the next, by cycle and then by bit
fn are_ascending(probes: &[Probe]) -> bool
    ensures { IsTrue result ↔ AreAscending probes.now }
{
    'probes: for place in 1..probes.len() {
        if !comes_before(probes[place - 1], probes[place]) {
            return false;
        }
    }
    true
}

fn comes_before(first: Probe, second: Probe) -> bool
    ensures { IsTrue result ↔ ComesBefore first second }
{
    first.cycle < second.cycle || (first.cycle == second.cycle && first.bit < second.bit)
}

// whether each is a bit of the run other than the clock, in one of its cycles
fn are_probes(unrolled: &Unrolled, clock: Option<u32>, probes: &[Probe]) -> bool
    ensures { IsTrue result ↔ AreProbes unrolled.now.bits clock unrolled.now.cycles probes.now }
{
    'probes: for place in 0..probes.len() {
        if !is_probe(unrolled, clock, probes[place]) {
            return false;
        }
    }
    true
}

fn is_probe(unrolled: &Unrolled, clock: Option<u32>, probe: Probe) -> bool
    ensures { IsTrue result ↔ IsProbe unrolled.now.bits clock unrolled.now.cycles probe }
{
    probe.bit < unrolled.bits && clock != Some(probe.bit) && probe.cycle < unrolled.cycles
}
