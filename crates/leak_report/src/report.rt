ghost use Rattle.std.specs.Prelude.{◌≡◌, ◌<◌, ◌≤◌, ◌++◌, ◌↔◌, All, IfOk, IsTrue, OnOk, sum_by};
ghost use Rattle.coco_base.specs.declared.labels.SecretPlan.{SecretPlan as Secret};
ghost use Rattle.coco_base.specs.declared.finding.Probe.{Probe as Pair};
ghost use Rattle.coco_model.specs.Labels.{label_count, secret_bit_count};
ghost use Rattle.gate_graph.specs.Graphs.{IsGraphOf};
ghost use Rattle.leak_report.specs.Places.{driver_text, names_in};
ghost use Rattle.leak_report.specs.Reports.{IsAnswerInRange, finding_text, head_text, report, signal_bits, verdict_line, window_line};

use crate::answer::{Answer, Facts};
use crate::finding::{Scene, add_pairs, add_probes, add_set};
use crate::text::add_count;
use coco_base::{
    Finding, Flat, LabelSet, LabelTable, NoMemory, Probe, SecretPlan, Setup, names_of_bits,
};
use gate_graph::Graph;
use std::alloc::Global;

fn verdict(answer: &Answer) -> &'static [u8]
    ensures { result.now ≡ verdict_line answer.now }
{
    match answer {
        Answer::Accepted(_) => b"accepted\n",
        Answer::Rejected(_) => b"rejected\n",
        Answer::Undecided(_) => b"undecided\n",
    }
}

fn signal_bits(flat: &Flat, clock: Option<u32>) -> u32
    ensures { result ≡ signal_bits flat.now clock }
{
    match clock {
        None => flat.bits,
        Some(_) => flat.bits.saturating_sub(1),
    }
}

fn sum_of_widths(secrets: &[SecretPlan]) -> u128
    ensures { result ≡ sum_by (λ (s : Secret). s.width) secrets.now }
{
    secrets.iter().map(|secret| u128::from(secret.width)).sum()
}

#[tactic(auto, using(crate::proofs::Widths::widths))]
fn secret_bits(table: &LabelTable) -> u128
    ensures { result ≡ secret_bit_count table.now }
{
    sum_of_widths(table.secrets.as_slice())
}

fn add_window(text: &mut Vec<u8>, alloc: Global, window: u32) -> Result<(), NoMemory>
    ensures { OnOk result (text.new.items ≡ text.old.items ++ window_line window) }
{
    if window == 1 {
        return Ok(());
    }
    add_count(text, alloc, b"window ", u128::from(window))
}

fn label_count(table: &LabelTable, cycles: u32) -> u128
    ensures { result ≡ label_count table.now cycles }
{
    u128::from(table.declared) + u128::from(cycles) * u128::from(table.per_cycle)
}

// the lines that the reports of all verdicts have
#[tactic(auto, unfolding(crate::specs::Reports::head_text))]
fn head(
    alloc: Global,
    answer: &Answer,
    facts: &Facts,
    flat: &Flat,
    setup: &Setup,
) -> Result<Vec<u8>, NoMemory>
    ensures { IfOk result (λ v. v.items ≡ head_text answer.now facts.now flat.now setup.now) }
{
    let mut text = verdict(answer).to_vec(alloc)?;
    add_count(&mut text, alloc, b"order ", u128::from(facts.order))?;
    add_window(&mut text, alloc, facts.window)?;
    add_count(&mut text, alloc, b"cycles ", u128::from(facts.cycles))?;
    let bits = u128::from(signal_bits(flat, setup.clock));
    add_count(&mut text, alloc, b"bits ", bits)?;
    add_count(&mut text, alloc, b"secret bits ", secret_bits(&setup.table))?;
    let labels = label_count(&setup.table, facts.cycles);
    add_count(&mut text, alloc, b"labels ", labels)?;
    Ok(text)
}

fn are_below(pairs: &[Probe], bits: u32) -> bool
    ensures { IsTrue result ↔ All (λ (p : Pair). p.bit < bits) pairs.now }
{
    pairs.iter().all(|pair| pair.bit < bits)
}

fn are_labels(set: &LabelSet, labels: u128) -> bool
    ensures { IsTrue result ↔ All (λ label. label < labels) set.now }
{
    set.iter().all(|label| u128::from(*label) < labels)
}

#[tactic(auto, unfolding(crate::specs::Reports::finding_text))]
fn add_finding(
    text: &mut Vec<u8>,
    alloc: Global,
    scene: &Scene,
    table: &LabelTable,
    finding: &Finding,
) -> Result<(), NoMemory>
    requires names { scene.now.names.now ≡ names_in scene.now.flat.now }
    requires graph { scene.now.graph.now.flat ≡ scene.now.flat.now }
    requires probes { All (λ (p : Pair). p.bit < scene.now.flat.now.bits) finding.now.probes }
    requires seen { All (λ (p : Pair). p.bit < scene.now.flat.now.bits) finding.now.seen }
    requires set { All (λ label. table.now.declared ≤ label → 0 < table.now.per_cycle) finding.now.set }
    ensures { OnOk result (text.new.items ≡ text.old.items
        ++ finding_text scene.now.flat.now (driver_text scene.now.graph.now) scene.now.pcs.now scene.now.lines.now
        table.now finding.now) }
{
    add_probes(text, alloc, scene, finding.probes.as_slice())?;
    add_pairs(text, alloc, scene, finding.seen.as_slice())?;
    add_set(text, alloc, table, &finding.set)
}

/// Whether the bits and labels that an answer names are those of a run of this netlist and setup.
pub fn is_in_range(answer: &Answer, facts: &Facts, flat: &Flat, setup: &Setup) -> bool
    ensures { IsTrue result
        ↔ IsAnswerInRange flat.now.bits (label_count setup.now.table facts.now.cycles) answer.now }
{
    let Answer::Rejected(finding) = answer else {
        return true;
    };
    let labels = label_count(&setup.table, facts.cycles);
    are_below(finding.probes.as_slice(), flat.bits)
        && are_below(finding.seen.as_slice(), flat.bits)
        && are_labels(&finding.set, labels)
}

/// The report of a run: its verdict, what it was called with and how large it is, and then the lines of the finding or
/// the number of steps. Probes and pairs are printed in the order of the finding.
pub fn text_of(
    alloc: Global,
    answer: &Answer,
    facts: &Facts,
    flat: &Flat,
    graph: &Graph,
    setup: &Setup,
) -> Result<Vec<u8>, NoMemory>
    requires graph { IsGraphOf flat.now graph.now }
    requires range { IsAnswerInRange flat.now.bits (label_count setup.now.table facts.now.cycles) answer.now }
    ensures { IfOk result (λ v. v.items
        ≡ report answer.now facts.now flat.now (driver_text graph.now) setup.now) }
{
    let mut text = head(alloc, answer, facts, flat, setup)?;
    match answer {
        Answer::Accepted(_) => {}
        Answer::Rejected(finding) => {
            let names = names_of_bits(alloc, flat)?;
            let scene = Scene {
                flat,
                graph,
                names: names.as_slice(),
                pcs: facts.pcs.as_slice(),
                lines: setup.lines.as_slice(),
            };
            add_finding(&mut text, alloc, &scene, &setup.table, finding)?;
        }
        Answer::Undecided(derivation) => {
            add_count(&mut text, alloc, b"steps ", derivation.lines.len() as u128)?;
        }
    }
    Ok(text)
}
