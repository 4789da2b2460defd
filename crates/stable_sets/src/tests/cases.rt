//! A circuit with a run of it, and what comes of values that may be findings.
ghost use Rattle.std.specs.Prelude.{◌≡◌, length, IfOk};
ghost use Rattle.calm_reach.specs.CalmRows.{HasPlaces};
ghost use Rattle.stable_sets.specs.Reached.{AreRows};

use super::runs::{list, run_of};
use crate::{Rows, is_bad};
use calm_reach::{CalmRow, calm_row};
use coco_base::{Finding, LabelSet, List, NoMemory, Node, Part, Probe, Selection};
use gate_graph::{Graph, build, can_build};
use std::alloc::Global;
use std::test::Fail;

/// A circuit in rows; of each cycle what is known of each bit, as `0`, `1` or `v`; its nodes, and choices of gates.
#[derive(Clone, Copy)]
pub(crate) struct Case<'a> {
    pub circuit: &'a str,
    pub known: &'a str,
    pub cycles: u32,
    pub nodes: &'a [Node],
    pub chosen: &'a [(usize, u8)],
}

/// Probes and pairs, each a bit in a cycle, and labels.
#[derive(Clone, Copy)]
pub(crate) struct Claim<'a> {
    pub probes: &'a [(u32, u32)],
    pub pairs: &'a [(u32, u32)],
    pub labels: &'a [u32],
}

/// The graph of rows.
pub(crate) fn graph_of(alloc: Global, circuit: &str) -> Result<Graph, Fail> {
    let flat = circuit_rows::netlist(alloc, circuit)?;
    if !can_build(&flat) {
        return Err(Fail::from(NoMemory));
    }
    match build(alloc, &flat) {
        Ok(graph) => Ok(graph),
        Err(_) => Err(Fail::from(NoMemory)),
    }
}

fn part(known: Option<u8>) -> Part {
    match known {
        Some(b'0') => Part::Zero,
        Some(b'1') => Part::One,
        _ => Part::Vary,
    }
}

// what is known in a cycle
fn parts(alloc: Global, known: &[u8], bits: u32, cycle: u32) -> Result<Vec<Part>, NoMemory>
    ensures { IfOk result (λ v. length v.items ≡ bits) }
{
    let start = (cycle as usize).saturating_mul((bits as usize).saturating_add(1));
    let mut parts = Vec::new(alloc);
    'bits: for bit in 0..bits {
        let place = start.saturating_add(bit as usize);
        parts.push(part(known.get(place).copied()))?;
    }
    Ok(parts)
}

fn row_of(alloc: Global, graph: &Graph, known: &[u8], cycle: u32) -> Result<CalmRow, NoMemory>
    ensures { IfOk result (HasPlaces graph.now.flat) }
{
    let old = parts(alloc, known, graph.bits(), cycle.saturating_sub(1))?;
    let now = parts(alloc, known, graph.bits(), cycle)?;
    calm_row(alloc, graph, old.as_slice(), now.as_slice())
}

fn rows_of(alloc: Global, graph: &Graph, known: &[u8], cycles: u32) -> Result<Rows, NoMemory>
    ensures { IfOk result (AreRows graph.now.flat cycles) }
{
    let mut rows = List::new(alloc);
    'cycles: for cycle in 0..cycles {
        let row = row_of(alloc, graph, known, cycle)?;
        rows.push(row)?;
    }
    Ok(rows)
}

/// A selection with 0 at each node but those given.
pub(crate) fn selection(
    alloc: Global,
    nodes: usize,
    chosen: &[(usize, u8)],
) -> Result<Selection, NoMemory> {
    let mut choices = vec![in alloc; 0u8; nodes]?;
    for (place, choice) in chosen {
        if let Some(number) = choices.get_mut(*place) {
            *number = *choice;
        }
    }
    Ok(Selection {
        choices: List::from_vec(choices),
    })
}

fn places(alloc: Global, pairs: &[(u32, u32)]) -> Result<List<Probe>, NoMemory> {
    let mut probes = List::new(alloc);
    for (bit, cycle) in pairs {
        probes.push(Probe {
            bit: *bit,
            cycle: *cycle,
        })?;
    }
    Ok(probes)
}

fn set_of(alloc: Global, labels: &[u32]) -> Result<LabelSet, NoMemory> {
    let mut set = LabelSet::empty(alloc);
    for label in labels {
        set = set.xor(alloc, &LabelSet::of(alloc, *label)?)?;
    }
    Ok(set)
}

/// Whether a claim is a finding of an order in a case, where probes last a window.
pub(crate) fn tells(
    alloc: Global,
    case: Case,
    order: u32,
    window: u32,
    claim: Claim,
) -> Result<bool, Fail> {
    let graph = graph_of(alloc, case.circuit)?;
    let run = run_of(alloc, graph.bits(), case.cycles, case.nodes)?;
    let rows = rows_of(alloc, &graph, case.known.as_bytes(), case.cycles)?;
    let finding = Finding {
        probes: places(alloc, claim.probes)?,
        seen: places(alloc, claim.pairs)?,
        selection: selection(alloc, case.nodes.len(), case.chosen)?,
        set: set_of(alloc, claim.labels)?,
    };
    Ok(is_bad(alloc, &graph, &run, &rows, Some(0), order, window, &finding)?)
}
