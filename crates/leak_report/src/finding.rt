ghost use Rattle.std.specs.Prelude.{◌≡◌, ℕ, ◌<◌, ◌≤◌, ◌++◌, All, Contains, IfOk, OnOk, flat_map, get_or, length, map, option_map, slice_get};
ghost use Rattle.std.specs.List.{range_with_len};
ghost use Rattle.coco_base.specs.BitNames.{name_of_bit};
ghost use Rattle.coco_base.specs.declared.finding.Probe.{Probe as Pair};
ghost use Rattle.gate_graph.specs.declared.driver.Driver.TheVariants.{Nothing};
ghost use Rattle.leak_report.specs.Labels.{set_line, spaced_label};
ghost use Rattle.leak_report.specs.Places.{driver_text, line_text, name_text, names_in, probe_line, probe_lines, sees_line, sees_lines, source_text};

use crate::labels::add_label;
use crate::text::{add, add_hex, add_name, add_number};
use coco_base::{Flat, LabelSet, LabelTable, NoMemory, Probe, Text};
use gate_graph::{Driver, Graph};
use std::alloc::Global;

/// What the lines of a finding name: bits by their names, what drives them, and the instruction of each cycle with its
/// source line.
#[derive(Clone, Copy, Debug)]
pub(crate) struct Scene<'a> {
    pub flat: &'a Flat,
    pub graph: &'a Graph,
    pub names: &'a [Text],
    pub pcs: &'a [u32],
    pub lines: &'a [u32],
}

#[tactic(auto, using(crate::proofs::Names::names_long))]
fn add_bit(text: &mut Vec<u8>, alloc: Global, scene: &Scene, bit: u32) -> Result<(), NoMemory>
    requires names { scene.now.names.now ≡ names_in scene.now.flat.now }
    requires bit { bit < scene.now.flat.now.bits }
    ensures { OnOk result (text.new.items ≡ text.old.items ++ name_text scene.now.flat.now bit) }
{
    add_name(text, alloc, scene.names[bit as usize].as_bytes())
}

fn add_driver(text: &mut Vec<u8>, alloc: Global, graph: &Graph, bit: u32) -> Result<(), NoMemory>
    requires { bit < graph.now.flat.bits }
    ensures { OnOk result (text.new.items ≡ text.old.items ++ driver_text graph.now bit) }
{
    match graph.driver(bit) {
        Driver::Port(_) => add(text, b"input"),
        Driver::Cell(number) => add_name(text, alloc, graph.cell(number).name.as_bytes()),
        Driver::Flop(number) => add_name(text, alloc, graph.flop(number).name.as_bytes()),
        Driver::Nothing => add(text, b"none"),
    }
}

// the number at a place, if there is one
fn number_at(numbers: &[u32], place: u32) -> Option<u32>
    ensures { result ≡ slice_get numbers.now place }
{
    numbers.get(place as usize).copied()
}

fn add_line(text: &mut Vec<u8>, alloc: Global, line: Option<u32>) -> Result<(), NoMemory>
    ensures { OnOk result (text.new.items ≡ text.old.items ++ line_text line) }
{
    match line {
        None => add(text, b"-"),
        Some(line) => add_number(text, alloc, u128::from(line)),
    }
}

fn add_source(
    text: &mut Vec<u8>,
    alloc: Global,
    lines: &[u32],
    pc: Option<u32>,
) -> Result<(), NoMemory>
    ensures { OnOk result (text.new.items ≡ text.old.items ++ source_text lines.now pc) }
{
    let Some(pc) = pc else {
        return add(text, b"pc - line -");
    };
    add(text, b"pc ")?;
    add_hex(text, pc)?;
    add(text, b" line ")?;
    add_line(text, alloc, number_at(lines, pc / 4))
}

fn add_probe(text: &mut Vec<u8>, alloc: Global, scene: &Scene, probe: Probe) -> Result<(), NoMemory>
    requires names { scene.now.names.now ≡ names_in scene.now.flat.now }
    requires graph { scene.now.graph.now.flat ≡ scene.now.flat.now }
    requires bit { probe.bit < scene.now.flat.now.bits }
    ensures { OnOk result (text.new.items ≡ text.old.items
        ++ probe_line scene.now.flat.now (driver_text scene.now.graph.now) scene.now.pcs.now scene.now.lines.now probe) }
{
    add(text, b"probe ")?;
    add_bit(text, alloc, scene, probe.bit)?;
    add(text, b" gate ")?;
    add_driver(text, alloc, scene.graph, probe.bit)?;
    add(text, b" cycle ")?;
    add_number(text, alloc, u128::from(probe.cycle))?;
    add(text, b" ")?;
    let pc = number_at(scene.pcs, probe.cycle);
    add_source(text, alloc, scene.lines, pc)?;
    add(text, b"\n")
}

/// Adds a line for each probe.
pub(crate) fn add_probes(
    text: &mut Vec<u8>,
    alloc: Global,
    scene: &Scene,
    probes: &[Probe],
) -> Result<(), NoMemory>
    requires names { scene.now.names.now ≡ names_in scene.now.flat.now }
    requires graph { scene.now.graph.now.flat ≡ scene.now.flat.now }
    requires bits { All (λ (p : Pair). p.bit < scene.now.flat.now.bits) probes.now }
    ensures { OnOk result (text.new.items ≡ text.old.items
        ++ probe_lines scene.now.flat.now (driver_text scene.now.graph.now) scene.now.pcs.now scene.now.lines.now
        probes.now) }
{
    'probes: for probe in probes {
        add_probe(text, alloc, scene, *probe)?;
    }
    Ok(())
}

fn add_pair(text: &mut Vec<u8>, alloc: Global, scene: &Scene, pair: Probe) -> Result<(), NoMemory>
    requires names { scene.now.names.now ≡ names_in scene.now.flat.now }
    requires bit { pair.bit < scene.now.flat.now.bits }
    ensures { OnOk result (text.new.items ≡ text.old.items ++ sees_line scene.now.flat.now pair) }
{
    add(text, b"sees ")?;
    add_bit(text, alloc, scene, pair.bit)?;
    add(text, b" cycle ")?;
    add_number(text, alloc, u128::from(pair.cycle))?;
    add(text, b"\n")
}

/// Adds a line for each leaf that the probes show, with its cycle.
pub(crate) fn add_pairs(
    text: &mut Vec<u8>,
    alloc: Global,
    scene: &Scene,
    pairs: &[Probe],
) -> Result<(), NoMemory>
    requires names { scene.now.names.now ≡ names_in scene.now.flat.now }
    requires bits { All (λ (p : Pair). p.bit < scene.now.flat.now.bits) pairs.now }
    ensures { OnOk result (text.new.items ≡ text.old.items ++ sees_lines scene.now.flat.now pairs.now) }
{
    'pairs: for pair in pairs {
        add_pair(text, alloc, scene, *pair)?;
    }
    Ok(())
}

// the labels in ascending order
fn labels_of(alloc: Global, set: &LabelSet) -> Result<Vec<u32>, NoMemory>
    ensures { IfOk result (λ v. v.items ≡ set.now) }
{
    let mut labels = Vec::new(alloc);
    'labels: for label in set.iter() {
        labels.push(*label)?;
    }
    Ok(labels)
}

fn add_labels(
    text: &mut Vec<u8>,
    alloc: Global,
    table: &LabelTable,
    labels: &[u32],
) -> Result<(), NoMemory>
    requires { All (λ label. table.now.declared ≤ label → 0 < table.now.per_cycle) labels.now }
    ensures { OnOk result (text.new.items ≡ text.old.items ++ flat_map (spaced_label table.now) labels.now) }
{
    'labels: for label in labels {
        add(text, b" ")?;
        add_label(text, alloc, table, u128::from(*label))?;
    }
    Ok(())
}

/// Adds the line of a set of labels.
pub(crate) fn add_set(
    text: &mut Vec<u8>,
    alloc: Global,
    table: &LabelTable,
    set: &LabelSet,
) -> Result<(), NoMemory>
    requires { All (λ label. table.now.declared ≤ label → 0 < table.now.per_cycle) set.now }
    ensures { OnOk result (text.new.items ≡ text.old.items ++ set_line table.now set.now) }
{
    let labels = labels_of(alloc, set)?;
    add(text, b"set")?;
    add_labels(text, alloc, table, labels.as_slice())?;
    add(text, b"\n")
}
