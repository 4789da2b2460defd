// Which labels have variables.
ghost use Rattle.std.specs.Prelude.{◌≡◌, ◌<◌, false, cond, nat_eq, [], ◌∷◌, ◌++◌, length, replicate, IfOk, OnOk};
ghost use Rattle.std.specs.List.Sorted.{IsStrictlyIncreasing};
ghost use Rattle.coco_model.specs.Labels.{label_count};
ghost use Rattle.coco_model.specs.Goals.{is_among};
ghost use Rattle.probe_encode.specs.Labels.{has_label, has_label_in, has_label_at};
ghost use Rattle.probe_encode.specs.Marks.{AreMarked};
ghost use Rattle.probe_encode.specs.Formulas.{labels_of};
ghost use Rattle.probe_encode.specs.Sources.{IsGood, encoding_in};

use crate::source::{Source, node_of};
use coco_base::{LabelSet, NoMemory};
use std::alloc::Global;

/// The labels that the nodes of pairs have in their cones, in ascending order.
pub(crate) fn pair_labels(alloc: Global, source: &Source<'_>) -> Result<Vec<u32>, NoMemory>
    requires { IsGood source.now }
    ensures labels { IfOk result (λ labels. labels.items ≡ labels_of (encoding_in source.now)) }
    ensures ascending { IfOk result (λ labels. IsStrictlyIncreasing labels.items) }
{
    let marks = marks(alloc, source)?;
    let mut labels = Vec::new(alloc);
    'labels: for label in 0..marks.len() {
        push_marked(&mut labels, marks[label], label as u32)?;
    }
    Ok(labels)
}

fn push_marked(labels: &mut Vec<u32>, is_marked: bool, label: u32) -> Result<(), NoMemory>
    ensures { OnOk result (labels.new.items ≡ labels.old.items ++ cond is_marked (label ∷ []) []) }
{
    if is_marked {
        labels.push(label)?;
    }
    Ok(())
}

// By label whether some pair has it in its cone.
fn marks(alloc: Global, source: &Source<'_>) -> Result<Vec<bool>, NoMemory>
    requires { IsGood source.now }
    ensures { let count = label_count source.now.unrolled.now.table source.now.unrolled.now.cycles in
        IfOk result (λ marks. AreMarked (replicate count false) marks.items
        (has_label source.now.run source.now.cones.now.cones)) }
{
    let table = &source.unrolled.table;
    let count = table.declared + source.unrolled.cycles * table.per_cycle;
    let mut marks = vec![in alloc; false; count as usize]?;
    'cycles: for cycle in 0..source.unrolled.cycles {
        mark_cycle(source, cycle, marks.as_mut_slice());
    }
    Ok(marks)
}

// Marks the labels of the pairs of a cycle.
fn mark_cycle(source: &Source<'_>, cycle: u32, marks: &mut [bool])
    requires source { IsGood source.now }
    requires cycle { cycle < length source.now.run.rows }
    ensures { AreMarked marks.old marks.new (λ l. has_label_in source.now.run source.now.cones.now.cones l cycle) }
{
    'bits: for bit in 0..source.unrolled.bits {
        mark_pair(source, cycle, bit, marks);
    }
}

// Marks the labels of a bit in a cycle, if it is a pair.
fn mark_pair(source: &Source<'_>, cycle: u32, bit: u32, marks: &mut [bool])
    requires source { IsGood source.now }
    requires cycle { cycle < length source.now.run.rows }
    requires bit { bit < source.now.run.gates.flat.bits }
    ensures { AreMarked marks.old marks.new (λ l. has_label_at source.now.run source.now.cones.now.cones l cycle bit) }
{
    if source.run.is_pair(cycle as usize, bit) {
        mark(marks, source.cones.of(node_of(source, cycle, bit)));
    }
}

// Marks the labels of a set.
fn mark(marks: &mut [bool], set: &LabelSet)
    ensures { AreMarked marks.old marks.new (λ l. is_among set.now l) }
{
    'labels: for label in set.iter().copied() {
        set_mark(marks, label as usize);
    }
}

fn set_mark(marks: &mut [bool], label: usize)
    ensures { AreMarked marks.old marks.new (λ l. nat_eq l label) }
{
    if label < marks.len() {
        marks[label] = true;
    }
}
