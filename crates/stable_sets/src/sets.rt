ghost use Rattle.std.specs.Prelude.{◌≡◌, ◌<◌, length, IfOk};
ghost use Rattle.coco_model.specs.Cells.{input_places};
ghost use Rattle.coco_model.specs.UnrolledRuns.{IsUnrolledValue};
ghost use Rattle.stable_sets.specs.Chosen.{AreAllowed, AreChosenBelow, AreFollowed, IsChosenSet, IsSetOf, ReadsChosenBelow};

use cell_table::inputs_of;
use coco_base::{Kind, LabelSet, List, NoMemory, Node, Selection, Unrolled};
use std::alloc::Global;

/// The set of each node by a selection: a label has itself, a copy its origin's set, and a gate the symmetric
/// difference of the sets of its operands at the places of its choice.
pub fn follow(
    alloc: Global,
    unrolled: &Unrolled,
    selection: &Selection,
) -> Result<List<LabelSet>, NoMemory>
    requires unrolled { IsUnrolledValue unrolled.now }
    requires allowed { AreAllowed unrolled.now.nodes selection.now.choices }
    ensures { IfOk result (AreFollowed unrolled.now.nodes selection.now.choices) }
{
    let nodes = unrolled.nodes.as_slice();
    let choices = selection.choices.as_slice();
    let mut sets = List::new(alloc);
    'nodes: for place in 0..nodes.len() {
        let set = node_set(alloc, &nodes[place], choices[place], sets.as_slice())?;
        sets.push(set)?;
    }
    Ok(sets)
}

// the set of a node from those of earlier nodes
fn node_set(alloc: Global, node: &Node, choice: u8, sets: &[LabelSet]) -> Result<LabelSet, NoMemory>
    requires { ReadsChosenBelow (length sets.now) choice node.now }
    ensures { IfOk result (IsSetOf sets.now choice node.now) }
{
    match *node {
        Node::Nothing => Ok(LabelSet::empty(alloc)),
        Node::Label(label) => LabelSet::of(alloc, label),
        Node::Copy(origin) => LabelSet::empty(alloc).xor(alloc, &sets[origin as usize]),
        Node::Gate { kind, operands, .. } => gate_set(alloc, kind, operands, choice, sets),
    }
}

fn gate_set(
    alloc: Global,
    kind: Kind,
    operands: [u32; 4],
    choice: u8,
    sets: &[LabelSet],
) -> Result<LabelSet, NoMemory>
    requires { AreChosenBelow (input_places kind operands) choice (length sets.now) }
    ensures { IfOk result (IsChosenSet sets.now (input_places kind operands) choice) }
{
    let count = inputs_of(kind) as usize;
    chosen_set(alloc, &operands[..count], choice, sets)
}

fn chosen_set(
    alloc: Global,
    operands: &[u32],
    choice: u8,
    sets: &[LabelSet],
) -> Result<LabelSet, NoMemory>
    requires { AreChosenBelow operands.now choice (length sets.now) }
    ensures { IfOk result (IsChosenSet sets.now operands.now choice) }
{
    let [operand, rest @ ..] = operands else {
        return Ok(LabelSet::empty(alloc));
    };
    let set = chosen_set(alloc, rest, choice / 2, sets)?;
    if choice % 2 == 1 {
        set.xor(alloc, &sets[*operand as usize])
    } else {
        Ok(set)
    }
}
