// The cones of nodes, each from those of earlier nodes; nodes with one cone share its set.
ghost use Rattle.std.specs.Prelude.{◌≡◌, ◌+◌, ◌<◌, ◌≤◌, ◌^◌, ℕ, [], ◌∷◌, ◌++◌, length, get_or, IfOk, OnOk};
ghost use Rattle.coco_base.specs.declared.cell.Part.TheVariants.{Zero, Vary};
ghost use Rattle.label_cone.specs.NodeCones.{AddsCone, AreConesTo, AreOrdered, AreSets, HasLiveLabels, ReadsEarlier, cone_at, cones_in};

use cell_table::live;
use coco_base::{Kind, LabelSet, List, NoMemory, Node, Part};
use std::alloc::Global;

/// The sets that cones have, and for each node the place of its cone among them.
#[derive(Debug, Drop)]
pub struct NodeSets {
    pub sets: List<LabelSet>,
    pub places: Vec<u32>,
}

// a gate of an unrolled run: what is known of its inputs, and the nodes of those that vary
#[derive(Clone, Copy, Debug)]
struct Gate {
    kind: Kind,
    parts: [Part; 4],
    operands: [u32; 4],
}

/// The cones of all nodes, where each node reads earlier ones.
pub fn node_sets(alloc: Global, nodes: &[Node]) -> Result<NodeSets, NoMemory>
    requires ordered { AreOrdered nodes.now }
    requires few { length nodes.now < 2 ^ 32 }
    ensures sets { IfOk result (λ t. AreSets t.sets t.places.items) }
    ensures cones { IfOk result (λ t. AreConesTo nodes.now (length nodes.now) (cones_in t.sets t.places.items)) }
{
    let mut sets = List::new(alloc);
    sets.push(LabelSet::empty(alloc))?;
    let mut places = Vec::new(alloc);
    'nodes: for node in nodes {
        add_node(alloc, node, &mut sets, &mut places)?;
    }
    Ok(NodeSets { sets, places })
}

// adds the cone of a node that reads earlier ones
fn add_node(
    alloc: Global,
    node: &Node,
    sets: &mut List<LabelSet>,
    places: &mut Vec<u32>,
) -> Result<(), NoMemory>
    requires sets { AreSets sets.old places.old.items }
    requires earlier { ReadsEarlier (length places.old.items) node.now }
    requires few { length places.old.items + 1 < 2 ^ 32 }
    ensures sets { OnOk result (AreSets sets.new places.new.items) }
    ensures cone { OnOk result (AddsCone node.now (cones_in sets.old places.old.items)
        (cones_in sets.new places.new.items)) }
{
    match *node {
        Node::Nothing => add_place(0, sets, places),
        Node::Label(label) => {
            let set = LabelSet::of(alloc, label)?;
            add_set(set, sets, places)
        }
        Node::Copy(origin) => add_place(places[origin as usize], sets, places),
        Node::Gate {
            kind,
            parts,
            operands,
        } => {
            let gate = Gate {
                kind,
                parts,
                operands,
            };
            let set = gate_set(alloc, gate, sets.as_slice(), places.as_slice())?;
            add_set(set, sets, places)
        }
    }
}

// adds a node with the set at a place
fn add_place(place: u32, sets: &List<LabelSet>, places: &mut Vec<u32>) -> Result<(), NoMemory>
    requires sets { AreSets sets.now places.old.items }
    requires place { place < length sets.now }
    ensures sets { OnOk result (AreSets sets.now places.new.items) }
    ensures cone { OnOk result (cones_in sets.now places.new.items
        ≡ cones_in sets.now places.old.items ++ get_or sets.now place [] ∷ []) }
{
    places.push(place)?;
    Ok(())
}

// adds a node with a set of its own
fn add_set(set: LabelSet, sets: &mut List<LabelSet>, places: &mut Vec<u32>) -> Result<(), NoMemory>
    requires sets { AreSets sets.old places.old.items }
    requires few { length places.old.items + 1 < 2 ^ 32 }
    ensures sets { OnOk result (AreSets sets.new places.new.items) }
    ensures cone { OnOk result (cones_in sets.new places.new.items
        ≡ cones_in sets.old places.old.items ++ set ∷ []) }
{
    let _count = set.len(); // its labels ascend
    let place = sets.len() as u32;
    sets.push(set)?;
    places.push(place)?;
    Ok(())
}

// the labels of a gate's live operands
fn gate_set(
    alloc: Global,
    gate: Gate,
    sets: &[LabelSet],
    places: &[u32],
) -> Result<LabelSet, NoMemory>
    requires sets { AreSets sets.now places.now }
    requires earlier { (j : ℕ) → get_or gate.parts j Zero ≡ Vary → get_or gate.operands j 0 < length places.now }
    ensures { IfOk result (HasLiveLabels (cones_in sets.now places.now) gate.kind gate.parts gate.operands 4) }
{
    let mut set = LabelSet::empty(alloc);
    'inputs: for place in 0..4 {
        if live(gate.kind, gate.parts, place) {
            let operand = gate.operands[place as usize] as usize;
            set = set.union(alloc, set_of(sets, places, operand))?;
        }
    }
    Ok(set)
}

// the set of a node
fn set_of<'a>(sets: &'a [LabelSet], places: &[u32], node: usize) -> &'a LabelSet
    requires sets { AreSets sets.now places.now }
    requires node { node < length places.now }
    ensures { result.now ≡ cone_at (cones_in sets.now places.now) node }
{
    &sets[places[node] as usize]
}
