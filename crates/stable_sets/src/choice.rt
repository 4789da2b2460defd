ghost use Rattle.std.specs.Prelude.{◌≡◌, ◌↔◌, ◌<◌, ◌^◌, ◌%◌, length, IsTrue};
ghost use Rattle.coco_base.specs.declared.cell.Part.TheVariants.{Vary};
ghost use Rattle.coco_model.specs.Cells.{input_count, subset_of_number, IsSubsetOf};
ghost use Rattle.coco_model.specs.Nodes.{IsAllowedChoice, IsGateChoice};
ghost use Rattle.stable_sets.specs.Chosen.{AreAllowed, IsChoiceOf};

use cell_table::{coefficient, inputs_of};
use coco_base::{Kind, Node, Part, Selection, Unrolled};

/// Whether a selection has a choice for each node of a run, and that of each gate has only places that vary and a
/// signed sum that is not 0. It takes no memory.
pub fn allowed(unrolled: &Unrolled, selection: &Selection) -> bool
    ensures { IsTrue result ↔ AreAllowed unrolled.now.nodes selection.now.choices }
{
    let nodes = unrolled.nodes.as_slice();
    let choices = selection.choices.as_slice();
    nodes.len() == choices.len() && are_allowed(nodes, choices)
}

fn are_allowed(nodes: &[Node], choices: &[u8]) -> bool
    requires { length choices.now ≡ length nodes.now }
    ensures { IsTrue result ↔ AreAllowed nodes.now choices.now }
{
    'nodes: for place in 0..nodes.len() {
        if !is_allowed(&nodes[place], choices[place]) {
            return false;
        }
    }
    true
}

fn is_allowed(node: &Node, choice: u8) -> bool
    ensures { IsTrue result ↔ IsAllowedChoice choice node.now }
{
    match *node {
        Node::Nothing | Node::Label(_) | Node::Copy(_) => true,
        Node::Gate { kind, parts, .. } => is_gate_choice(kind, parts, choice),
    }
}

fn is_gate_choice(kind: Kind, parts: [Part; 4], choice: u8) -> bool
    ensures { IsTrue result ↔ (choice < 2 ^ input_count kind)
        × IsGateChoice kind parts (subset_of_number (input_count kind) choice) }
{
    let count = inputs_of(kind) as usize;
    let inputs = &parts[..count];
    has_places(inputs, choice) && coefficient(kind, parts, choice) != 0
}

// whether a choice is a set of the places of parts, all of which vary
fn has_places(parts: &[Part], choice: u8) -> bool
    ensures { IsTrue result ↔ IsChoiceOf parts.now choice }
{
    let [part, rest @ ..] = parts else {
        return choice == 0;
    };
    has_place(*part, choice) && has_places(rest, choice / 2)
}

fn has_place(part: Part, choice: u8) -> bool
    ensures { IsTrue result ↔ (choice % 2 ≡ 1 → part ≡ Vary) }
{
    choice % 2 == 0 || part == Part::Vary
}
