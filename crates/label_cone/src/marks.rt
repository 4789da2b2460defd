// Which nodes matter, from the last node to the first.
ghost use Rattle.std.specs.Prelude.{◌≡◌, ◌+◌, ◌<◌, ℕ, ◌↔◌, ◌⊎◌, true, length, get_or, IfOk, IsTrue};
ghost use Rattle.coco_base.specs.declared.unrolled.Node.TheVariants.{Nothing};
ghost use Rattle.coco_model.specs.Matters.{AreMattering};
ghost use Rattle.label_cone.specs.Coned.{mark_at};
ghost use Rattle.label_cone.specs.NodeCones.{AreOrdered, ReadsEarlier};
ghost use Rattle.label_cone.specs.Marks.{AreMarkedTo, AreMarksTo, ReadsPlace};

use cell_table::inputs_of;
use coco_base::{Kind, NoMemory, Node, Part};
use std::alloc::Global;

/// For each node whether it matters.
pub fn marks(alloc: Global, nodes: &[Node]) -> Result<Vec<bool>, NoMemory>
    requires ordered { AreOrdered nodes.now }
    ensures marks { IfOk result (λ m. AreMattering nodes.now (mark_at m.items)) }
    ensures as_long { IfOk result (λ m. length m.items ≡ length nodes.now) }
{
    let mut marks = vec![in alloc; false; nodes.len()]?;
    let mut left = nodes.len();
    'nodes: while 0 < left {
        left -= 1;
        settle(nodes, left, marks.as_mut_slice());
    }
    Ok(marks)
}

// settles whether a node matters, where that is settled of all later nodes, and marks what it makes matter
fn settle(nodes: &[Node], place: usize, marks: &mut [bool])
    requires ordered { AreOrdered nodes.now }
    requires place { place < length nodes.now }
    requires later { AreMarksTo nodes.now (place + 1) marks.old }
    ensures { AreMarksTo nodes.now place marks.new }
{
    match nodes[place] {
        Node::Nothing => marks[place] = false,
        Node::Label(_) => marks[place] = true,
        Node::Copy(origin) => {
            marks[place] = false;
            marks[origin as usize] = true;
        }
        Node::Gate {
            kind,
            parts,
            operands,
        } => {
            if marks[place] {
                mark_operands(kind, parts, operands, marks);
            }
        }
    }
}

// marks the operands of a gate at its inputs that vary
fn mark_operands(kind: Kind, parts: [Part; 4], operands: [u32; 4], marks: &mut [bool])
    requires { (j : ℕ) → ReadsPlace kind parts j → get_or operands j 0 < length marks.old }
    ensures { AreMarkedTo kind parts operands 4 marks.old marks.new }
{
    'inputs: for place in 0..4 {
        if reads(kind, parts, place) {
            marks[operands[place] as usize] = true;
        }
    }
}

// whether an input of a gate varies
fn reads(kind: Kind, parts: [Part; 4], place: usize) -> bool
    requires { place < 4 }
    ensures { IsTrue result ↔ ReadsPlace kind parts place }
{
    place < inputs_of(kind) as usize && parts[place] == Part::Vary
}
