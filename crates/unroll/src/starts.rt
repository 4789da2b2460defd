// The nodes of starts.
ghost use Rattle.std.specs.Prelude.{◌≡◌, suc, ◌<◌, ◌^◌};
ghost use Rattle.coco_model.specs.Carried.{entry_of, start_state, IsLabelled};
ghost use Rattle.coco_model.specs.Labels.{label_count};
ghost use Rattle.coco_model.specs.Nodes.{starting_nodes};

use coco_base::{LabelTable, Node, Start};

/// The node of a start in a cycle: nothing where it is public, and else its label.
pub(crate) fn start_node(table: &LabelTable, cycle: u32, start: Start) -> Node
    requires labelled { IsLabelled table.now start }
    requires few { label_count table.now (suc cycle) < 2 ^ 32 }
    ensures { result ≡ start_state starting_nodes table.now cycle start }
{
    match start {
        Start::Public(_) => Node::Nothing,
        Start::Label(label) => Node::Label(label),
        Start::Fresh(number) => Node::Label(table.declared + cycle * table.per_cycle + number),
    }
}

/// An input's entry of a cycle, or its last where the list is shorter.
pub(crate) fn entry_of(values: &[Start], cycle: u32) -> Start
    ensures { result ≡ entry_of values.now cycle }
{
    let last = values.len().saturating_sub(1);
    let place = last.min(cycle as usize);
    values.get(place).copied().unwrap_or(Start::Public(false))
}
