// The calm value of each bit: leaves first, then cells by rank.
ghost use Rattle.std.specs.Prelude.{◌≡◌, ℕ, length, IfOk};
ghost use Rattle.coco_base.specs.declared.cell.Part.TheVariants.{Zero};
ghost use Rattle.coco_model.specs.Calm.{both, IsCalm};
ghost use Rattle.gate_graph.specs.Graphs.{IsBuilt};
ghost use Rattle.calm_reach.specs.CalmRows.{row_of};
ghost use Rattle.calm_reach.specs.Forcing.{AreForcedTo, AgreeOnLeaves};

use crate::wires::cell_parts;
use cell_table::forced;
use coco_base::{NoMemory, Part};
use gate_graph::Graph;
use std::alloc::Global;

/// What is calm between two rows of what is known.
pub(crate) fn calm_parts(
    alloc: Global,
    graph: &Graph,
    before: &[Part],
    now: &[Part],
) -> Result<Vec<Part>, NoMemory>
    requires before { length before.now ≡ graph.now.flat.bits }
    requires now { length now.now ≡ graph.now.flat.bits }
    ensures as_long { IfOk result (λ v. length v.items ≡ graph.now.flat.bits) }
    ensures calm { IfOk result (λ v. IsCalm graph.now.flat (row_of before.now) (row_of now.now) (row_of v.items)) }
{
    let mut parts = unchanged(alloc, before, now)?;
    force_cells(graph, parts.as_mut_slice());
    Ok(parts)
}

// what is known in both rows, bit by bit
fn unchanged(alloc: Global, before: &[Part], now: &[Part]) -> Result<Vec<Part>, NoMemory>
    requires { length before.now ≡ length now.now }
    ensures as_long { IfOk result (λ v. length v.items ≡ length now.now) }
    ensures each { IfOk result (λ v. (b : ℕ) → row_of v.items b ≡ both (row_of before.now b) (row_of now.now b)) }
{
    let mut parts = Vec::new(alloc);
    'bits: for bit in 0..now.len() {
        parts.push(both(before[bit], now[bit]))?;
    }
    Ok(parts)
}

fn both(old: Part, now: Part) -> Part
    ensures { result ≡ both old now }
{
    if old == now { old } else { Part::Vary }
}

// gives the output of each cell what its inputs force, by rank
fn force_cells(graph: &Graph, parts: &mut [Part])
    requires { length parts.old ≡ graph.now.flat.bits }
    ensures forced { AreForcedTo graph.now (length graph.now.order) parts.new }
    ensures leaves { AgreeOnLeaves graph.now.flat parts.old parts.new }
    ensures as_long { length parts.new ≡ length parts.old }
    ensures built { IsBuilt graph.now }
{
    let order = graph.order();
    'cells: for number in order {
        let cell = graph.cell(*number);
        parts[cell.output as usize] = forced(cell.kind, cell_parts(parts, cell));
    }
}
