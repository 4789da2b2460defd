// Copies of the table of labels and of the ranks.
ghost use Rattle.std.specs.Prelude.{◌≡◌, IfOk};

use coco_base::{LabelTable, List, MaskPlan, NoMemory, SecretPlan, Text};
use gate_graph::Graph;
use std::alloc::Global;

/// The ranks of all bits.
pub(crate) fn ranks_of(alloc: Global, graph: &Graph) -> Result<List<u32>, NoMemory>
    ensures { IfOk result (λ ranks. ranks ≡ graph.now.ranks) }
{
    let mut ranks = Vec::new(alloc);
    'bits: for bit in 0..graph.bits() {
        ranks.push(graph.rank(bit))?;
    }
    Ok(List::from_vec(ranks))
}

/// A copy of a table of labels.
pub(crate) fn table_of(alloc: Global, table: &LabelTable) -> Result<LabelTable, NoMemory>
    ensures { IfOk result (λ copy. copy ≡ table.now) }
{
    Ok(LabelTable {
        secrets: secrets_of(alloc, table.secrets.as_slice())?,
        masks: masks_of(alloc, table.masks.as_slice())?,
        fresh: masks_of(alloc, table.fresh.as_slice())?,
        declared: table.declared,
        per_cycle: table.per_cycle,
    })
}

fn secrets_of(alloc: Global, secrets: &[SecretPlan]) -> Result<List<SecretPlan>, NoMemory>
    ensures { IfOk result (λ copies. copies ≡ secrets.now) }
{
    let mut copies = Vec::new(alloc);
    'secrets: for secret in secrets {
        copies.push(SecretPlan {
            name: Text::of(alloc, secret.name.as_str())?,
            width: secret.width,
            shares: secret.shares,
            first: secret.first,
        })?;
    }
    Ok(List::from_vec(copies))
}

fn masks_of(alloc: Global, masks: &[MaskPlan]) -> Result<List<MaskPlan>, NoMemory>
    ensures { IfOk result (λ copies. copies ≡ masks.now) }
{
    let mut copies = Vec::new(alloc);
    'masks: for mask in masks {
        copies.push(MaskPlan {
            name: Text::of(alloc, mask.name.as_str())?,
            width: mask.width,
            first: mask.first,
        })?;
    }
    Ok(List::from_vec(copies))
}
