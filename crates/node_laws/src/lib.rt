//! The laws of the clauses of nodes, each a call without effect whose clause says it.
#![tactic(auto)]

ghost use Rattle.node_laws.specs.Laws.{SoundLaw, CompleteLaw, ReadsLaw};

use circuit_clauses::{evaluation_law, gates_law};
use walsh_laws::least_choice_law;

pub mod examples;

/// Values that meet the clauses of nodes read as a choice for each node, and their totals tell the sum.
pub fn sound_law()
    ensures { SoundLaw }
{
    gates_law(); // the signal of a gate has the gate's value
    least_choice_law(); // each gate has a least choice
}

/// Every choice for the nodes is read from some values that meet the clauses.
pub fn complete_law()
    ensures { CompleteLaw }
{
    evaluation_law(); // gates have values, whatever the variables before them have
    least_choice_law(); // each gate has a least choice
}

/// The steps of nodes read earlier variables alone.
pub fn reads_law()
    ensures { ReadsLaw }
{
    evaluation_law(); // gates have values, whatever the variables before them have
    least_choice_law(); // each gate has a least choice
}
