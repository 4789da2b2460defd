//! The laws of the clauses about probes, each a call without effect whose clause says it.
#![tactic(auto)]

ghost use Rattle.probe_laws.specs.Laws.{SoundProbesLaw, CompleteProbesLaw, OrderlyLaw, ReadsProbesLaw};

use circuit_clauses::{evaluation_law, gates_law};
use tally_clauses::{limit_law, tally_law};

/// Values that meet the clauses about probes choose at least one and at most the order of probes, and pairs that these
/// show.
pub fn sound_probes_law()
    ensures { SoundProbesLaw }
{
    gates_law(); // the signal of a gate has the gate's value
    tally_law(); // a sum of tallies counts what all count
    limit_law(); // and its steps hold exactly where the limit is not passed
}

/// Every choice of probes within the order, and of pairs that they show, is met by some values.
pub fn complete_probes_law()
    ensures { CompleteProbesLaw }
{
    evaluation_law(); // gates have values, whatever the variables before them have
    gates_law(); // the signal of a gate has the gate's value
    tally_law(); // a sum of tallies counts what all count
    limit_law(); // and its steps hold exactly where the limit is not passed
}

/// The cells of a graph that was built stand in order, as the law before this one asks.
pub fn orderly_law()
    ensures { OrderlyLaw }
{}

/// The steps about probes read earlier variables alone.
pub fn reads_probes_law()
    ensures { ReadsProbesLaw }
{}
