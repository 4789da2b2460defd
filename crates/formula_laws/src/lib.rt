//! The laws of the formula of a run, each a call without effect whose clause says it.
#![tactic(auto)]

ghost use Rattle.formula_laws.specs.Probes.{ProbesLaw};
ghost use Rattle.formula_laws.specs.Weighing.{WeightsLaw};
ghost use Rattle.formula_laws.specs.Leaks.{GoalLaw};
ghost use Rattle.formula_laws.specs.Labelled.{LabelsLaw, NodeConesLaw, EmptyClauseLaw};
ghost use Rattle.formula_laws.specs.Sizes.{NeedLaw};
ghost use Rattle.formula_laws.specs.Laws.{FindingLaw, ModelLaw, RangeLaw, InRunLaw};

use circuit_clauses::clauses_law;
use node_laws::{complete_law, reads_law, sound_law};
use probe_laws::{complete_probes_law, orderly_law, reads_probes_law, sound_probes_law};

/// What the clauses about probes choose are the probes and the pairs of a candidate, and each of these is chosen.
pub fn probes_law()
    ensures { ProbesLaw }
{}

/// The nodes of chosen pairs are weighed: their sum is the pairs' set.
pub fn weights_law()
    ensures { WeightsLaw }
{}

/// The clauses of the goal hold exactly where the set that the labels' variables tell shows a leak.
pub fn goal_law()
    ensures { GoalLaw }
{}

/// The labels with variables are those in the cones of all probes.
pub fn labels_law()
    ensures { LabelsLaw }
{}

/// The sets of a selection of nodes lie in the nodes' cones.
pub fn node_cones_law()
    ensures { NodeConesLaw }
{}

/// A formula without the empty clause is that of a covered run.
pub fn empty_clause_law()
    ensures { EmptyClauseLaw }
{
    labels_law(); // the labels with variables are those that probes can show
}

/// Each model of a formula reads as a finding.
pub fn finding_law()
    ensures { FindingLaw }
{
    clauses_law(); // values meet the clauses of steps exactly where every step holds
    sound_probes_law(); // what the clauses about probes choose
    sound_law(); // what those about nodes choose, and their sum
    probes_law(); // the choice is that of a candidate
    weights_law(); // the sum is the pairs' set
    goal_law(); // the goal says that the set shows a leak
    labels_law(); // the labels with variables
    node_cones_law(); // sets have no others
}

/// Where a try that is free at nodes that matter alone shows a leak, there is a model.
pub fn model_law()
    ensures { ModelLaw }
{
    clauses_law(); // values meet the clauses of steps exactly where every step holds
    sound_probes_law(); // what the clauses about probes choose
    sound_law(); // what those about nodes choose, and their sum
    probes_law(); // a candidate's probes and pairs are such a choice
    weights_law(); // the sum is the pairs' set
    goal_law(); // the goal says that the set shows a leak
    labels_law(); // the labels with variables
    node_cones_law(); // sets have no others
    orderly_law(); // the cells stand in order
    complete_probes_law(); // each choice of probes and pairs is met by some values
    reads_probes_law(); // which later variables do not change
    complete_law(); // and each choice of nodes is told by some that go on from these
}

/// The clauses of a formula have its variables alone.
pub fn range_law()
    ensures { RangeLaw }
{
    weights_law(); // the weights are signals of earlier variables
    reads_probes_law(); // the steps about probes read earlier variables alone
    reads_law(); // and so do those about nodes
}

/// What a model reads as names bits and labels of the run.
pub fn in_run_law()
    ensures { InRunLaw }
{
    clauses_law(); // values meet the clauses of steps exactly where every step holds
    sound_probes_law(); // probes and pairs are bits of the run
}

/// The formula of a run has at most 32 variables and 64 clauses for each unit of the run's need, and 64 more.
pub fn need_law()
    ensures { NeedLaw }
{
    labels_law(); // the labels with variables lie in cones
}
