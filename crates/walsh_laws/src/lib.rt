//! The laws of correlation and of counts: where no finding exists, equally many choices show each observation, whatever
//! the secrets are.
#![tactic(auto)]

ghost use Rattle.walsh_laws.specs.Laws.{CorrelationLaw, CountingLaw};
ghost use Rattle.walsh_laws.specs.Security.{RunCorrelationLaw, RunCountingLaw, NoFindingLaw, InTimeLaw};
ghost use Rattle.walsh_laws.specs.Covered.{OneFindingLaw, SelectionConeLaw, CoverLaw};
ghost use Rattle.walsh_laws.specs.Written.{WritingLaw, ReadingLaw};
ghost use Rattle.walsh_laws.specs.Unrolled.{SomeTryLaw, TryFindsLaw, LeastChoiceLaw, NeededTryLaw};

pub mod examples;

pub use model_laws::{calm_law, waveform_law};

/// Where nodes correlate with labels, some selection has these labels as the symmetric difference of the nodes' sets.
pub fn correlation_law()
    ensures { CorrelationLaw }
{}

/// Where no set of shown nodes correlates with secret bits, equally many choices give the nodes any values, whatever
/// the secrets are.
pub fn counting_law()
    ensures { CountingLaw }
{}

/// Where pairs of bit and cycle of a run correlate with labels, some selection has these labels as the pairs' set.
pub fn run_correlation_law()
    ensures { RunCorrelationLaw }
{}

/// Where what probes show correlates with no secret bits, equally many choices show any observation, whatever the
/// secrets are.
pub fn run_counting_law()
    ensures { RunCountingLaw }
{}

/// Where no finding of an order exists, the run is secure of this order.
pub fn no_finding_law()
    ensures { NoFindingLaw }
{}

/// A run that is secure of an order is so under every order of gate events.
pub fn in_time_law()
    ensures { InTimeLaw }
{}

/// Where a finding of an order exists, a written one does: with probes and pairs in ascending order, and a number for
/// each node that is 0 where the node is no gate.
pub fn writing_law()
    ensures { WritingLaw }
{}

/// A written finding is a finding.
pub fn reading_law()
    ensures { ReadingLaw }
{}

/// The sets of a selection lie in the cones of the roots.
pub fn selection_cone_law()
    ensures { SelectionConeLaw }
{}

/// Where a finding exists, it is one over what was simulated, with its reach and its roots.
pub fn one_finding_law()
    ensures { OneFindingLaw }
{}

/// A run with a finding is covered, so one that is not covered has none.
pub fn cover_law()
    ensures { CoverLaw }
{}

/// Where a finding of an order exists, a try over the unrolled run is one, whose nodes alone tell what is unknown.
pub fn some_try_law()
    ensures { SomeTryLaw }
{}

/// A written finding over the unrolled run is a finding.
pub fn try_finds_law()
    ensures { TryFindsLaw }
{}

/// Each node has a least choice: the sign of a gate's output does not vanish, so some signed sum does not.
pub fn least_choice_law()
    ensures { LeastChoiceLaw }
{}

/// Where a finding of an order exists, so does a try that chooses nothing but at nodes that matter and is one.
pub fn needed_try_law()
    ensures { NeededTryLaw }
{}
