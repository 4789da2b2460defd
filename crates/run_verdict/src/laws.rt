//! The laws of written formulas, each a call without effect whose clause says it.
ghost use Rattle.run_verdict.specs.Laws.{MeaningLaw, SolvableLaw};

use formula_laws::{empty_clause_law, finding_law, in_run_law, model_law, range_law};
use model_laws::{cones_law, meaning_law as run_meaning_law, unrolled_run_law};
use probe_encode::fit_law;
use walsh_laws::{in_time_law, needed_try_law, no_finding_law, try_finds_law};

/// A written formula has a model exactly where a finding exists, and each model reads as one; without a model the run
/// is secure; and without the empty clause it is covered.
pub fn meaning_law()
    ensures { MeaningLaw }
{
    finding_law(); // each model reads as a finding value
    in_run_law(); // with bits and labels of the run
    model_law(); // where a try shows a leak there is a model
    empty_clause_law(); // without the empty clause, all shares of some secret bit are probed
    needed_try_law(); // where a finding exists, so does a try
    try_finds_law(); // a written finding is a finding
    no_finding_law(); // without a finding the run is secure
    in_time_law(); // a secure run is so in time
    run_meaning_law(); // runs and reaches exist
    unrolled_run_law(); // the nodes stand for the roots of the run
    cones_law(); // the cones of nodes are those of their roots
}

/// A written formula has few enough variables and clauses, and its clauses have no other variables.
pub fn solvable_law()
    ensures { SolvableLaw }
{
    fit_law(); // the formula of a run within the limits fits
    range_law(); // its clauses have its variables alone
}
