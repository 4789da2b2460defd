//! The law of the size of a formula; it is the contract of a function that does nothing.
ghost use Rattle.probe_encode.specs.Laws.{FitLaw};

/// The formula of a run within the limits has at most 2^30 variables and 2^31 clauses.
pub fn fit_law()
    ensures { FitLaw }
{}
