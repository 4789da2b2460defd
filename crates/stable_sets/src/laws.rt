//! A law of calm rows, the contract of a function that does nothing.
ghost use Rattle.stable_sets.specs.Reached.{ReachLaw};

/// Calm rows of a graph have a reach, so that what is told of a finding for every reach says something.
pub fn reach_law()
    ensures { ReachLaw }
{}
