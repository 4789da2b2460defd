//! A law of levels; it is the contract of a function that does nothing.
ghost use Rattle.gate_graph.specs.Laws.{OneLevelLaw};

/// A bit has at most one level where no bit has two drivers.
pub fn one_level_law()
    ensures { OneLevelLaw }
{}
