//! The premises of the laws at a small run.
ghost use Rattle.node_laws.specs.Laws.{IsWeighed};
ghost use Rattle.node_laws.specs.Examples.{and_run, flop_weights};

/// The laws speak of a run with a gate that matters and a flop that is weighed.
pub fn weighed_flop()
    ensures { IsWeighed and_run flop_weights }
{}
