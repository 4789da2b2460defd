//! The law of the one schedule that settles a cycle; it is the contract of a function that does nothing.
ghost use Rattle.glitch_world.specs.Laws.{ScheduleLaw};

/// The events of all leaves and then of all cells by rank end in the settled valuation of the new leaves, which
/// `Graph::settle` writes.
pub fn schedule_law()
    ensures { ScheduleLaw }
{}
