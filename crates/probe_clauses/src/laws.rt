//! The law of the size of the clauses about probes; it is the contract of a function that does nothing.
ghost use Rattle.probe_clauses.specs.Laws.{SizeLaw};

/// For an order of at least 1, the clauses about probes and their variables are bounded by bits, cycles and order.
pub fn size_law()
    ensures { SizeLaw }
{}
