//! Laws of the gates that hold for every kind; each is the contract of a function that does nothing.
ghost use Rattle.cell_table.specs.Laws.{ExpansionLaw, KnownIsNotLiveLaw, LiveDecideLaw, SumsAreLiveLaw};

/// The sign of the output is a sum of products of the inputs' signs, weighted by the signed sums.
pub fn expansion_law()
    ensures { ExpansionLaw }
{}

/// A gate whose output is known has no live input.
pub fn known_is_not_live_law()
    ensures { KnownIsNotLiveLaw }
{}

/// The output depends on the live inputs alone.
pub fn live_decide_law()
    ensures { LiveDecideLaw }
{}

/// A set of inputs at which the signed sum is not 0 has live inputs alone.
pub fn sums_are_live_law()
    ensures { SumsAreLiveLaw }
{}
