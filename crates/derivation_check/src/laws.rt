ghost use Rattle.derivation_check.specs.Laws.{RefutationsAreSound};

/// A law on checked derivations: where the verdict is `Empty`, no values of the variables meet every clause of the
/// store.
pub fn refutations_are_sound()
    ensures { RefutationsAreSound }
{}
