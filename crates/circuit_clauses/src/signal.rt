ghost use Rattle.std.specs.Prelude.{◌≡◌};
ghost use Rattle.circuit_clauses.specs.Signals.{negated};

use clause_store::Lit;

/// A bit that a formula speaks of: a constant, or what a literal says of its variable.
#[derive(Clone, Copy, Debug, PartialEq, Eq)]
pub enum Signal {
    Constant(bool),
    Literal(Lit),
}

/// The signal that is always false.
pub const FALSE: Signal = Signal::Constant(false);

/// The signal that is always true.
pub const TRUE: Signal = Signal::Constant(true);

impl Signal {
    /// The signal that is true where this one is false.
    pub fn negated(self) -> Signal
        ensures { result ≡ negated self }
    {
        match self {
            Signal::Constant(bit) => Signal::Constant(!bit),
            Signal::Literal(lit) => Signal::Literal(Lit {
                var: lit.var,
                positive: !lit.positive,
            }),
        }
    }
}
