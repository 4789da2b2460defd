ghost use Rattle.std.specs.Prelude.{◌≡◌};
ghost use Rattle.circuit_clauses.specs.Gates.{known_or, known_or_and, known_xor, known_xor_and};

use crate::signal::{Signal, TRUE};

/// `a` or (`p` and `b`), where a constant tells it.
pub(crate) fn known_or_and(a: Signal, p: Signal, b: Signal) -> Option<Signal>
    ensures { result ≡ known_or_and a p b }
{
    match (p, b) {
        (Signal::Constant(false), _) => Some(a),
        (Signal::Constant(true), _) => known_or(a, b),
        (Signal::Literal(_), Signal::Constant(false)) => Some(a),
        (Signal::Literal(_), Signal::Constant(true)) => known_or(a, p),
        (Signal::Literal(_), Signal::Literal(_)) => match a {
            Signal::Constant(true) => Some(TRUE),
            Signal::Constant(false) => None,
            Signal::Literal(_) => None,
        },
    }
}

/// `a` or `b`, where a constant tells it.
fn known_or(a: Signal, b: Signal) -> Option<Signal>
    ensures { result ≡ known_or a b }
{
    match (a, b) {
        (Signal::Constant(true), _) => Some(TRUE),
        (Signal::Constant(false), _) => Some(b),
        (Signal::Literal(_), Signal::Constant(true)) => Some(TRUE),
        (Signal::Literal(_), Signal::Constant(false)) => Some(a),
        (Signal::Literal(_), Signal::Literal(_)) => None,
    }
}

/// The exclusive or of `a` with (`p` and `b`), where a constant tells it.
pub(crate) fn known_xor_and(a: Signal, p: Signal, b: Signal) -> Option<Signal>
    ensures { result ≡ known_xor_and a p b }
{
    match (p, b) {
        (Signal::Constant(false), _) => Some(a),
        (Signal::Constant(true), _) => known_xor(a, b),
        (Signal::Literal(_), Signal::Constant(false)) => Some(a),
        (Signal::Literal(_), Signal::Constant(true)) => known_xor(a, p),
        (Signal::Literal(_), Signal::Literal(_)) => None,
    }
}

/// The exclusive or of `a` and `b`, where a constant tells it.
fn known_xor(a: Signal, b: Signal) -> Option<Signal>
    ensures { result ≡ known_xor a b }
{
    match (a, b) {
        (Signal::Constant(true), _) => Some(b.negated()),
        (Signal::Constant(false), _) => Some(b),
        (Signal::Literal(_), Signal::Constant(true)) => Some(a.negated()),
        (Signal::Literal(_), Signal::Constant(false)) => Some(a),
        (Signal::Literal(_), Signal::Literal(_)) => None,
    }
}
