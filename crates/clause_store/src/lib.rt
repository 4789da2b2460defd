//! Clauses by number, derivations over them, and the definitions of when a line of a derivation is valid and new.
//!
//! Variables and clauses are numbered from 0. The clauses of a derivation's lines are numbered on from those of its
//! store: with `n` clauses in the store, line `k` (from 0) has number `n + k`.
#![tactic(auto)]

pub mod laws;
pub mod line;
pub mod lit;
pub mod named;
pub mod store;
#[cfg(test)]
mod tests;

pub use laws::signs_tell_clauses;
pub use line::{Cut, Derivation, Line};
pub use lit::{Lit, is_ascending};
pub use named::clause_at;
pub use store::Store;
