//! Formulas that are built from gates over signals: each gate is a variable with the clauses that define it, and where
//! constants tell its value it is a signal that is there already.
#![tactic(auto)]

mod clauses;
pub mod form;
mod known;
pub mod laws;
pub mod signal;
#[cfg(test)]
mod tests;

pub use form::Form;
pub use laws::{clauses_law, evaluation_law, gates_law, size_law};
pub use signal::{FALSE, Signal, TRUE};
