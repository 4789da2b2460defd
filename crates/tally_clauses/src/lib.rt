//! Tallies over signals, up to a limit: "at least 1", "at least 2" and so on of some signals are true; and the clauses
//! that say that not more than the limit are.
#![tactic(auto)]

pub mod laws;
mod merge;
pub mod tally;
#[cfg(test)]
mod tests;

pub use laws::{limit_law, merge_law, merge_limit_law, size_law, tally_law};
pub use tally::{can_tally, tally_of};
