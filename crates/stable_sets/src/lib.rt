//! Selections of nodes and the sets that they give, and whether a value is a finding.
#![tactic(auto)]

mod choice;
mod finding;
pub mod laws;
mod order;
mod pairs;
mod sets;
#[cfg(test)]
mod tests;
mod whole;

pub use choice::allowed;
pub use finding::{Rows, is_bad};
pub use sets::follow;
