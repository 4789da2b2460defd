//! The verdict on a run: its formula, and what the search over it answers.
#![tactic(auto)]

mod decision;
mod formula;
mod laws;

pub use decision::{Search, decide};
pub use formula::{Asked, Written, write_formula};
pub use laws::{meaning_law, solvable_law};
