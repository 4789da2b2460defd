//! The calm rows and the program counters of a run that has no fault, by one simulation.
#![tactic(auto)]

mod laws;
mod rows;

pub use laws::run_rows_law;
pub use rows::{RunRows, rows_of};
