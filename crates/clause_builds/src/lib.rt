//! Builds: what is made in steps of a formula, by the next variable, and the calls that make it.
#![tactic(auto)]

pub mod rows;

pub use rows::{count_up, fresh_row, or_into, signal_at, xor_into};
