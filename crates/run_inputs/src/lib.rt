//! From the bytes of a netlist, a label file and a program to a run that may be simulated.
#![tactic(auto)]

mod inputs;
mod prepared;
mod program;

pub use inputs::Inputs;
pub use prepared::{Prepared, prepare};

#[cfg(test)]
mod tests;
