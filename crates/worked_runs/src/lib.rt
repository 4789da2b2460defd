//! Whole runs of small circuits: a circuit of rows with its graph, and the setup that a label file and a program tell.
#![tactic(auto)]

mod fault;
mod ready;

pub use fault::RunFault;
pub use ready::{Ready, run_of};

#[cfg(test)]
mod calm_rows;
#[cfg(test)]
mod cone_rows;
#[cfg(test)]
mod known;
#[cfg(test)]
mod memory_rows;
#[cfg(test)]
mod node_rows;
#[cfg(test)]
mod nodes;
#[cfg(test)]
mod sim_rows;
