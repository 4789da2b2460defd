//! The simulation of what is known of each bit of a run, cycle by cycle: each bit is 0, 1 or unknown.
#![tactic(auto)]

mod checks;
mod cycle;
mod fault;
mod leaves;
mod memory;
mod parts;
mod settle;
mod sim;

pub use fault::SimFault;
pub use sim::Sim;
