//! Unrolled runs: for each bit in each cycle a node that says where the bit's value comes from.
#![tactic(auto)]

mod cells;
mod copies;
mod counters;
mod cycle;
mod fault;
mod leaves;
mod memory;
mod naming;
mod origin;
mod parts;
mod place;
mod starts;
mod unrolling;

pub use counters::pcs_of;
pub use fault::UnrollFault;
pub use unrolling::unroll;

#[cfg(test)]
mod tests;
