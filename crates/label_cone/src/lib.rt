//! The cones of an unrolled run: for each node the labels that its sets can have, which nodes matter, and the weight.
#![tactic(auto)]

mod cones;
mod fault;
mod marks;
mod node_sets;
mod order;
mod weight;

pub use cones::{Cones, cone_of};
pub use fault::ConeFault;
pub use order::is_ordered_run;

#[cfg(test)]
mod tests;
