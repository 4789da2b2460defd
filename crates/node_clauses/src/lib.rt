//! The clauses of the nodes of a run: which choice each gate has, and which labels are in the sum of the sets of pairs.
#![tactic(auto)]

mod choices;
pub mod laws;
mod operands;
pub mod room;
mod selectors;
pub mod sums;

pub use laws::size_law;
pub use room::{are_ascending, can_sum};
pub use sums::{NodeSums, Nodes, node_sums};

#[cfg(test)]
mod tests;
