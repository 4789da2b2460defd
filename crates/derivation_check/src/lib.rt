//! Checks derivations, drops the lines that they do not need, prints them and the clauses that they start from, and reads
//! them.
#![tactic(auto)]

mod chain;
mod items;
pub mod laws;
mod line;
mod marks;
pub mod print;
pub mod read;
mod reader;
#[cfg(test)]
mod tests;
pub mod trim;
mod used;
pub mod verdict;

pub use laws::refutations_are_sound;
pub use print::{print_derivation, print_formula};
pub use read::{ProofFault, read_derivation};
pub use trim::trimmed;
pub use verdict::{Verdict, check};
