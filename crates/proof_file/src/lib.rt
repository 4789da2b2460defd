//! Compares the head of a proof file, line by line, with what it has to be.
#![tactic(auto)]

mod head;

pub use head::rest_after;

#[cfg(test)]
mod tests;
