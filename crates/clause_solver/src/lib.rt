//! A search by learnt clauses for values that meet all clauses of a store. It answers such values, or a derivation of
//! the empty clause, or as many lines of a derivation as it was given steps.
//!
//! Each clause is watched by two of its literals, and propagation goes along the trail, over the clauses that are
//! watched by what became false. Then a picker chooses the next variable, which is set to false. From a clause that is
//! false comes a line of the derivation, at the first point where one literal alone stands for the last decision, and
//! the search goes on from the level where that line forces a literal.
#![tactic(auto)]

mod analysis;
mod entries;
mod jump;
pub mod laws;
mod marks;
pub mod outcome;
mod propagate;
pub mod restarts;
mod search;
mod solver;
mod standing;
#[cfg(test)]
mod tests;
mod trail;
mod turn;
mod watches;

pub use laws::{few_lines, none_after_empty};
pub use outcome::Outcome;
pub use restarts::luby;
pub use solver::{solve, solve_list};
