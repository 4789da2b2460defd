//! The clauses about probes and pairs: groups, what is near them, probes, windows, what is reached, and pairs.
#![tactic(auto)]

mod counted;
mod groups;
pub mod laws;
mod links;
#[cfg(test)]
mod one_cycle;
mod pairs;
pub mod part;
mod probes;
pub mod query;
mod reach;
pub mod room;
pub mod run;
mod shown;
#[cfg(test)]
mod tests;
mod walks;
mod windows;

pub use laws::size_law;
pub use part::{ProbePart, probe_part};
pub use query::Query;
pub use room::can_add_probes;
pub use run::ProbedRun;
