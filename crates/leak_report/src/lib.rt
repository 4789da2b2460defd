//! The report of a run as text.
#![tactic(auto)]

pub mod answer;
mod finding;
mod labels;
mod report;
pub mod text;

pub use answer::{Answer, Facts};
pub use report::{is_in_range, text_of};

#[cfg(test)]
mod tests;
