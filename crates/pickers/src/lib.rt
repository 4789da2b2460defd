//! Pickers: which variable a search decides on next.
#![tactic(auto)]

pub mod first;
pub mod last;
pub mod listed;
pub mod most;
pub mod picker;
mod ranking;
pub mod seeded;
#[cfg(test)]
mod tests;
mod tree;

pub use first::FirstOpen;
pub use last::LastBumped;
pub use listed::Listed;
pub use most::MostBumped;
pub use picker::Picker;
pub use seeded::Seeded;
