//! The words of the three programs: what they mean, and their reading by `clap`.
#![tactic(auto)]

pub mod command;
mod matching;
mod reading;
pub mod table;
pub mod usage;

pub use command::{
    CheckRequest, Files, MadeRequest, RecheckRequest, Sizes, read_check, read_made, read_recheck,
};
pub use usage::Usage;

#[cfg(test)]
mod tests;
