//! A cycle as its gate events: one at a time, in any order, with repeats and omissions.
#![tactic(auto)]

pub mod laws;
#[cfg(test)]
mod tests;
mod world;

pub use world::{Event, World};
