//! The table of gate cells: names, numbers of inputs, functions, and what follows where some inputs are known. Each
//! call takes a handful of steps and no memory.
#![tactic(auto)]

mod function;
mod kinds;
mod known;
pub mod laws;
mod places;
mod signed;
mod ternary;
#[cfg(test)]
mod tests;

pub use function::value;
pub use kinds::{inputs_of, kind_of};
pub use known::forced;
pub use places::live;
pub use signed::coefficient;
