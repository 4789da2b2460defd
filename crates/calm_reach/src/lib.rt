//! What keeps still while a cycle settles, and the leaves that each bit reaches through inputs that may change it.
#![tactic(auto)]

mod building;
mod calm;
mod masks;
mod met;
mod row;
#[cfg(test)]
mod tests;
mod walk;
mod wires;

pub use building::calm_row;
pub use row::CalmRow;
