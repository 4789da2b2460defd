//! The gate graph of a flat netlist: what drives each bit, an order of the cells without loops, and the settled valuation.
#![tactic(auto)]

mod building;
mod clock;
mod copies;
mod driver;
mod fault;
mod graph;
pub mod laws;
mod levels;
mod mark;
mod names;
mod places;
mod range;
mod ranks;
mod settle;
mod step;
mod table;
#[cfg(test)]
mod tests;
mod walk;
mod wires;

pub use building::build;
pub use driver::Driver;
pub use fault::GraphFault;
pub use graph::Graph;
pub use range::can_build;
pub use settle::cell_value;
