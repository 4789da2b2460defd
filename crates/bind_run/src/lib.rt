//! Binding: what the lines of a label file say of the bits of a netlist, as the setup of a run.
#![tactic(auto)]

mod binding;
mod bound;
mod circuit;
mod controls;
mod copies;
mod fault;
mod inputs;
mod items;
mod leaf_name;
mod lines;
mod masks;
mod memories;
mod names;
mod need;
mod net_word;
mod nets;
mod reads;
mod starts;
mod values;
mod widening;
mod word_plans;

pub use binding::bind;
pub use fault::BindFault;
pub use widening::widen;

#[cfg(test)]
mod row_tests;
#[cfg(test)]
mod tests;
