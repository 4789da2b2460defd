//! Label files: which bits of a netlist carry the shares of secrets and the bits of masks.
#![tactic(auto)]

mod addresses;
mod cause;
mod fault;
mod form;
mod label_word;
mod line;
mod names;
mod numbers;
mod operand;
mod read;
mod reading;
mod statement;
mod values;

pub use fault::LabelFault;
pub use line::{LabelLine, LabelValue, Labels};
pub use read::read_labels;

#[cfg(test)]
mod row_tests;
#[cfg(test)]
mod tests;
