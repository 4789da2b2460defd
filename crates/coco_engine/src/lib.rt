//! The top calls of Coco: from the bytes of a netlist, a label file and a program to a verdict and its report.
#![tactic(auto)]

mod files;
mod judging;
mod reading;
mod run;
mod writing;

pub use judging::{Judged, judge};
pub use refusal_lines::{Refusal, Stop};
pub use run::{Ran, check_run};
pub use run_inputs::Inputs;

#[cfg(test)]
mod fault_tests;
#[cfg(test)]
mod memory_tests;
#[cfg(test)]
mod refusal_tests;
#[cfg(test)]
mod row_tests;
#[cfg(test)]
mod tests;
