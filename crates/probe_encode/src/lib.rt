//! The formula of a run: it has a model exactly where a try of the order shows a leak.
#![tactic(auto)]

pub mod coded;
mod finding;
mod goal;
pub mod goal_list;
mod labels;
pub mod laws;
pub mod source;
mod weights;
mod whole;

pub use coded::{Encoded, encode};
pub use laws::fit_law;
