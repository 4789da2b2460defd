//! Why a call is refused: the faults of all layers as one type, and the line that says which it is.
#![tactic(auto)]

mod faults;
mod lines;
mod refusal;
mod stop;

pub use lines::refusal_line;
pub use refusal::Refusal;
pub use stop::Stop;

#[cfg(test)]
mod tests;
