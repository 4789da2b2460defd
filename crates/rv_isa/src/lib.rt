//! RV32I: the words of its instructions, and what one instruction does.
//!
//! Tables, formats and meanings are those of the RISC-V Instruction Set Manual, Volume I: Unprivileged
//! Architecture, chapter "RV32I Base Integer Instruction Set". Of `fence` the crate knows one word alone.
//! No call takes memory.
#![tactic(auto)]

mod decoding;
mod encoding;
mod execution;
mod fields;
mod functions;
mod instruction;

pub use decoding::decode;
pub use encoding::{encode, fits, words_are_distinct};
pub use execution::{Access, IsaState, request, step};
pub use instruction::{BranchOp, ImmOp, Instr, LoadOp, RegOp, StoreOp};

#[cfg(test)]
mod tests;
