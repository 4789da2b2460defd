//! Programs for RV32I as images of words, from assembly and from files of words.
#![tactic(auto)]

mod fault;
mod image;
mod laws;
mod layout;
mod line;
mod lists;
#[cfg(test)]
mod tests;

pub use fault::AsmFault;
pub use image::Image;
pub use image::assembler::assemble;
pub use image::word_file::read_words;
pub use laws::numbers_are_put_law;
