//! The plain types that all crates of Coco share: netlists, setups of runs, unrolled runs, findings, and the
//! sources and sinks through which a program meets the outside.
#![tactic(auto)]

pub mod cell;
pub mod fault;
pub mod finding;
pub mod folder_shelf;
pub mod label_set;
pub mod labels;
pub mod limits;
pub mod lines;
pub mod list;
pub mod mem_file;
pub mod mem_shelf;
pub mod mem_sink;
pub mod names;
pub mod netlist;
pub mod number;
pub mod out_sink;
pub mod setup;
pub mod shelf;
pub mod sink;
pub mod status;
pub mod text;
pub mod unrolled;

pub use cell::{Kind, Part};
pub use fault::{Failed, NoMemory};
pub use finding::{Finding, Probe, Selection};
pub use folder_shelf::FolderShelf;
pub use label_set::LabelSet;
pub use labels::{LabelTable, MaskPlan, SecretPlan};
pub use limits::Limits;
pub use lines::{next_line, words};
pub use list::List;
pub use mem_file::MemFile;
pub use mem_shelf::MemShelf;
pub use mem_sink::MemSink;
pub use names::{name_of_bit, names_of_bits};
pub use netlist::{Flat, FlatCell, FlatFlop, FlatNet, FlatPort, Wire};
pub use number::{NumberFault, are_digits, literal_of, number_of};
pub use out_sink::OutSink;
pub use setup::{
    ControlPlan, EchoPlan, InputPlan, LeafPlan, MemPlan, Setup, Start, When, WordPlan,
};
pub use shelf::Shelf;
pub use sink::Sink;
pub use status::Status;
pub use text::Text;
pub use unrolled::{Node, Unrolled};

#[cfg(test)]
mod name_tests;
#[cfg(test)]
mod tests;
