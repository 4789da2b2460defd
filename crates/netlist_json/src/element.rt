use crate::cell_type::FlopType;
use coco_base::{FlatCell, Text, Wire};

/// A flop of a module before its multiplexers are made: what its ports D, C, E and R are tied to, 0 where it has no
/// such port, and the bit that it drives.
#[derive(Debug, Drop)]
pub struct Register {
    pub name: Text,
    pub kind: FlopType,
    pub next: Wire,
    pub clock: Wire,
    pub enable: Wire,
    pub reset: Wire,
    pub output: u32,
}

/// A cell of a module that is read.
#[derive(Debug, Drop)]
pub enum Element {
    Gate(FlatCell),
    Flop(Register),
}
