use coco_base::{FlatNet, List, Text, Wire};

/// Which way a port goes.
#[derive(Clone, Copy, Debug, PartialEq, Eq)]
pub enum Direction {
    Input,
    Output,
    Inout,
}

/// A port of a module, its wires by the numbers of the file.
#[derive(Debug, Drop)]
pub struct SourcePort {
    pub name: Text,
    pub direction: Direction,
    pub wires: List<Wire>,
}

/// A cell of a module: its type, and what each of its ports is tied to.
#[derive(Debug, Drop)]
pub struct SourceCell {
    pub name: Text,
    pub kind: Text,
    pub connections: List<FlatNet>,
}

/// A module of the file, its parts in order of names.
#[derive(Debug, Drop)]
pub struct Source {
    pub ports: List<SourcePort>,
    pub cells: List<SourceCell>,
    pub nets: List<FlatNet>,
}
