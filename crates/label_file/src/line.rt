use coco_base::{LabelTable, List, Text};

/// A value: a number, or the `width` labels from number `first` on.
#[derive(Clone, Copy, Debug, PartialEq, Eq)]
pub enum LabelValue {
    Number(u32),
    Bits { first: u32, width: u32 },
}

/// A line of a label file.
#[derive(Debug, Drop)]
pub enum LabelLine {
    Version {
        number: u32,
    },
    Secret {
        name: Text,
        width: u32,
        shares: u32,
    },
    Mask {
        name: Text,
        width: u32,
    },
    Fresh {
        net: Text,
        name: Text,
    },
    Reg {
        net: Text,
        value: LabelValue,
    },
    Input {
        net: Text,
        values: List<LabelValue>,
    },
    Mem {
        address: u32,
        value: LabelValue,
    },
    Leaf {
        address: u32,
    },
    Echo {
        net: Text,
        source: Text,
    },
    Clock {
        net: Text,
    },
    Imem {
        request: Text,
        address: Text,
        answer: Text,
    },
    Dmem {
        request: Text,
        write: Text,
        enables: Text,
        address: Text,
        value: Text,
        answer: Text,
    },
    Control {
        net: Text,
    },
    Pc {
        net: Text,
    },
}

/// The lines of a label file, and the labels that they declare. Nothing of a netlist is known here: the fresh masks of
/// the table are added where the widths of their nets are.
#[derive(Debug, Drop)]
pub struct Labels {
    pub lines: List<LabelLine>,
    pub table: LabelTable,
}
