/// What drives a bit, by its place in the flat netlist's list of ports, cells or flops.
#[derive(Clone, Copy, Debug, PartialEq, Eq)]
pub enum Driver {
    Port(u32),
    Cell(u32),
    Flop(u32),
    Nothing,
}

/// A bit with what drives it at one place.
#[derive(Clone, Copy, Debug)]
pub(crate) struct Driving {
    pub bit: u32,
    pub driver: Driver,
}
