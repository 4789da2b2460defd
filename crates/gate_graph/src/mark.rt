/// What is known of a cell while levels are given.
#[derive(Clone, Copy, Debug, PartialEq, Eq)]
pub(crate) enum Mark {
    New,
    /// The walk has met the cell, and has not left it.
    Walked,
    Level(u32),
}

/// What a walk does at a cell: on to a new cell that drives an input, to one that the walk has met, or back with the
/// cell's level.
#[derive(Clone, Copy, Debug)]
pub(crate) enum Step {
    Down(u32),
    Closed(u32),
    Up(u32),
}

/// The cells of a walk that came back to the one at the place `entry`.
#[derive(Debug, Drop)]
pub(crate) struct ClosedPath {
    pub path: Vec<u32>,
    pub entry: usize,
}
