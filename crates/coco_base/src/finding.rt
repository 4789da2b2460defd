use crate::label_set::LabelSet;
use crate::list::List;

/// A bit in a cycle: a place to probe, or a leaf that a probe shows.
#[derive(Clone, Copy, Debug, PartialEq, Eq)]
pub struct Probe {
    pub bit: u32,
    pub cycle: u32,
}

/// For each node of an unrolled run the inputs that a gate's set is taken from: bit j of a choice stands for place j.
#[derive(Debug, Drop)]
pub struct Selection {
    pub choices: List<u8>,
}

/// Why a run is rejected: probes, pairs of leaf and cycle that they show, a selection, and the set of labels that the
/// pairs have by it.
#[derive(Debug, Drop)]
pub struct Finding {
    pub probes: List<Probe>,
    pub seen: List<Probe>,
    pub selection: Selection,
    pub set: LabelSet,
}
