use circuit_clauses::Signal;
use coco_base::List;

/// What a pair needs: by cycle and bit, whether some active probe reaches it; by bit, whether it is near a chosen
/// group; and by cycle, whether some probe is active.
#[derive(Debug, Drop)]
pub(crate) struct Shown {
    pub reached: List<List<Signal>>,
    pub near: List<Signal>,
    pub hot: List<Signal>,
}
