use crate::list::List;
use crate::text::Text;

/// A secret of `width` bits in `shares` shares. The label of share i of bit k is `first + i * width + k`, and the bit
/// is the exclusive or of its shares.
#[derive(Debug, Drop)]
pub struct SecretPlan {
    pub name: Text,
    pub width: u32,
    pub shares: u32,
    pub first: u32,
}

/// A mask of `width` bits. The label of bit k is `first + k`; of a fresh mask, which has new labels in each cycle,
/// `first` counts within the labels of a cycle.
#[derive(Debug, Drop)]
pub struct MaskPlan {
    pub name: Text,
    pub width: u32,
    pub first: u32,
}

/// The labels of a run: the first `declared` numbers are those of secrets and masks, and each cycle adds `per_cycle`
/// labels of fresh masks.
#[derive(Debug, Drop)]
pub struct LabelTable {
    pub secrets: List<SecretPlan>,
    pub masks: List<MaskPlan>,
    pub fresh: List<MaskPlan>,
    pub declared: u32,
    pub per_cycle: u32,
}
