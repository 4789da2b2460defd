use clause_store::Derivation;
use coco_base::{Finding, List};

/// What a run is judged to be.
#[derive(Debug, Drop)]
pub enum Answer {
    /// No probes see a secret: the derivation refutes that some do.
    Accepted(Derivation),
    /// Some probes see a secret.
    Rejected(Finding),
    /// The search was given up; these are the lines that it made.
    Undecided(Derivation),
}

/// What a run was called with: how many probes, how many cycles each lasts, how many cycles are run, and how many steps
/// the search may take. `pcs` has the address of the instruction in each cycle, and is empty where no net tells it.
#[derive(Debug, Drop)]
pub struct Facts {
    pub order: u32,
    pub window: u32,
    pub cycles: u32,
    pub steps: u64,
    pub pcs: List<u32>,
}
