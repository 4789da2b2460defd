use clause_store::Derivation;
use coco_base::List;

/// What a solver answers.
#[derive(Debug, Drop)]
pub enum Outcome {
    /// A value for each variable; they meet every clause.
    Satisfied(List<bool>),
    /// Valid and new lines, the last one empty; or no lines, where the store has the empty clause.
    Derived(Derivation),
    /// As many valid and new lines as there were steps, none empty.
    Spent(Derivation),
}
