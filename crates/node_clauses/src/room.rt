ghost use Rattle.std.specs.Prelude.{◌≡◌, List, length, IsTrue};
ghost use Rattle.std.specs.List.Sorted.{IsStrictlyIncreasing};
ghost use Rattle.circuit_clauses.specs.declared.signal.Signal.{Signal};
ghost use Rattle.circuit_clauses.specs.Formulas.{Fits};
ghost use Rattle.clause_builds.specs.Builds.{after};
ghost use Rattle.node_clauses.specs.Sums.{NodeRun, node_sums};

use circuit_clauses::Form;

/// The most variables and clauses that a node takes.
const NODE_VARS: u64 = 8;

const NODE_DEMANDS: u64 = 40;

/// The most variables and clauses of a formula.
const VARS: u64 = 1 << 30;

const CLAUSES: u64 = 1 << 31;

/// Whether a formula surely has room for the clauses of so many nodes. It takes no memory.
pub fn can_sum(form: &Form, nodes: u32) -> bool
    ensures { IsTrue result → (run : NodeRun) (weights : List Signal) → length run.nodes ≡ nodes
        → Fits (after form.now (node_sums run weights)) }
{
    let vars = u64::from(form.vars()) + u64::from(nodes) * NODE_VARS;
    let clauses = u64::from(form.store().count()) + u64::from(nodes) * NODE_DEMANDS;
    vars <= VARS && clauses <= CLAUSES
}

/// Whether labels ascend, each above the one before. It takes no memory.
pub fn are_ascending(labels: &[u32]) -> bool
    ensures { IsTrue result → IsStrictlyIncreasing labels.now }
{
    'labels: for place in 1..labels.len() {
        if labels[place] <= labels[place - 1] {
            return false;
        }
    }
    true
}
