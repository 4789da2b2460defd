ghost use Rattle.std.specs.Prelude.{◌≡◌, ◌<◌, ◌≤◌, length, take, IfOk};
ghost use Rattle.coco_base.specs.declared.limits.Limits.{Limits};
ghost use Rattle.run_verdict.specs.Laws.{CanBeSolved, IsWrittenRun};
ghost use Rattle.run_verdict.specs.Verdicts.{IsVerdict};
ghost use Rattle.run_verdict.specs.declared.formula.Asked.{Asked};
ghost use Rattle.coco_base.specs.declared.setup.Setup.{Setup};
ghost use Rattle.gate_graph.specs.Graphs.{Gates};

use crate::laws::meaning_law;
use clause_solver::{Outcome, solve_list};
use coco_base::NoMemory;
use derivation_check::{refutations_are_sound, trimmed};
use leak_report::Answer;
use pickers::Picker;
use probe_encode::Encoded;
use std::alloc::Global;

/// How many lines a search may derive, and how many its shortest run between two restarts; each is from 1 to
/// 1,000,000,000.
#[derive(Clone, Copy, Debug, PartialEq, Eq)]
pub struct Search {
    pub steps: u64,
    pub restart: u64,
}

/// The answer to the formula of a run, by a search with these pickers: accepted where it has no model, rejected with
/// the finding that a model reads as, and undecided where the steps are spent.
pub fn decide(
    alloc: Global,
    encoded: &Encoded,
    search: Search,
    pickers: &mut Vec<Box<dyn Picker>>,
) -> Result<Answer, NoMemory>
    requires some { 1 ≤ search.steps }
    requires most { search.steps ≤ 1000000000 }
    requires restart { 1 ≤ search.restart }
    requires pickers { 0 < length pickers.old.items }
    requires written { CanBeSolved encoded.now }
    ensures verdict { IfOk result (λ answer. (gates : Gates) (setup : Setup) (asked : Asked) (limits : Limits)
        → IsWrittenRun gates setup asked limits encoded.now
        → IsVerdict gates.flat setup asked search.steps encoded.now answer) }
{
    meaning_law(); // what the formula means
    refutations_are_sound(); // a derivation of the empty clause leaves no model
    let store = encoded.store();
    match solve_list(
        alloc,
        store,
        encoded.vars(),
        search.steps,
        search.restart,
        pickers,
    )? {
        Outcome::Satisfied(model) => Ok(Answer::Rejected(encoded.finding(
            alloc,
            model.as_slice(),
        )?)),
        Outcome::Derived(derivation) => Ok(Answer::Accepted(trimmed(alloc, store, &derivation)?)),
        Outcome::Spent(derivation) => Ok(Answer::Undecided(derivation)),
    }
}
