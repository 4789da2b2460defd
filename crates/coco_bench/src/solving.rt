ghost use Rattle.std.specs.Prelude.{All, MatchBool, ⊤};
ghost use Rattle.clause_solver.specs.Propagation.{IsOver};

use crate::formula::Formula;
use clause_solver::{Outcome, solve};
use clause_store::{Lit, Store};
use coco_base::NoMemory;
use pickers::MostBumped;
use std::alloc::Global;
use std::fmt::{self, Display, Formatter, Write};

/// The most steps that are tried.
const STEPS: u64 = 1_000_000;

/// What came of a search, with the number of conflicts where it is known: each makes one line.
#[derive(Drop)]
pub(crate) enum Answer {
    Satisfied,
    Refuted(usize),
    Spent(usize),
    OutOfRange,
}

impl Display for Answer {
    fn fmt<W: Write>(&self, f: &mut Formatter<W>) -> fmt::Result {
        match self {
            Answer::Satisfied => write!(f, "satisfied"),
            Answer::Refuted(conflicts) => write!(f, "refuted, {conflicts} conflicts"),
            Answer::Spent(conflicts) => write!(f, "spent, {conflicts} conflicts"),
            Answer::OutOfRange => write!(f, "too many variables"),
        }
    }
}

/// Whether all variables of the clauses are below a number.
pub(crate) fn all_below(store: &Store, vars: u32) -> bool
    ensures { MatchBool result (All (IsOver vars) store.now) ⊤ }
{
    'clauses: for id in 0..store.count() {
        if !each_below(store.get(id), vars) {
            return false;
        }
    }
    true
}

fn each_below(clause: &[Lit], vars: u32) -> bool
    ensures { MatchBool result (IsOver vars clause.now) ⊤ }
{
    clause.iter().all(|lit| lit.var < vars)
}

/// Solves with the picker that takes the variable with most bumps.
pub(crate) fn search(alloc: Global, formula: &Formula) -> Result<Answer, NoMemory> {
    let vars = formula.vars;
    if vars > 1 << 30 || !all_below(&formula.store, vars) {
        return Ok(Answer::OutOfRange);
    }
    let picker = Box::new(alloc, MostBumped::new(alloc, vars)?)?;
    match solve(alloc, &formula.store, vars, STEPS, picker)? {
        Outcome::Satisfied(_) => Ok(Answer::Satisfied),
        Outcome::Derived(derivation) => Ok(Answer::Refuted(derivation.lines.len())),
        Outcome::Spent(derivation) => Ok(Answer::Spent(derivation.lines.len())),
    }
}
