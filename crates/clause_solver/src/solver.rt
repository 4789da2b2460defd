ghost use Rattle.std.specs.Prelude.{◌≡◌, ◌≢◌, ℕ, ◌+◌, ◌-◌, ◌<◌, ◌≤◌, ◌^◌, List as Items, [], length, take, false, All, Contains, MatchBool, IfOk, slice_index, slice_index_or, unwrap_or};
ghost use Rattle.clause_store.specs.declared.lit.Lit.{Lit as StoredLit};
ghost use Rattle.clause_store.specs.Signs.{Ascends, sign_of};
ghost use Rattle.clause_solver.specs.Outcomes.{IsOutcome, CanBeSpent};
ghost use Rattle.clause_solver.specs.Propagation.{IsOver};
ghost use Rattle.clause_solver.specs.Restarts.{AreLeft, IsCurrent, IsPlanned, TakesOthers, TakesPickers};
ghost use Rattle.clause_solver.specs.Turns.{IsGoing};

use crate::outcome::Outcome;
use crate::restarts::Plan;
use crate::trail::Trail;
use crate::turn::{State, Turn, begin_anew, refute, take_turn, watch_store};
use clause_store::{Derivation, Store};
use coco_base::{List, NoMemory};
use pickers::Picker;
use std::alloc::Global;

/// Whether some clause is empty.
fn has_empty(store: &Store) -> bool
    ensures found { MatchBool result (Contains store.now []) (All (λ c. c ≢ []) store.now) }
    ensures ascending { All Ascends store.now }
{
    'seeking: for id in 0..store.count() {
        if store.get(id).is_empty() {
            return true;
        }
    }
    false
}

/// The values of all variables; one that is not set is false.
fn values_of(alloc: Global, trail: &Trail) -> Result<List<bool>, NoMemory>
    ensures len { IfOk result (λ values. length values ≡ trail.now.vars) }
    ensures values { IfOk result (λ values. (v : ℕ) → v < trail.now.vars
        → slice_index_or values v false ≡ unwrap_or (sign_of trail.now.lits v) false) }
{
    let mut values = List::new(alloc);
    'valuing: for var in 0..trail.vars() {
        values.push(trail.value(var).unwrap_or(false))?;
    }
    Ok(values)
}

/// Takes the last of some pickers, where one is left.
fn take_next(picker: &mut Box<dyn Picker>, others: &mut Vec<Box<dyn Picker>>)
    ensures { AreLeft others.old.items 1 others.new.items }
{
    match others.pop() {
        Some(next) => {
            *picker = next;
        }
        None => {}
    }
}

/// Begins anew where that is due after this number of lines: takes back all decisions, and takes the next picker.
fn restart_where_due(
    plan: &mut Plan,
    count: u64,
    state: &mut State,
    picker: &mut Box<dyn Picker>,
    others: &mut Vec<Box<dyn Picker>>,
)
    requires every { 0 < plan.old.every }
    requires distance { plan.old.every ≤ 1000000000 }
    requires count { count < 1000000000 }
    requires planned { IsPlanned plan.old.every plan.old.restarts plan.old.next count }
    requires bounded { (k : ℕ) → k < length state.old.trail.starts
        → slice_index state.old.trail.starts k < length state.old.trail.lits }
    ensures current { IsCurrent plan.old.every plan.new.restarts plan.new.next count }
    ensures every { plan.new.every ≡ plan.old.every }
    ensures grows { plan.old.restarts ≤ plan.new.restarts }
    ensures going { (store : Items (Items StoredLit)) → IsGoing store state.old → IsGoing store state.new }
    ensures lines { state.new.lines ≡ state.old.lines }
    ensures vars { state.new.trail.vars ≡ state.old.trail.vars }
    ensures left { AreLeft others.old.items (plan.new.restarts - plan.old.restarts) others.new.items }
{
    if !plan.is_due(count) {
        return;
    }
    begin_anew(state);
    take_next(picker, others);
}

/// Searches with a picker, and after each restart with the next of some others, which are taken from their end.
fn search_lines(
    alloc: Global,
    store: &Store,
    vars: u32,
    steps: u64,
    every: u64,
    picker: Box<dyn Picker>,
    others: &mut Vec<Box<dyn Picker>>,
) -> Result<Outcome, NoMemory>
    requires range { All (IsOver vars) store.now }
    requires vars { vars ≤ 2 ^ 30 }
    requires some { 0 < steps }
    requires most { steps ≤ 1000000000 }
    requires every { 0 < every }
    requires distance { every ≤ 1000000000 }
    ensures outcome { IfOk result (IsOutcome store.now vars steps) }
    ensures spent { IfOk result (CanBeSpent store.now vars steps) }
    ensures left { others.new.items ≡ take (length others.new.items) others.old.items }
    ensures taken { IfOk result (TakesOthers every (length others.old.items) (length others.new.items)) }
{
    let mut plan = Plan::new(every);
    let mut picker = picker;
    if has_empty(store) {
        return Ok(Outcome::Derived(Derivation {
            lines: List::new(alloc),
        }));
    }
    let mut state = State::new(alloc, vars)?;
    match watch_store(&mut state.trail, &mut state.watches, store)? {
        Some(id) => {
            refute(alloc, store, &mut state, id)?;
            let State { lines, .. } = state;
            return Ok(Outcome::Derived(Derivation { lines }));
        }
        None => {}
    }
    'stepping: for count in 0..steps {
        restart_where_due(&mut plan, count, &mut state, &mut picker, others);
        match take_turn(alloc, store, &mut state, &mut picker)? {
            Turn::Met => return Ok(Outcome::Satisfied(values_of(alloc, &state.trail)?)),
            Turn::Refuted => {
                let State { lines, .. } = state;
                return Ok(Outcome::Derived(Derivation { lines }));
            }
            Turn::Learnt => {}
        }
    }
    let State { lines, .. } = state;
    Ok(Outcome::Spent(Derivation { lines }))
}

/// Searches for values that meet every clause of the store, by a derivation of at most `steps` lines.
///
/// Where nothing is left to propagate, the variable that the picker answers is set to false. The picker is told of each
/// variable that is cut for a line that is not empty, and of no others, and is dropped at the end. One line counts as
/// one step.
pub fn solve(
    alloc: Global,
    store: &Store,
    vars: u32,
    steps: u64,
    picker: Box<dyn Picker>,
) -> Result<Outcome, NoMemory>
    requires range { All (IsOver vars) store.now }
    requires vars { vars ≤ 2 ^ 30 }
    requires some { 0 < steps }
    requires most { steps ≤ 1000000000 }
    ensures outcome { IfOk result (IsOutcome store.now vars steps) }
    ensures spent { IfOk result (CanBeSpent store.now vars steps) }
{
    let mut others = Vec::new(alloc);
    search_lines(alloc, store, vars, steps, steps, picker, &mut others)
}

/// The same, with restarts. Pickers are taken from the end of the list, the first one at once.
///
/// Before the line after `every` times the sum of the first j numbers of the Luby sequence, for each j from 1, all
/// decisions are taken back. The picker is then dropped and the next one taken, where one is left, and kept otherwise.
pub fn solve_list(
    alloc: Global,
    store: &Store,
    vars: u32,
    steps: u64,
    every: u64,
    pickers: &mut Vec<Box<dyn Picker>>,
) -> Result<Outcome, NoMemory>
    requires range { All (IsOver vars) store.now }
    requires vars { vars ≤ 2 ^ 30 }
    requires some { 0 < steps }
    requires most { steps ≤ 1000000000 }
    requires every { 0 < every }
    requires pickers { 0 < length pickers.old.items }
    ensures outcome { IfOk result (IsOutcome store.now vars steps) }
    ensures spent { IfOk result (CanBeSpent store.now vars steps) }
    ensures left { pickers.new.items ≡ take (length pickers.new.items) pickers.old.items }
    ensures fewer { length pickers.new.items < length pickers.old.items }
    ensures taken { IfOk result (TakesPickers every (length pickers.old.items) (length pickers.new.items)) }
{
    match pickers.pop() {
        None => Err(NoMemory),
        Some(picker) => {
            search_lines(alloc, store, vars, steps, every.min(steps), picker, pickers)
        }
    }
}
