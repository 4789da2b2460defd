ghost use Rattle.std.specs.Prelude.{◌≡◌, ℕ, ◌+◌, ◌<◌, ◌≤◌, ◌^◌, List as Items, [], length, slice_index, IfOk, OnOk};
ghost use Rattle.clause_store.specs.declared.lit.Lit.{Lit as StoredLit};
ghost use Rattle.clause_store.specs.Derivations.{clauses_of};
ghost use Rattle.clause_solver.specs.Propagation.{IsExplained, IsBrokenAt};
ghost use Rattle.clause_solver.specs.Watches.{IsWatching, IsGuarded};
ghost use Rattle.clause_solver.specs.Outcomes.{IsReady};
ghost use Rattle.clause_solver.specs.Turns.{IsGoing, IsBegun, IsRefuted, IsTurned, IsUntouched};

use crate::analysis::analyze;
use crate::jump::jump_back;
use crate::search::search;
use crate::standing::{Standing, judged};
use crate::trail::Trail;
use crate::watches::{Pair, Watches};
use clause_store::{Line, Store};
use coco_base::{List, NoMemory};
use pickers::Picker;
use std::alloc::Global;

/// What a search keeps from line to line: what is set, by what the clauses are watched, from which place on nothing
/// was propagated yet, that no variable is marked, and the lines so far.
#[derive(Drop)]
pub(crate) struct State {
    pub(crate) trail: Trail,
    pub(crate) watches: Watches,
    pub(crate) head: u32,
    pub(crate) marks: Vec<bool>,
    pub(crate) lines: List<Line>,
}

/// What came of a turn.
#[derive(Clone, Copy, Debug)]
pub(crate) enum Turn {
    /// The values that are set meet all clauses.
    Met,
    /// The new line is empty.
    Refuted,
    /// The new line is not empty.
    Learnt,
}

impl State {
    /// Nothing is set, and no clause is watched.
    pub(crate) fn new(alloc: Global, vars: u32) -> Result<Self, NoMemory>
        requires { vars ≤ 2 ^ 30 }
        ensures { IfOk result (IsUntouched vars) }
    {
        Ok(State {
            trail: Trail::new(alloc, vars)?,
            watches: Watches::new(alloc, vars)?,
            head: 0,
            marks: vec![in alloc; false; vars as usize]?,
            lines: List::new(alloc),
        })
    }
}

/// Watches each clause of the store by its first two literals, and sets those that stand alone. It answers the number
/// of a clause that is false then.
pub(crate) fn watch_store(
    trail: &mut Trail,
    watches: &mut Watches,
    store: &Store,
) -> Result<Option<u32>, NoMemory>
    requires explained { IsExplained store.now trail.old }
    requires bare { trail.old.lits ≡ [] }
    requires level { trail.old.starts ≡ [] }
    requires watching { IsWatching [] trail.old.vars watches.old }
    ensures begun { IfOk result (IsBegun store.now trail.new watches.new) }
    ensures vars { OnOk result (trail.new.vars ≡ trail.old.vars) }
{
    'beginning: for id in 0..store.count() {
        let clause = store.get(id);
        if clause.len() < 2 {
            watches.add_none()?;
            match judged(trail, clause) {
                Standing::Unit(lit) => trail.push(lit, Some(id))?,
                Standing::Met => {}
                Standing::Loose => {}
                Standing::Broken => return Ok(Some(id)),
            }
        } else {
            let pair = Pair {
                one: clause[0],
                other: clause[1],
            };
            watches.add_pair(pair, id)?;
        }
    }
    Ok(None)
}

/// Tells the picker of each variable that an analysis cut.
fn bump_cuts(picker: &mut Box<dyn Picker>, line: &Line) {
    for cut in line.cuts.as_slice() {
        picker.bump(cut.var);
    }
}

/// Takes back all decisions.
pub(crate) fn begin_anew(state: &mut State)
    requires bounded { (k : ℕ) → k < length state.old.trail.starts
        → slice_index state.old.trail.starts k < length state.old.trail.lits }
    ensures going { (store : Items (Items StoredLit)) → IsGoing store state.old → IsGoing store state.new }
    ensures lines { state.new.lines ≡ state.old.lines }
    ensures vars { state.new.trail.vars ≡ state.old.trail.vars }
{
    if state.trail.levels() == 0 {
        return;
    }
    state.trail.undo(0);
    state.head = state.trail.len();
}

/// Adds the line that comes from a clause that is false before anything was decided.
pub(crate) fn refute(
    alloc: Global,
    store: &Store,
    state: &mut State,
    id: u32,
) -> Result<(), NoMemory>
    requires ready { IsReady store.now state.old.lines state.old.trail state.old.marks.items }
    requires broken { IsBrokenAt (clauses_of store.now state.old.lines) state.old.trail.lits id }
    requires level { state.old.trail.starts ≡ [] }
    ensures { OnOk result (IsRefuted store.now (length state.old.lines) state.new) }
{
    let line = analyze(
        alloc,
        &state.trail,
        store,
        state.lines.as_slice(),
        id,
        &mut state.marks,
    )?;
    state.lines.push(line)?;
    Ok(())
}

/// Adds the line that comes from a clause that is false. Where it is not empty it tells the picker what was cut, and
/// goes back to where the line forces a literal.
fn learn(
    alloc: Global,
    store: &Store,
    state: &mut State,
    id: u32,
    picker: &mut Box<dyn Picker>,
) -> Result<Turn, NoMemory>
    requires ready { IsReady store.now state.old.lines state.old.trail state.old.marks.items }
    requires guarded { IsGuarded (clauses_of store.now state.old.lines) state.old.trail state.old.watches }
    requires broken { IsBrokenAt (clauses_of store.now state.old.lines) state.old.trail.lits id }
    requires room { length state.old.lines ≤ 1000000000 }
    ensures turned { IfOk result (IsTurned store.now (length state.old.lines) state.new) }
    ensures vars { OnOk result (state.new.trail.vars ≡ state.old.trail.vars) }
{
    let lines = state.lines.as_slice();
    let next = store.count() + lines.len() as u32;
    let line = analyze(alloc, &state.trail, store, lines, id, &mut state.marks)?;
    if line.clause.is_empty() {
        state.lines.push(line)?;
        return Ok(Turn::Refuted);
    }
    bump_cuts(picker, &line);
    let clause = line.clause.as_slice();
    state.head = jump_back(&mut state.trail, &mut state.watches, clause, next)?;
    state.lines.push(line)?;
    Ok(Turn::Learnt)
}

/// Searches until all variables are set or a clause is false, and learns from that one.
pub(crate) fn take_turn(
    alloc: Global,
    store: &Store,
    state: &mut State,
    picker: &mut Box<dyn Picker>,
) -> Result<Turn, NoMemory>
    requires going { IsGoing store.now state.old }
    requires room { length state.old.lines ≤ 1000000000 }
    ensures turned { IfOk result (IsTurned store.now (length state.old.lines) state.new) }
    ensures vars { OnOk result (state.new.trail.vars ≡ state.old.trail.vars) }
{
    let found = search(
        &mut state.trail,
        &mut state.watches,
        store,
        state.lines.as_slice(),
        state.head,
        picker,
    )?;
    match found {
        None => Ok(Turn::Met),
        Some(id) => learn(alloc, store, state, id, picker),
    }
}
