ghost use Rattle.std.specs.Prelude.{ℕ, ◌<◌, ◌≤◌, ◌^◌, All, MatchBool, ⊤};
ghost use Rattle.clause_solver.specs.Propagation.{IsOver};

use crate::outcome::Outcome;
use crate::solver::solve;
use clause_store::{Lit, Store, is_ascending};
use coco_base::NoMemory;
use pickers::{FirstOpen, LastBumped, MostBumped, Picker};
use std::alloc::Global;
use std::process::Abort;

mod lists;
mod picks;
mod random;

/// The eight clauses over three variables that have each variable once. No values meet them all.
const ALL_SIGNS: [[bool; 3]; 8] = [
    [false, false, false],
    [false, false, true],
    [false, true, false],
    [false, true, true],
    [true, false, false],
    [true, false, true],
    [true, true, false],
    [true, true, true],
];

fn add(rt: &impl Abort, store: &mut Store, lits: &[Lit]) -> Result<(), NoMemory> {
    let ascending = is_ascending(lits);
    assert!(rt; ascending);
    let count = store.count();
    assert!(rt; count < 2_147_483_648);
    store.push(lits)?;
    Ok(())
}

fn all_signs(rt: &impl Abort, alloc: Global) -> Result<Store, NoMemory> {
    let mut store = Store::new(alloc);
    for signs in ALL_SIGNS {
        let mut lits = [Lit {
            var: 0,
            positive: false,
        }; 3];
        for (var, lit) in lits.iter_mut().enumerate() {
            *lit = Lit {
                var: var as u32,
                positive: signs[var],
            };
        }
        add(rt, &mut store, &lits)?;
    }
    Ok(store)
}

/// Whether some literal of each clause is true.
fn meets(store: &Store, values: &[bool]) -> bool {
    'clauses: for id in 0..store.count() {
        let mut met = false;
        'literals: for lit in store.get(id) {
            match values.get(lit.var as usize) {
                Some(value) => {
                    if *value == lit.positive {
                        met = true;
                    }
                }
                None => return false,
            }
        }
        if !met {
            return false;
        }
    }
    true
}

fn all_below(store: &Store, vars: u32) -> bool
    ensures { MatchBool result (All (IsOver vars) store.now) ⊤ }
{
    'clauses: for id in 0..store.count() {
        if !each_below(store.get(id), vars) {
            return false;
        }
    }
    true
}

fn each_below(clause: &[Lit], vars: u32) -> bool
    ensures { MatchBool result (IsOver vars clause.now) ⊤ }
{
    clause.iter().all(|lit| lit.var < vars)
}

/// Solves after a look at what the solver asks for.
fn solved(
    rt: &impl Abort,
    alloc: Global,
    store: &Store,
    vars: u32,
    steps: u64,
    picker: Box<dyn Picker>,
) -> Result<Outcome, NoMemory>
    requires few { vars ≤ 2 ^ 30 }
    requires some { 0 < steps }
    requires most { steps ≤ 1000000000 }
{
    let in_range = all_below(store, vars);
    assert!(rt; in_range);
    solve(alloc, store, vars, steps, picker)
}

/// One step makes one line of the eight clauses, and 27 are more than enough.
fn assert_all_signs(
    rt: &impl Abort,
    alloc: Global,
    one: Box<dyn Picker>,
    many: Box<dyn Picker>,
) -> Result<(), NoMemory> {
    let store = all_signs(rt, alloc)?;
    match solved(rt, alloc, &store, 3, 1, one)? {
        Outcome::Spent(derivation) => assert_eq!(rt; derivation.lines.len(), 1),
        outcome => panic!(rt; "{outcome:?}"),
    }
    match solved(rt, alloc, &store, 3, 27, many)? {
        Outcome::Derived(derivation) => {
            let lines = derivation.lines.as_slice();
            assert!(rt; lines.len() <= 27);
            match lines.last() {
                Some(line) => assert_eq!(rt; line.clause.len(), 0),
                None => panic!(rt; "no lines"),
            }
        }
        outcome => panic!(rt; "{outcome:?}"),
    }
    Ok(())
}

#[test]
fn refutes_all_signs_with_the_first_open(rt: HostRuntime) -> Result<(), NoMemory> {
    let alloc = rt.alloc();
    assert_all_signs(
        &rt,
        alloc,
        Box::new(alloc, FirstOpen)?,
        Box::new(alloc, FirstOpen)?,
    )
}

#[test]
fn refutes_all_signs_with_the_most_bumped(rt: HostRuntime) -> Result<(), NoMemory> {
    let alloc = rt.alloc();
    assert_all_signs(
        &rt,
        alloc,
        Box::new(alloc, MostBumped::new(alloc, 3)?)?,
        Box::new(alloc, MostBumped::new(alloc, 3)?)?,
    )
}

#[test]
fn refutes_all_signs_with_the_last_bumped(rt: HostRuntime) -> Result<(), NoMemory> {
    let alloc = rt.alloc();
    assert_all_signs(
        &rt,
        alloc,
        Box::new(alloc, LastBumped::new(alloc, 3)?)?,
        Box::new(alloc, LastBumped::new(alloc, 3)?)?,
    )
}

#[test]
fn nothing_is_to_satisfy(rt: HostRuntime) -> Result<(), NoMemory> {
    let alloc = rt.alloc();
    let store = Store::new(alloc);
    match solved(&rt, alloc, &store, 0, 1, Box::new(alloc, FirstOpen)?)? {
        Outcome::Satisfied(values) => assert_eq!(rt; values.len(), 0),
        outcome => panic!(rt; "{outcome:?}"),
    }
    Ok(())
}

#[test]
fn an_empty_clause_needs_no_line(rt: HostRuntime) -> Result<(), NoMemory> {
    let alloc = rt.alloc();
    let mut store = Store::new(alloc);
    add(&rt, &mut store, &[])?;
    match solved(&rt, alloc, &store, 2, 1, Box::new(alloc, FirstOpen)?)? {
        Outcome::Derived(derivation) => assert_eq!(rt; derivation.lines.len(), 0),
        outcome => panic!(rt; "{outcome:?}"),
    }
    Ok(())
}
