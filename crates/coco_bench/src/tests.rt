ghost use Rattle.std.specs.Prelude.{ℕ, ◌<◌, ◌≤◌};

use crate::formula::{Formula, implications, pigeonholes, random};
use crate::inverters::{chain, last_value};
use crate::solving::all_below;
use clause_solver::{Outcome, solve};
use clause_store::Store;
use coco_base::NoMemory;
use derivation_check::{Verdict, check};
use pickers::{FirstOpen, LastBumped, MostBumped, Picker};
use std::alloc::Global;
use std::process::Abort;
use std::test::Fail;

/// More conflicts than these formulas need.
const STEPS: u64 = 1_000_000;

/// Whether each clause has a literal that is true.
fn meets(store: &Store, values: &[bool]) -> bool {
    'clauses: for id in 0..store.count() {
        let met = store.get(id).iter().any(|lit| values.get(lit.var as usize).copied()
            == Some(lit.positive));
        if !met {
            return false;
        }
    }
    true
}

/// Solves, and shows the answer right: values meet every clause, or the lines are a derivation of the empty clause.
/// Tells whether the clauses can be met.
fn assert_right(
    rt: &impl Abort,
    alloc: Global,
    formula: &Formula,
    picker: Box<dyn Picker>,
) -> Result<bool, NoMemory> {
    let in_range = formula.vars <= 1 << 30 && all_below(&formula.store, formula.vars);
    assert!(rt; in_range);
    match solve(alloc, &formula.store, formula.vars, STEPS, picker)? {
        Outcome::Satisfied(values) => {
            let met = meets(&formula.store, values.as_slice());
            assert!(rt; met);
            Ok(true)
        }
        Outcome::Derived(derivation) => {
            let countable = derivation.lines.len() < 1 << 32;
            assert!(rt; countable);
            let verdict = check(alloc, &formula.store, &derivation)?;
            assert_eq!(rt; verdict, Verdict::Empty);
            Ok(false)
        }
        Outcome::Spent(_) => panic!(rt; "too few steps"),
    }
}

/// Asks with each picker, and shows that all say the same.
fn assert_agreed(rt: &impl Abort, alloc: Global, formula: &Formula) -> Result<bool, NoMemory> {
    let vars = formula.vars;
    let can_be_met = assert_right(rt, alloc, formula, Box::new(alloc, FirstOpen)?)?;
    let most = Box::new(alloc, MostBumped::new(alloc, vars)?)?;
    assert_eq!(rt; assert_right(rt, alloc, formula, most)?, can_be_met);
    let last = Box::new(alloc, LastBumped::new(alloc, vars)?)?;
    assert_eq!(rt; assert_right(rt, alloc, formula, last)?, can_be_met);
    Ok(can_be_met)
}

#[test]
fn answers_on_random_clauses_are_right(rt: HostRuntime) -> Result<(), Fail> {
    let mut met = 0u32;
    let mut refuted = 0u32;
    for vars in [10, 15, 20, 25, 30] {
        for seed in 1..9 {
            let formula = random(rt.alloc(), vars, seed)?;
            if assert_agreed(&rt, rt.alloc(), &formula)? {
                met = met.saturating_add(1);
            } else {
                refuted = refuted.saturating_add(1);
            }
        }
    }
    assert!(rt; met > 0);
    assert!(rt; refuted > 0);
    Ok(())
}

#[test]
fn pigeonholes_are_refuted(rt: HostRuntime) -> Result<(), Fail> {
    for holes in 1..5 {
        let formula = pigeonholes(rt.alloc(), holes)?;
        assert!(rt; !assert_agreed(&rt, rt.alloc(), &formula)?);
    }
    Ok(())
}

/// The number of lines of a derivation with the picker that takes the variable with most bumps, which is shown right.
fn lines_of(
    rt: &impl Abort,
    alloc: Global,
    formula: &Formula,
    steps: u64,
) -> Result<usize, NoMemory>
    requires some { 0 < steps }
    requires most { steps ≤ 1000000000 }
{
    let in_range = formula.vars <= 1 << 30 && all_below(&formula.store, formula.vars);
    assert!(rt; in_range);
    let picker = Box::new(alloc, MostBumped::new(alloc, formula.vars)?)?;
    match solve(alloc, &formula.store, formula.vars, steps, picker)? {
        Outcome::Derived(derivation) => {
            let count = derivation.lines.len();
            assert!(rt; count < 1 << 32);
            let verdict = check(alloc, &formula.store, &derivation)?;
            assert_eq!(rt; verdict, Verdict::Empty);
            Ok(count)
        }
        _ => panic!(rt; "no derivation"),
    }
}

#[test]
fn each_run_has_the_same_lines(rt: HostRuntime) -> Result<(), NoMemory> {
    let alloc = rt.alloc();
    for (holes, lines) in [(5, 148), (6, 808)] {
        let formula = pigeonholes(alloc, holes)?;
        assert_eq!(rt; lines_of(&rt, alloc, &formula, STEPS)?, lines);
    }
    Ok(())
}

#[test]
fn a_chain_of_implications_is_refuted_by_one_line(rt: HostRuntime) -> Result<(), NoMemory> {
    let alloc = rt.alloc();
    let formula = implications(alloc, 200_000)?;
    assert_eq!(rt; lines_of(&rt, alloc, &formula, 1000)?, 1);
    Ok(())
}

#[test]
fn the_end_of_a_chain_goes_by_the_number_of_inverters(rt: HostRuntime) -> Result<(), NoMemory> {
    let alloc = rt.alloc();
    for (count, value) in [(0, false), (1, true), (4, false), (7, true)] {
        assert_eq!(rt; last_value(alloc, &chain(alloc, count)?)?, Some(value));
    }
    Ok(())
}
