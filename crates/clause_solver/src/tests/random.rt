use super::{add, meets, solved};
use crate::outcome::Outcome;
use clause_store::{Lit, Store};
use coco_base::NoMemory;
use pickers::MostBumped;
use std::alloc::Global;
use std::process::Abort;

/// The next number of a fixed sequence that looks random.
fn next_number(state: u64) -> u64 {
    state
        .wrapping_mul(6_364_136_223_846_793_005)
        .wrapping_add(1_442_695_040_888_963_407)
}

/// A clause of three different variables below 20, at random.
fn random_clause(state: u64) -> [Lit; 3] {
    let one = (state >> 33) % 6;
    let two = (state >> 40) % 7;
    let three = (state >> 47) % 7;
    [
        Lit {
            var: one as u32,
            positive: (state >> 54) % 2 == 0,
        },
        Lit {
            var: 6 + two as u32,
            positive: (state >> 55) % 2 == 0,
        },
        Lit {
            var: 13 + three as u32,
            positive: (state >> 56) % 2 == 0,
        },
    ]
}

/// This number of clauses over 20 variables, at random.
pub(super) fn random_store(
    rt: &impl Abort,
    alloc: Global,
    clauses: u32,
) -> Result<Store, NoMemory> {
    let mut state = 7u64;
    let mut store = Store::new(alloc);
    for _ in 0..clauses {
        state = next_number(state);
        add(rt, &mut store, &random_clause(state))?;
    }
    Ok(store)
}

/// Answers by chance: few clauses are met, many are refuted.
fn assert_random(
    rt: &impl Abort,
    alloc: Global,
    clauses: u32,
    can_be_met: bool,
) -> Result<(), NoMemory> {
    let store = random_store(rt, alloc, clauses)?;
    let picker = Box::new(alloc, MostBumped::new(alloc, 20)?)?;
    match solved(rt, alloc, &store, 20, 100_000, picker)? {
        Outcome::Satisfied(values) => {
            assert!(rt; can_be_met);
            let met = meets(&store, values.as_slice());
            assert!(rt; met);
        }
        Outcome::Derived(derivation) => {
            assert!(rt; !can_be_met);
            match derivation.lines.as_slice().last() {
                Some(line) => assert_eq!(rt; line.clause.len(), 0),
                None => panic!(rt; "no lines"),
            }
        }
        outcome => panic!(rt; "{outcome:?}"),
    }
    Ok(())
}

#[test]
fn few_random_clauses_are_met(rt: HostRuntime) -> Result<(), NoMemory> {
    assert_random(&rt, rt.alloc(), 60, true)
}

#[test]
fn many_random_clauses_are_refuted(rt: HostRuntime) -> Result<(), NoMemory> {
    assert_random(&rt, rt.alloc(), 300, false)
}
