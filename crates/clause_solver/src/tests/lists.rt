ghost use Rattle.std.specs.Prelude.{ℕ, ◌<◌, ◌≤◌, ◌^◌};

use super::picks::Counting;
use super::random::random_store;
use super::{all_below, all_signs};
use crate::outcome::Outcome;
use crate::restarts::luby;
use crate::solver::solve_list;
use clause_store::Store;
use coco_base::NoMemory;
use pickers::{FirstOpen, LastBumped, MostBumped, Picker};
use std::alloc::Global;
use std::cell::Cell;
use std::process::Abort;
use std::rc::Rc;
use std::test::Fail;

#[test]
fn the_luby_sequence_begins_as_it_should(rt: HostRuntime) {
    for (place, number) in [
        (1, 1),
        (2, 1),
        (3, 2),
        (4, 1),
        (5, 1),
        (6, 2),
        (7, 4),
        (8, 1),
        (15, 8),
    ] {
        assert_eq!(rt; luby(place), number);
    }
}

/// Solves with restarts after a look at what the solver asks for.
fn solved_list(
    rt: &impl Abort,
    alloc: Global,
    store: &Store,
    vars: u32,
    steps: u64,
    pickers: &mut Vec<Box<dyn Picker>>,
) -> Result<Outcome, NoMemory>
    requires few { vars ≤ 2 ^ 30 }
    requires some { 0 < steps }
    requires most { steps ≤ 1000000000 }
{
    let in_range = all_below(store, vars);
    assert!(rt; in_range);
    assert!(rt; !pickers.is_empty());
    solve_list(alloc, store, vars, steps, 1, pickers)
}

/// How many of so many pickers are left after so many lines: one goes at once, and one at each restart, which come
/// after 1, 2, 4, 5, 6, 8, 12 and 13 lines.
fn left_of(pickers: usize, lines: usize) -> usize {
    let mut left = pickers.saturating_sub(1);
    for restart in [1usize, 2, 4, 5, 6, 8, 12, 13] {
        if restart < lines {
            left = left.saturating_sub(1);
        }
    }
    left
}

#[test]
fn restarts_take_pickers_from_the_end(rt: HostRuntime) -> Result<(), NoMemory> {
    let alloc = rt.alloc();
    let store = all_signs(&rt, alloc)?;
    for count in [1usize, 2, 3, 6] {
        let mut pickers: Vec<Box<dyn Picker>> = Vec::new(alloc);
        for kind in 0..count {
            match kind % 3 {
                0 => pickers.push(Box::new(alloc, MostBumped::new(alloc, 3)?)?)?,
                1 => pickers.push(Box::new(alloc, LastBumped::new(alloc, 3)?)?)?,
                _ => pickers.push(Box::new(alloc, FirstOpen)?)?,
            }
        }
        match solved_list(&rt, alloc, &store, 3, 27, &mut pickers)? {
            Outcome::Derived(derivation) => {
                let left = left_of(count, derivation.lines.len());
                assert_eq!(rt; pickers.len(), left);
            }
            outcome => panic!(rt; "{outcome:?}"),
        }
    }
    Ok(())
}

#[test]
fn five_lines_take_four_of_six_pickers(rt: HostRuntime) -> Result<(), NoMemory> {
    let alloc = rt.alloc();
    let store = random_store(&rt, alloc, 300)?;
    let mut pickers: Vec<Box<dyn Picker>> = Vec::new(alloc);
    for _ in 0..6 {
        pickers.push(Box::new(alloc, MostBumped::new(alloc, 20)?)?)?;
    }
    match solved_list(&rt, alloc, &store, 20, 5, &mut pickers)? {
        Outcome::Spent(derivation) => assert_eq!(rt; derivation.lines.len(), 5),
        outcome => panic!(rt; "{outcome:?}"),
    }
    assert_eq!(rt; pickers.len(), 2);
    Ok(())
}

/// The one picker of a list stays in use over all restarts, and is dropped at the end.
#[test]
fn the_last_picker_is_kept_and_dropped_once(rt: HostRuntime) -> Result<(), Fail> {
    let alloc = rt.alloc();
    let picks = Rc::new(alloc, Cell::new(0u32))?;
    let drops = Rc::new(alloc, Cell::new(0u32))?;
    let picker = Counting {
        picks: picks.clone()?,
        drops: drops.clone()?,
    };
    let mut pickers: Vec<Box<dyn Picker>> = Vec::new(alloc);
    pickers.push(Box::new(alloc, picker)?)?;
    let store = random_store(&rt, alloc, 300)?;
    let outcome = solved_list(&rt, alloc, &store, 20, 100_000, &mut pickers)?;
    assert!(rt; matches!(outcome, Outcome::Derived(_)));
    assert!(rt; picks.get() > 8);
    assert_eq!(rt; drops.get(), 1);
    assert!(rt; pickers.is_empty());
    Ok(())
}
