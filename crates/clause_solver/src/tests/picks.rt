ghost use Rattle.std.specs.Prelude.{ℕ, IfSome, IfNone};
ghost use Rattle.pickers.specs.Choices.{IsOpen, AllAreSet};

use super::{add, all_signs, solved};
use crate::outcome::Outcome;
use clause_store::{Lit, Store};
use pickers::{FirstOpen, Picker};
use std::cell::Cell;
use std::rc::Rc;
use std::test::Fail;

/// Picks as `FirstOpen`, and counts its picks and its drops.
pub(super) struct Counting {
    pub(super) picks: Rc<Cell<u32>>,
    pub(super) drops: Rc<Cell<u32>>,
}

impl Drop for Counting {
    fn drop(self) {
        let Counting { picks: _, drops } = self;
        drops.set(drops.get().wrapping_add(1));
    }
}

impl Picker for Counting {
    ghost bound = { λ _. 0 };

    fn size(&self) -> u32 {
        0
    }

    fn bump(&mut self, _var: u32) {}

    fn pick(&mut self, unset: &[bool]) -> Option<u32> {
        self.picks.set(self.picks.get().wrapping_add(1));
        FirstOpen.pick(unset)
    }
}

#[test]
fn a_picker_is_asked_and_dropped_once(rt: HostRuntime) -> Result<(), Fail> {
    let alloc = rt.alloc();
    let picks = Rc::new(alloc, Cell::new(0u32))?;
    let drops = Rc::new(alloc, Cell::new(0u32))?;
    let picker = Counting {
        picks: picks.clone()?,
        drops: drops.clone()?,
    };
    let store = all_signs(&rt, alloc)?;
    let outcome = solved(&rt, alloc, &store, 3, 27, Box::new(alloc, picker)?)?;
    assert!(rt; matches!(outcome, Outcome::Derived(_)));
    assert!(rt; picks.get() > 0);
    assert_eq!(rt; drops.get(), 1);
    Ok(())
}

/// Picks as `FirstOpen`, and counts by variable how often it was told of each.
struct Told {
    counts: Rc<Cell<[u32; 3]>>,
}

impl Drop for Told {
    fn drop(self) {
        let Told { counts: _ } = self;
    }
}

impl Picker for Told {
    ghost bound = { λ _. 3 };

    fn size(&self) -> u32 {
        3
    }

    fn bump(&mut self, var: u32) {
        let mut counts = self.counts.get();
        if var < 3 {
            counts[var as usize] = counts[var as usize].wrapping_add(1);
            self.counts.set(counts);
        }
    }

    fn pick(&mut self, unset: &[bool]) -> Option<u32> {
        FirstOpen.pick(unset)
    }
}

/// The first decision makes variable 1 true and then a clause false. Variable 1 is cut, and the line is variable 0.
#[test]
fn a_picker_is_told_of_what_is_cut_alone(rt: HostRuntime) -> Result<(), Fail> {
    let alloc = rt.alloc();
    let counts = Rc::new(alloc, Cell::new([0u32; 3]))?;
    let picker = Told {
        counts: counts.clone()?,
    };
    let mut store = Store::new(alloc);
    for (first, second, positive) in [(0, 1, true), (0, 1, false), (0, 2, true), (0, 2, false)] {
        let one = Lit {
            var: first,
            positive: second == 1,
        };
        let other = Lit {
            var: second,
            positive,
        };
        add(&rt, &mut store, &[one, other])?;
    }
    let outcome = solved(&rt, alloc, &store, 3, 27, Box::new(alloc, picker)?)?;
    assert!(rt; matches!(outcome, Outcome::Derived(_)));
    assert_eq!(rt; counts.get(), [0, 1, 0]);
    Ok(())
}

/// Picks the greatest unset variable, and records which were unset at each pick, as the bits of a number.
struct Recording {
    count: Rc<Cell<u32>>,
    masks: Rc<Cell<[u32; 9]>>,
}

impl Drop for Recording {
    fn drop(self) {
        let Recording { count: _, masks: _ } = self;
    }
}

fn mask_of(unset: &[bool]) -> u32 {
    let mut mask = 0u32;
    for is_unset in unset.iter().rev() {
        mask = (mask << 1) | u32::from(*is_unset);
    }
    mask
}

fn last_open(unset: &[bool]) -> Option<usize>
    ensures picked { IfSome result (IsOpen unset.now) }
    ensures none { IfNone result (AllAreSet unset.now) }
{
    'seeking: for var in (0..unset.len()).rev() {
        if unset[var] {
            return Some(var);
        }
    }
    None
}

impl Picker for Recording {
    ghost bound = { λ _. 0 };

    fn size(&self) -> u32 {
        0
    }

    fn bump(&mut self, _var: u32) {}

    fn pick(&mut self, unset: &[bool]) -> Option<u32> {
        let count = self.count.get();
        let mut masks = self.masks.get();
        if count < 9 {
            masks[count as usize] = mask_of(unset);
            self.masks.set(masks);
            self.count.set(count + 1);
        }
        match last_open(unset) {
            Some(var) => Some(var as u32),
            None => None,
        }
    }
}

#[test]
fn decisions_follow_the_picker(rt: HostRuntime) -> Result<(), Fail> {
    let alloc = rt.alloc();
    let count = Rc::new(alloc, Cell::new(0u32))?;
    let masks = Rc::new(alloc, Cell::new([0u32; 9]))?;
    let picker = Recording {
        count: count.clone()?,
        masks: masks.clone()?,
    };
    let store = Store::new(alloc);
    match solved(&rt, alloc, &store, 8, 1, Box::new(alloc, picker)?)? {
        Outcome::Satisfied(values) => assert_eq!(rt; values.as_slice(), [false; 8].as_slice()),
        outcome => panic!(rt; "{outcome:?}"),
    }
    assert_eq!(rt; count.get(), 9);
    assert_eq!(rt; masks.get(), [255, 127, 63, 31, 15, 7, 3, 1, 0]);
    Ok(())
}
