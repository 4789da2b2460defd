use crate::first::FirstOpen;
use crate::last::LastBumped;
use crate::listed::Listed;
use crate::most::MostBumped;
use crate::picker::Picker;
use crate::seeded::Seeded;
use coco_base::{List, NoMemory};
use std::process::Abort;

const BUMPS: [u32; 5] = [2, 1, 2, 3, 9];

const PLACES: [[bool; 5]; 7] = [
    [true, true, true, true, true],
    [true, true, true, false, true],
    [true, true, false, false, true],
    [true, false, false, true, true],
    [true, false, false, false, true],
    [false, false, false, false, true],
    [false, false, false, false, false],
];

/// What a picker answers at each row of places after the bumps.
fn assert_picks(rt: &impl Abort, mut picker: Box<dyn Picker>, size: u32, want: [Option<u32>; 7]) {
    for var in BUMPS {
        picker.bump(var);
    }
    assert_eq!(rt; picker.size(), size);
    for (unset, answer) in PLACES.iter().zip(want) {
        assert_eq!(rt; picker.pick(unset), answer);
    }
    assert_eq!(rt; picker.pick(&[]), None);
}

#[test]
fn first_open_picks_the_least(rt: HostRuntime) -> Result<(), NoMemory> {
    let picker = Box::new(rt.alloc(), FirstOpen)?;
    let want = [Some(0), Some(0), Some(0), Some(0), Some(0), Some(4), None];
    assert_picks(&rt, picker, 0, want);
    Ok(())
}

#[test]
fn most_bumped_picks_by_counts(rt: HostRuntime) -> Result<(), NoMemory> {
    let picker = Box::new(rt.alloc(), MostBumped::new(rt.alloc(), 4)?)?;
    let want = [Some(2), Some(2), Some(1), Some(3), Some(0), Some(4), None];
    assert_picks(&rt, picker, 4, want);
    Ok(())
}

#[test]
fn last_bumped_picks_by_times(rt: HostRuntime) -> Result<(), NoMemory> {
    let picker = Box::new(rt.alloc(), LastBumped::new(rt.alloc(), 4)?)?;
    let want = [Some(3), Some(2), Some(1), Some(3), Some(0), Some(4), None];
    assert_picks(&rt, picker, 4, want);
    Ok(())
}

#[test]
fn listed_picks_by_its_list_and_then_the_least(rt: HostRuntime) -> Result<(), NoMemory> {
    let alloc = rt.alloc();
    let order = List::from_vec(Vec::from_slice(alloc, &[7, 3, 1])?);
    let picker = Box::new(alloc, Listed::new(order))?;
    let want = [Some(3), Some(1), Some(1), Some(3), Some(0), Some(4), None];
    assert_picks(&rt, picker, 0, want);
    Ok(())
}

#[test]
fn seeded_picks_by_the_upper_bits_of_its_state(rt: HostRuntime) {
    let mut picker = Seeded::new(0);
    assert_eq!(rt; picker.pick(&[false, false]), None);
    for (unset, want) in [
        ([true, true, true], Some(1)),
        ([true, true, true], Some(1)),
        ([true, false, true], Some(0)),
        ([false, false, false], None),
        ([true, true, true], Some(0)),
    ] {
        assert_eq!(rt; picker.pick(&unset), want);
    }
}
