use clause_store::{Lit, Store, is_ascending};
use coco_base::NoMemory;
use std::alloc::Global;

/// Clauses, and how many variables there are.
#[derive(Drop)]
pub(crate) struct Formula {
    pub(crate) store: Store,
    pub(crate) vars: u32,
}

/// Adds literals that are a clause; others, and those for which there is no number, are left out.
pub(crate) fn add(store: &mut Store, lits: &[Lit]) -> Result<(), NoMemory> {
    if is_ascending(lits) && store.count() < 1 << 31 {
        store.push(lits)?;
    }
    Ok(())
}

/// That one pigeon more than holes sit in the holes, each alone. No values meet it.
pub(crate) fn pigeonholes(alloc: Global, holes: u32) -> Result<Formula, NoMemory> {
    let mut store = Store::new(alloc);
    for pigeon in 0..=holes {
        let mut somewhere = Vec::new(alloc);
        for hole in 0..holes {
            somewhere.push(seat_literal(pigeon, hole, holes, true))?;
        }
        add(&mut store, somewhere.as_slice())?;
    }
    for hole in 0..holes {
        add_alone(&mut store, hole, holes)?;
    }
    let vars = holes.saturating_mul(holes.saturating_add(1));
    Ok(Formula { store, vars })
}

/// That no two pigeons sit in this hole.
fn add_alone(store: &mut Store, hole: u32, holes: u32) -> Result<(), NoMemory> {
    for second in 1..=holes {
        for first in 0..second {
            let one = seat_literal(first, hole, holes, false);
            let other = seat_literal(second, hole, holes, false);
            add(store, &[one, other])?;
        }
    }
    Ok(())
}

// the literal that a pigeon sits in a hole, or does not
fn seat_literal(pigeon: u32, hole: u32, holes: u32, positive: bool) -> Lit {
    Lit {
        var: pigeon.saturating_mul(holes).saturating_add(hole),
        positive,
    }
}

/// That each variable but the last makes the next one true, the last implication first, and then that the first variable
/// is true and the last one false. No values meet it.
pub(crate) fn implications(alloc: Global, vars: u32) -> Result<Formula, NoMemory> {
    let mut store = Store::new(alloc);
    for next in (1..vars).rev() {
        let one = Lit {
            var: next - 1,
            positive: false,
        };
        let other = Lit {
            var: next,
            positive: true,
        };
        add(&mut store, &[one, other])?;
    }
    for (var, positive) in [(0, true), (vars.saturating_sub(1), false)] {
        add(&mut store, &[Lit { var, positive }])?;
    }
    Ok(Formula { store, vars })
}

/// Clauses of three different variables by chance, 4.26 times as many as variables: about half of such formulas can be
/// met.
pub(crate) fn random(alloc: Global, vars: u32, seed: u64) -> Result<Formula, NoMemory> {
    let mut store = Store::new(alloc);
    let clauses = vars.saturating_mul(426) / 100;
    let mut state = seed;
    for _ in 0..clauses.saturating_mul(4) {
        let mut drawn = [0u32; 3];
        for var in drawn.iter_mut() {
            state = next_number(state);
            *var = (state >> 33).checked_rem(u64::from(vars)).unwrap_or(0) as u32;
        }
        if store.count() < clauses {
            add(&mut store, &clause_of(drawn, state))?;
        }
    }
    Ok(Formula { store, vars })
}

/// Literals of these variables in ascending order, their signs taken from a number.
fn clause_of(drawn: [u32; 3], signs: u64) -> [Lit; 3] {
    let least = drawn[0].min(drawn[1]).min(drawn[2]);
    let most = drawn[0].max(drawn[1]).max(drawn[2]);
    let middle = drawn[0] ^ drawn[1] ^ drawn[2] ^ least ^ most;
    [
        Lit {
            var: least,
            positive: (signs >> 30) % 2 == 0,
        },
        Lit {
            var: middle,
            positive: (signs >> 31) % 2 == 0,
        },
        Lit {
            var: most,
            positive: (signs >> 32) % 2 == 0,
        },
    ]
}

/// The next number of a fixed sequence that looks random.
fn next_number(state: u64) -> u64 {
    state
        .wrapping_mul(6_364_136_223_846_793_005)
        .wrapping_add(1_442_695_040_888_963_407)
}
