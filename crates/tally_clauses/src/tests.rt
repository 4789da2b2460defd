use crate::tally::{can_tally, tally_of};
use circuit_clauses::{Form, Signal};
use clause_store::{Lit, Store};
use coco_base::{List, NoMemory};
use std::alloc::Global;
use std::process::Abort;

/// A form with the tally, up to a limit, of so many inputs, whose signals are negative literals.
#[derive(Drop)]
struct Tallied {
    form: Form,
    tally: List<Signal>,
}

fn tally_inputs(
    rt: &impl Abort,
    alloc: Global,
    inputs: u32,
    limit: usize,
) -> Result<Tallied, NoMemory> {
    let mut form = Form::new(alloc);
    let mut parts = List::new(alloc);
    for _ in 0..inputs {
        let fits = form.can_step();
        assert!(rt; fits);
        let mut part = List::new(alloc);
        part.push(form.input(false))?;
        parts.push(part)?;
    }
    let fits = can_tally(&form, limit, parts.as_slice());
    assert!(rt; fits);
    let tally = tally_of(alloc, &mut form, limit, parts)?;
    Ok(Tallied { form, tally })
}

/// The number of a variable, counted from 1 and negative where it is negated, as in DIMACS texts.
fn number(lit: Lit) -> i64 {
    let number = i64::from(lit.var) + 1;
    if lit.positive { number } else { -number }
}

/// Checks the clauses of a store.
fn check_clauses(rt: &impl Abort, store: &Store, clauses: &[&[i64]]) {
    let count = store.count();
    assert_eq!(rt; count as usize, clauses.len());
    for (id, clause) in clauses.iter().enumerate() {
        assert!(rt; id < count as usize);
        let lits = store.get(id as u32);
        assert_eq!(rt; lits.len(), clause.len());
        for (found, want) in lits.iter().zip(clause.iter()) {
            assert_eq!(rt; number(*found), *want);
        }
    }
}

#[test]
fn of_two_at_most_one_is_chosen(rt: HostRuntime) -> Result<(), NoMemory> {
    let made = tally_inputs(&rt, rt.alloc(), 2, 1)?;
    let clauses: [&[i64]; 4] = [&[2, -3], &[1, -3], &[-1, -2, 3], &[1, 2]];
    check_clauses(&rt, made.form.store(), clauses.as_slice());
    assert_eq!(rt; made.tally.len(), 1);
    Ok(())
}

#[test]
fn of_three_at_most_two_are_chosen(rt: HostRuntime) -> Result<(), NoMemory> {
    let made = tally_inputs(&rt, rt.alloc(), 3, 2)?;
    let clauses: [&[i64]; 16] = [
        &[2, -4],
        &[1, -4],
        &[-1, -2, 4],
        &[1, 2, -5],
        &[-1, 5],
        &[-2, 5],
        &[3, -6],
        &[4, -6],
        &[-3, -4, 6],
        &[3, 4, -7],
        &[-4, 7],
        &[-3, 7],
        &[7, -8],
        &[5, -8],
        &[-5, -7, 8],
        &[3, 5],
    ];
    check_clauses(&rt, made.form.store(), clauses.as_slice());
    assert_eq!(rt; made.tally.len(), 2);
    Ok(())
}

/// How many variables and clauses a tally of so many inputs has.
#[derive(Clone, Copy)]
struct Size {
    inputs: u32,
    limit: usize,
    vars: u32,
    clauses: u32,
}

fn check_sizes(rt: &impl Abort, alloc: Global, sizes: &[Size]) -> Result<(), NoMemory> {
    for size in sizes {
        let made = tally_inputs(rt, alloc, size.inputs, size.limit)?;
        assert_eq!(rt; made.form.vars(), size.vars);
        assert_eq!(rt; made.form.store().count(), size.clauses);
    }
    Ok(())
}

/// The size of a tally, from its inputs and limit.
fn sized(inputs: u32, limit: usize, vars: u32, clauses: u32) -> Size {
    Size {
        inputs,
        limit,
        vars,
        clauses,
    }
}

#[test]
fn tallies_have_the_sizes_of_another_encoder(rt: HostRuntime) -> Result<(), NoMemory> {
    let sizes = [
        sized(0, 1, 0, 0),
        sized(1, 2, 1, 0),
        sized(2, 2, 4, 6),
        sized(3, 3, 9, 18),
        sized(4, 1, 7, 12),
        sized(4, 2, 11, 24),
        sized(4, 3, 13, 30),
        sized(5, 2, 15, 34),
        sized(7, 3, 28, 72),
    ];
    check_sizes(&rt, rt.alloc(), sizes.as_slice())
}

/// Whether some literal of a clause is true.
fn is_met(clause: &[Lit], values: &[bool]) -> bool {
    for lit in clause {
        if let Some(bit) = values.get(lit.var as usize) {
            if *bit == lit.positive {
                return true;
            }
        }
    }
    false
}

/// Whether all clauses whose last variable is the last value's are met.
fn ends_met(store: &Store, values: &[bool]) -> bool {
    for id in 0..store.count() {
        let clause = store.get(id);
        if let Some(last) = clause.last() {
            if last.var as usize + 1 == values.len() && !is_met(clause, values) {
                return false;
            }
        }
    }
    true
}

/// How many values of the variables from the inputs on meet all clauses; each variable has one or none.
fn models(
    alloc: Global,
    made: &Tallied,
    bits: u32,
    inputs: u32,
) -> Result<Option<Vec<bool>>, NoMemory> {
    let mut values = Vec::new(alloc);
    for var in 0..made.form.vars() {
        if var < inputs.min(32) {
            values.push(bits >> var & 1 == 0)?;
            if !ends_met(made.form.store(), values.as_slice()) {
                return Ok(None);
            }
        } else {
            values.push(false)?;
            if !ends_met(made.form.store(), values.as_slice()) {
                values.pop();
                values.push(true)?;
                if !ends_met(made.form.store(), values.as_slice()) {
                    return Ok(None);
                }
            }
        }
    }
    Ok(Some(values))
}

#[test]
fn every_place_of_a_small_tally_counts(rt: HostRuntime) -> Result<(), NoMemory> {
    check_values(&rt, rt.alloc(), 3, 2)?;
    check_values(&rt, rt.alloc(), 4, 3)?;
    check_values(&rt, rt.alloc(), 5, 1)
}

/// Tries all values of the inputs: there are values of all variables exactly where at most the limit are chosen, and then
/// each place says whether at least so many are.
fn check_values(rt: &impl Abort, alloc: Global, inputs: u32, limit: usize) -> Result<(), NoMemory> {
    assert!(rt; inputs < 8);
    let made = tally_inputs(rt, alloc, inputs, limit)?;
    for bits in 0..1u32 << inputs {
        let chosen = bits.count_ones() as usize;
        match models(alloc, &made, bits, inputs)? {
            None => assert!(rt; chosen > limit),
            Some(values) => {
                assert!(rt; chosen <= limit);
                check_places(rt, made.tally.as_slice(), values.as_slice(), chosen);
            }
        }
    }
    Ok(())
}

/// Checks what each place of a tally says.
fn check_places(rt: &impl Abort, tally: &[Signal], values: &[bool], chosen: usize) {
    for (place, signal) in tally.iter().enumerate() {
        if let Signal::Literal(lit) = *signal {
            let value = values.get(lit.var as usize).copied();
            assert_eq!(rt; value, Some((place < chosen) == lit.positive));
        }
    }
}
