ghost use Rattle.std.specs.Prelude.{◌≡◌, ℕ, ◌+◌, ◌≤◌, ◌<◌, ◌^◌, [], ◌∷◌, ◌++◌, length, IfOk, OnOk};
ghost use Rattle.circuit_clauses.specs.Formulas.{extended, Fits};
ghost use Rattle.tally_clauses.specs.Tallies.{at_least, place, places, bounds, merge};

use circuit_clauses::{FALSE, Form, Signal, TRUE};
use coco_base::{List, NoMemory};
use std::alloc::Global;

/// The sum of two tallies up to a limit, with the clauses that it is not passed.
pub(crate) fn merge(
    alloc: Global,
    form: &mut Form,
    limit: usize,
    ones: &[Signal],
    others: &[Signal],
) -> Result<List<Signal>, NoMemory>
    requires { Fits (extended form.old (merge limit form.old.vars ones.now others.now).steps) }
    ensures tally { IfOk result (λ tally. tally ≡ (merge limit form.old.vars ones.now others.now).tally) }
    ensures formula { OnOk result (form.new ≡ extended form.old (merge limit form.old.vars ones.now others.now).steps) }
{
    if others.is_empty() {
        return Ok(List::from_vec(Vec::from_slice(alloc, ones)?));
    }
    let count = limit.min(ones.len() + others.len());
    let tally = places(alloc, form, count, ones, others)?;
    bound(form, limit, ones, others)?;
    Ok(tally)
}

/// The places of the sum of two tallies, for the counts from 1 to `count`.
fn places(
    alloc: Global,
    form: &mut Form,
    count: usize,
    ones: &[Signal],
    others: &[Signal],
) -> Result<List<Signal>, NoMemory>
    requires { Fits (extended form.old (places form.old.vars ones.now others.now 0 count).steps) }
    ensures tally { IfOk result (λ tally. tally ≡ (places form.old.vars ones.now others.now 0 count).tally) }
    ensures formula { let steps = (places form.old.vars ones.now others.now 0 count).steps in
        OnOk result (form.new ≡ extended form.old steps) }
{
    let mut tally = List::new(alloc);
    'placing: for done in 0..count {
        let at = place(form, ones, others, done + 1)?;
        tally.push(at)?;
    }
    Ok(tally)
}

/// A signal that at least `count` are true of what two tallies count together.
fn place(
    form: &mut Form,
    ones: &[Signal],
    others: &[Signal],
    count: usize,
) -> Result<Signal, NoMemory>
    requires { Fits (extended form.old (place form.old.vars ones.now others.now count).steps) }
    ensures signal { IfOk result (λ signal. signal ≡ (place form.old.vars ones.now others.now count).signal) }
    ensures formula { OnOk result (form.new ≡ extended form.old (place form.old.vars ones.now others.now count).steps) }
{
    let mut sum = at_least(others, count);
    'adding: for i in 0..ones.len().min(count) {
        sum = form.or_and(sum, ones[i], at_least(others, count - (i + 1)))?;
    }
    Ok(sum)
}

/// Adds the clauses that not more than `limit` are true of what two tallies count together.
fn bound(form: &mut Form, limit: usize, ones: &[Signal], others: &[Signal]) -> Result<(), NoMemory>
    requires { Fits (extended form.old (bounds ones.now others.now limit)) }
    ensures formula { OnOk result (form.new ≡ extended form.old (bounds ones.now others.now limit)) }
{
    'bounding: for i in 0..ones.len().min(limit) {
        form.demand(&[ones[i].negated(), at_least(others, limit - i).negated()])?;
    }
    Ok(())
}

/// The signal of "at least so many" of a tally.
fn at_least(tally: &[Signal], count: usize) -> Signal
    ensures { result ≡ at_least tally.now count }
{
    if count == 0 {
        return TRUE;
    }
    if count > tally.len() {
        return FALSE;
    }
    tally[count - 1]
}
