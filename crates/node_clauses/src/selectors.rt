// Signals that tell the choice of a gate, place by place.
ghost use Rattle.std.specs.Prelude.{◌≡◌, ◌<◌, ◌≤◌, length, IfOk, OnOk};
ghost use Rattle.circuit_clauses.specs.Formulas.{Fits};
ghost use Rattle.clause_builds.specs.Builds.{made, after};
ghost use Rattle.coco_model.specs.Goals.{is_among};
ghost use Rattle.node_clauses.specs.Selectors.{selectors, add_places, add_place, known_place, twin_at, twin_before, are_alike, are_opposite, known_or_fresh, all_have, some_has, others_differ, differs_unless, differs, differs_at};

use crate::choices::{PLACES, SETS, has_place};
use circuit_clauses::{FALSE, Form, Signal, TRUE};
use coco_base::NoMemory;

/// A signal for each place of a choice that is one of some numbers, and the clauses that it is no other number.
pub(crate) fn selectors(form: &mut Form, numbers: &[u8]) -> Result<[Signal; 4], NoMemory>
    requires { Fits (after form.old (selectors numbers.now)) }
    ensures signals { IfOk result (λ selected. selected ≡ made form.old (selectors numbers.now)) }
    ensures formula { OnOk result (form.new ≡ after form.old (selectors numbers.now)) }
{
    let mut selected = [FALSE; PLACES];
    add_places(form, numbers, &mut selected);
    differ_from_others(form, numbers, selected)?;
    Ok(selected)
}

// Sets the signal of each place.
fn add_places(form: &mut Form, numbers: &[u8], selected: &mut [Signal])
    requires places { length selected.old ≡ 4 }
    requires fits { Fits (after form.old (add_places numbers.now selected.old)) }
    ensures signals { selected.new ≡ made form.old (add_places numbers.now selected.old) }
    ensures formula { form.new ≡ after form.old (add_places numbers.now selected.old) }
{
    'places: for place in 0..PLACES {
        add_place(form, numbers, place, selected);
    }
}

// Sets the signal of a place, where those before it are set.
fn add_place(form: &mut Form, numbers: &[u8], place: usize, selected: &mut [Signal])
    requires place { place < 4 }
    requires places { length selected.old ≡ 4 }
    requires fits { Fits (after form.old (add_place numbers.now place selected.old)) }
    ensures signals { selected.new ≡ made form.old (add_place numbers.now place selected.old) }
    ensures formula { form.new ≡ after form.old (add_place numbers.now place selected.old) }
    ensures places { length selected.new ≡ 4 }
{
    selected[place] = known_or_fresh(form, known_place(numbers, selected, place));
}

fn known_or_fresh(form: &mut Form, known: Option<Signal>) -> Signal
    requires { Fits (after form.old (known_or_fresh known)) }
    ensures signal { result ≡ made form.old (known_or_fresh known) }
    ensures formula { form.new ≡ after form.old (known_or_fresh known) }
{
    match known {
        Some(signal) => signal,
        None => form.input(false),
    }
}

// Adds the clauses that a selection is no number but some.
fn differ_from_others(
    form: &mut Form,
    numbers: &[u8],
    selected: [Signal; 4],
) -> Result<(), NoMemory>
    requires { Fits (after form.old (others_differ numbers.now selected)) }
    ensures { OnOk result (form.new ≡ after form.old (others_differ numbers.now selected)) }
{
    'others: for number in 0..SETS {
        differ_unless(form, numbers, selected, number)?;
    }
    Ok(())
}

// Adds the clause that a selection is not a number, unless this is one of some.
fn differ_unless(
    form: &mut Form,
    numbers: &[u8],
    selected: [Signal; 4],
    number: u8,
) -> Result<(), NoMemory>
    requires number { number < 16 }
    requires fits { Fits (after form.old (differs_unless numbers.now selected number tt)) }
    ensures { OnOk result (form.new ≡ after form.old (differs_unless numbers.now selected number tt)) }
{
    if is_among(numbers, number) {
        return Ok(());
    }
    differ(form, selected, number)
}

fn is_among(numbers: &[u8], number: u8) -> bool
    ensures { result ≡ is_among numbers.now number }
{
    numbers.iter().any(|other| number == *other)
}

// The signal of a place that takes no variable of its own.
fn known_place(numbers: &[u8], selected: &[Signal], place: usize) -> Option<Signal>
    requires place { place < 4 }
    requires places { length selected.now ≡ 4 }
    ensures { result ≡ known_place numbers.now selected.now place }
{
    if !some_has(numbers, place) {
        return Some(FALSE);
    }
    if all_have(numbers, place) {
        return Some(TRUE);
    }
    twin_before(numbers, selected, place, place)
}

fn all_have(numbers: &[u8], place: usize) -> bool
    requires { place < 4 }
    ensures { result ≡ all_have numbers.now place }
{
    numbers.iter().all(|number| has_place(place, *number))
}

fn some_has(numbers: &[u8], place: usize) -> bool
    requires { place < 4 }
    ensures { result ≡ some_has numbers.now place }
{
    numbers.iter().any(|number| has_place(place, *number))
}

// Of the places before a count the last that tells of a place.
fn twin_before(numbers: &[u8], selected: &[Signal], place: usize, count: usize) -> Option<Signal>
    requires place { place < 4 }
    requires count { count ≤ place }
    requires places { length selected.now ≡ 4 }
    ensures { result ≡ twin_before numbers.now selected.now place count }
{
    if count == 0 {
        return None;
    }
    match twin_at(numbers, selected, place, count - 1) {
        Some(signal) => Some(signal),
        None => twin_before(numbers, selected, place, count - 1),
    }
}

// What an earlier place with a variable tells of a place.
fn twin_at(numbers: &[u8], selected: &[Signal], place: usize, earlier: usize) -> Option<Signal>
    requires place { place < 4 }
    requires earlier { earlier < 4 }
    requires places { length selected.now ≡ 4 }
    ensures { result ≡ twin_at numbers.now selected.now place earlier }
{
    let signal = selected[earlier];
    if !matches!(signal, Signal::Literal(_)) {
        return None;
    }
    if are_alike(numbers, place, earlier) {
        return Some(signal);
    }
    if are_opposite(numbers, place, earlier) {
        return Some(signal.negated());
    }
    None
}

fn are_alike(numbers: &[u8], place: usize, other: usize) -> bool
    requires place { place < 4 }
    requires other { other < 4 }
    ensures { result ≡ are_alike numbers.now place other }
{
    numbers.iter().all(|number| has_place(place, *number) == has_place(other, *number))
}

fn are_opposite(numbers: &[u8], place: usize, other: usize) -> bool
    requires place { place < 4 }
    requires other { other < 4 }
    ensures { result ≡ are_opposite numbers.now place other }
{
    numbers.iter().all(|number| has_place(place, *number) != has_place(other, *number))
}

// Adds the clause that a selection is not a number.
fn differ(form: &mut Form, selected: [Signal; 4], number: u8) -> Result<(), NoMemory>
    requires { Fits (after form.old (differs selected number)) }
    ensures { OnOk result (form.new ≡ after form.old (differs selected number)) }
{
    form.demand(&[
        differs_at(selected, number, 0),
        differs_at(selected, number, 1),
        differs_at(selected, number, 2),
        differs_at(selected, number, 3),
    ])
}

// What is true of a selection that differs from a number at a place.
fn differs_at(selected: [Signal; 4], number: u8, place: usize) -> Signal
    requires { place < 4 }
    ensures { result ≡ differs_at selected number place }
{
    let signal = selected[place];
    if has_place(place, number) {
        signal.negated()
    } else {
        signal
    }
}
