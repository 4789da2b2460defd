ghost use Rattle.std.specs.Prelude.{◌≡◌, ◌<◌, length, IfOk, OnOk};
ghost use Rattle.circuit_clauses.specs.Formulas.{Fits};
ghost use Rattle.clause_builds.specs.Builds.{made, after};
ghost use Rattle.clause_builds.specs.Rows.{signal_at, or_into, xor_into, fresh_row, fresh_if, singles, count_up};

use circuit_clauses::{FALSE, Form, Signal, TRUE};
use coco_base::{List, NoMemory};
use std::alloc::Global;
use tally_clauses::tally_of;

/// The signal at a place; false past the end. It takes no memory.
pub fn signal_at(signals: &[Signal], place: usize) -> Signal
    ensures { result ≡ signal_at signals.now place }
{
    signals.get(place).copied().unwrap_or(FALSE)
}

/// The signal at a place becomes what it is or another is. Past the end no signal and no step comes.
pub fn or_into(
    form: &mut Form,
    signals: &mut [Signal],
    place: usize,
    other: Signal,
) -> Result<(), NoMemory>
    requires { Fits (after form.old (or_into signals.old place other)) }
    ensures signals { OnOk result (signals.new ≡ made form.old (or_into signals.old place other)) }
    ensures formula { OnOk result (form.new ≡ after form.old (or_into signals.old place other)) }
{
    if place < signals.len() {
        signals[place] = form.or_and(signals[place], other, TRUE)?;
    }
    Ok(())
}

/// The signal at a place becomes its exclusive or with (`p` and `b`).
pub fn xor_into(
    form: &mut Form,
    signals: &mut [Signal],
    place: usize,
    p: Signal,
    b: Signal,
) -> Result<(), NoMemory>
    requires place { place < length signals.old }
    requires fits { Fits (after form.old (xor_into signals.old place p b)) }
    ensures signals { OnOk result (signals.new ≡ made form.old (xor_into signals.old place p b)) }
    ensures formula { OnOk result (form.new ≡ after form.old (xor_into signals.old place p b)) }
{
    signals[place] = form.xor_and(signals[place], p, b)?;
    Ok(())
}

/// A variable for each place where one is wanted, as a negative literal, and elsewhere a false signal.
pub fn fresh_row(alloc: Global, form: &mut Form, wanted: &[bool]) -> Result<List<Signal>, NoMemory>
    requires { Fits (after form.old (fresh_row wanted.now)) }
    ensures signals { IfOk result (λ row. row ≡ made form.old (fresh_row wanted.now)) }
    ensures formula { OnOk result (form.new ≡ after form.old (fresh_row wanted.now)) }
{
    let mut row = List::new(alloc);
    'places: for is_wanted in wanted {
        let signal = fresh_if(form, *is_wanted);
        row.push(signal)?;
    }
    Ok(row)
}

fn fresh_if(form: &mut Form, wanted: bool) -> Signal
    requires { Fits (after form.old (fresh_if wanted)) }
    ensures signal { result ≡ made form.old (fresh_if wanted) }
    ensures formula { form.new ≡ after form.old (fresh_if wanted) }
{
    if wanted { form.input(false) } else { FALSE }
}

/// How many signals are true, up to a limit, with the demand that it is not passed.
pub fn count_up(
    alloc: Global,
    form: &mut Form,
    limit: usize,
    signals: &[Signal],
) -> Result<List<Signal>, NoMemory>
    requires { Fits (after form.old (count_up limit signals.now)) }
    ensures tally { IfOk result (λ tally. tally ≡ made form.old (count_up limit signals.now)) }
    ensures formula { OnOk result (form.new ≡ after form.old (count_up limit signals.now)) }
{
    let parts = singles(alloc, signals)?;
    tally_of(alloc, form, limit, parts)
}

fn singles(alloc: Global, signals: &[Signal]) -> Result<List<List<Signal>>, NoMemory>
    ensures { IfOk result (λ parts. parts ≡ singles signals.now) }
{
    let mut parts = List::new(alloc);
    'signals: for signal in signals {
        let mut part = List::new(alloc);
        part.push(*signal)?;
        parts.push(part)?;
    }
    Ok(parts)
}
