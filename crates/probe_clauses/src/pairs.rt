ghost use Rattle.std.specs.Prelude.{◌≡◌, ◌<◌, ◌+◌, ◌^◌, length, IfOk, OnOk};
ghost use Rattle.circuit_clauses.specs.Formulas.{Fits};
ghost use Rattle.clause_builds.specs.Builds.{made, after};
ghost use Rattle.probe_clauses.specs.Probings.{probing_of};
ghost use Rattle.probe_clauses.specs.Passes.{show_pair, pair_of, pairs_in, pairs};

use crate::counted::at;
use crate::run::ProbedRun;
use crate::shown::Shown;
use circuit_clauses::{FALSE, Form, Signal};
use clause_builds::signal_at;
use coco_base::{List, NoMemory};
use std::alloc::Global;

/// By cycle and bit, whether a pair is chosen: a variable for each pair that is unknown and that some probe shows.
pub(crate) fn pairs(
    alloc: Global,
    form: &mut Form,
    run: &ProbedRun<'_>,
    shown: &Shown,
) -> Result<List<List<Signal>>, NoMemory>
    requires { Fits (after form.old (pairs (probing_of run.now) shown.now)) }
    ensures rows { IfOk result (λ rows. rows ≡ made form.old (pairs (probing_of run.now) shown.now)) }
    ensures formula { OnOk result (form.new ≡ after form.old (pairs (probing_of run.now) shown.now)) }
{
    let mut rows = List::new(alloc);
    'cycles: for cycle in 0..run.cycles() {
        let row = pairs_in(alloc, form, run, shown, cycle)?;
        rows.push(row)?;
    }
    Ok(rows)
}

fn pairs_in(
    alloc: Global,
    form: &mut Form,
    run: &ProbedRun<'_>,
    shown: &Shown,
    cycle: usize,
) -> Result<List<Signal>, NoMemory>
    requires cycle { cycle < length run.now.rows }
    requires fits { Fits (after form.old (pairs_in (probing_of run.now) shown.now cycle)) }
    ensures row { IfOk result (λ row. row ≡ made form.old (pairs_in (probing_of run.now) shown.now cycle)) }
    ensures formula { OnOk result (form.new ≡ after form.old (pairs_in (probing_of run.now) shown.now cycle)) }
{
    let mut row = List::new(alloc);
    'bits: for bit in 0..run.bits() {
        let pair = pair_of(form, run, shown, cycle, bit)?;
        row.push(pair)?;
    }
    Ok(row)
}

fn pair_of(
    form: &mut Form,
    run: &ProbedRun<'_>,
    shown: &Shown,
    cycle: usize,
    bit: u32,
) -> Result<Signal, NoMemory>
    requires cycle { cycle < length run.now.rows }
    requires bit { bit < run.now.gates.flat.bits }
    requires fits { Fits (after form.old (pair_of (probing_of run.now) shown.now cycle bit)) }
    ensures pair { IfOk result (λ pair. pair ≡ made form.old (pair_of (probing_of run.now) shown.now cycle bit)) }
    ensures formula { OnOk result (form.new ≡ after form.old (pair_of (probing_of run.now) shown.now cycle bit)) }
{
    if !run.is_pair(cycle, bit) {
        return Ok(FALSE);
    }
    let _cycles = run.cycles(); // so the number of the next cycle fits
    let pair = form.input(false);
    show_pair(form, shown, cycle, bit as usize, pair)?;
    Ok(pair)
}

/// Demands what a chosen pair needs.
fn show_pair(
    form: &mut Form,
    shown: &Shown,
    cycle: usize,
    bit: usize,
    pair: Signal,
) -> Result<(), NoMemory>
    requires cycle { cycle + 1 < 2 ^ 64 }
    requires fits { Fits (after form.old (show_pair shown.now cycle bit pair)) }
    ensures formula { OnOk result (form.new ≡ after form.old (show_pair shown.now cycle bit pair)) }
{
    let reached = shown.reached.as_slice();
    let hot = shown.hot.as_slice();
    let not = pair.negated();
    form.demand(&[not, at(reached, cycle, bit), at(reached, cycle + 1, bit)])?;
    form.demand(&[not, signal_at(shown.near.as_slice(), bit)])?;
    form.demand(&[not, signal_at(hot, cycle), signal_at(hot, cycle + 1)])?;
    Ok(())
}
