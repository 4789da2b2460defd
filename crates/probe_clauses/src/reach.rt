ghost use Rattle.std.specs.Prelude.{◌≡◌, ◌<◌, length, IfOk, OnOk};
ghost use Rattle.circuit_clauses.specs.Formulas.{Fits};
ghost use Rattle.clause_builds.specs.Builds.{made, after};
ghost use Rattle.probe_clauses.specs.Probings.{probing_of};
ghost use Rattle.probe_clauses.specs.Passes.{start_in, starts_in, reached_in, reached};

use crate::counted::at;
use crate::run::ProbedRun;
use crate::walks::{Times, walk_down};
use circuit_clauses::{FALSE, Form, Signal};
use coco_base::{List, NoMemory};
use std::alloc::Global;

/// By cycle and bit, whether some active probe reaches the bit.
pub(crate) fn reached(
    alloc: Global,
    form: &mut Form,
    run: &ProbedRun<'_>,
    active: &[List<Signal>],
) -> Result<List<List<Signal>>, NoMemory>
    requires { Fits (after form.old (reached (probing_of run.now) active.now)) }
    ensures rows { IfOk result (λ rows. rows ≡ made form.old (reached (probing_of run.now) active.now)) }
    ensures formula { OnOk result (form.new ≡ after form.old (reached (probing_of run.now) active.now)) }
{
    let mut rows = List::new(alloc);
    'cycles: for cycle in 0..run.cycles() {
        let row = reached_in(alloc, form, run, active, cycle)?;
        rows.push(row)?;
    }
    Ok(rows)
}

fn reached_in(
    alloc: Global,
    form: &mut Form,
    run: &ProbedRun<'_>,
    active: &[List<Signal>],
    cycle: usize,
) -> Result<List<Signal>, NoMemory>
    requires cycle { cycle < length run.now.rows }
    requires fits { Fits (after form.old (reached_in (probing_of run.now) active.now cycle)) }
    ensures row { IfOk result (λ row. row ≡ made form.old (reached_in (probing_of run.now) active.now cycle)) }
    ensures formula { OnOk result (form.new ≡ after form.old (reached_in (probing_of run.now) active.now cycle)) }
{
    let times = Times {
        first: cycle,
        count: 1,
    };
    let mut row = starts_in(alloc, run, active, cycle)?;
    walk_down(form, run, times, row.as_mut_slice())?;
    Ok(List::from_vec(row))
}

fn starts_in(
    alloc: Global,
    run: &ProbedRun<'_>,
    active: &[List<Signal>],
    cycle: usize,
) -> Result<Vec<Signal>, NoMemory>
    ensures { IfOk result (λ row. row.items ≡ starts_in (probing_of run.now) active.now cycle) }
{
    let mut row = Vec::new(alloc);
    'bits: for bit in 0..run.bits() {
        row.push(start_in(run, active, cycle, bit))?;
    }
    Ok(row)
}

fn start_in(run: &ProbedRun<'_>, active: &[List<Signal>], cycle: usize, bit: u32) -> Signal
    ensures { result ≡ start_in (probing_of run.now) active.now cycle bit }
{
    if run.moves(cycle, bit) {
        at(active, bit as usize, cycle)
    } else {
        FALSE
    }
}
