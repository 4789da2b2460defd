ghost use Rattle.std.specs.Prelude.{◌≡◌, IfOk, OnOk};
ghost use Rattle.std.specs.List.{range_with_len};
ghost use Rattle.circuit_clauses.specs.Formulas.{Fits};
ghost use Rattle.clause_builds.specs.Builds.{made, after, each};
ghost use Rattle.probe_clauses.specs.Probings.{probing_of, all_cycles};
ghost use Rattle.probe_clauses.specs.Passes.{probes_in, probe_rows, bound_probes, probes, activities, hot_cycles};

use crate::counted::{Counted, column, counted_row, counts_of, some_counted};
use crate::run::ProbedRun;
use crate::windows::windowed;
use circuit_clauses::{Form, Signal};
use coco_base::{List, NoMemory};
use std::alloc::Global;
use tally_clauses::tally_of;

/// The probes of all cycles, a variable for each bit that can be probed: at least one is chosen, and at most the order.
pub(crate) fn probes(
    alloc: Global,
    form: &mut Form,
    run: &ProbedRun<'_>,
) -> Result<List<Counted>, NoMemory>
    requires { Fits (after form.old (probes (probing_of run.now))) }
    ensures probes { IfOk result (λ cycles. cycles ≡ made form.old (probes (probing_of run.now))) }
    ensures formula { OnOk result (form.new ≡ after form.old (probes (probing_of run.now))) }
{
    let cycles = probe_rows(alloc, form, run)?;
    bound_probes(alloc, form, run, cycles.as_slice())?;
    Ok(cycles)
}

fn probe_rows(
    alloc: Global,
    form: &mut Form,
    run: &ProbedRun<'_>,
) -> Result<List<Counted>, NoMemory>
    requires { Fits (after form.old (probe_rows (probing_of run.now))) }
    ensures probes { IfOk result (λ cycles. cycles ≡ made form.old (probe_rows (probing_of run.now))) }
    ensures formula { OnOk result (form.new ≡ after form.old (probe_rows (probing_of run.now))) }
{
    let probed = run.probed(alloc)?;
    let mut cycles = List::new(alloc);
    'cycles: for _cycle in 0..run.cycles() {
        let counted = counted_row(alloc, form, run.order(), probed.as_slice())?;
        cycles.push(counted)?;
    }
    Ok(cycles)
}

fn bound_probes(
    alloc: Global,
    form: &mut Form,
    run: &ProbedRun<'_>,
    cycles: &[Counted],
) -> Result<(), NoMemory>
    requires { Fits (after form.old (bound_probes (probing_of run.now) cycles.now)) }
    ensures formula { OnOk result (form.new ≡ after form.old (bound_probes (probing_of run.now) cycles.now)) }
{
    let counts = counts_of(alloc, cycles)?;
    let count = tally_of(alloc, form, run.order(), counts)?;
    let signals = count.as_slice();
    form.demand(&signals[..signals.len().min(1)])?;
    Ok(())
}

/// By bit and cycle, whether a probe of the bit is active.
pub(crate) fn activities(
    alloc: Global,
    form: &mut Form,
    run: &ProbedRun<'_>,
    cycles: &[Counted],
) -> Result<List<List<Signal>>, NoMemory>
    requires { Fits (after form.old (activities (probing_of run.now) cycles.now)) }
    ensures rows { IfOk result (λ rows. rows ≡ made form.old (activities (probing_of run.now) cycles.now)) }
    ensures formula { OnOk result (form.new ≡ after form.old (activities (probing_of run.now) cycles.now)) }
{
    let mut rows = List::new(alloc);
    'bits: for bit in 0..run.bits() {
        let chosen = column(alloc, cycles, bit as usize)?;
        let row = windowed(alloc, form, run.window(), chosen.as_slice())?;
        rows.push(row)?;
    }
    Ok(rows)
}

/// By cycle, whether some probe is active.
pub(crate) fn hot_cycles(
    alloc: Global,
    form: &mut Form,
    run: &ProbedRun<'_>,
    cycles: &[Counted],
) -> Result<List<Signal>, NoMemory>
    requires { Fits (after form.old (hot_cycles (probing_of run.now) cycles.now)) }
    ensures row { IfOk result (λ row. row ≡ made form.old (hot_cycles (probing_of run.now) cycles.now)) }
    ensures formula { OnOk result (form.new ≡ after form.old (hot_cycles (probing_of run.now) cycles.now)) }
{
    let some = some_counted(alloc, cycles)?;
    let hot = windowed(alloc, form, run.window(), some.as_slice())?;
    Ok(hot)
}
