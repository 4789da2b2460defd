ghost use Rattle.std.specs.Prelude.{◌≡◌, ◌<◌, ◌≤◌, ◌+◌, length, OnOk};
ghost use Rattle.circuit_clauses.specs.Formulas.{Fits};
ghost use Rattle.clause_builds.specs.Builds.{made, after};
ghost use Rattle.probe_clauses.specs.Probings.{probing_of};
ghost use Rattle.probe_clauses.specs.Times.{times_of};
ghost use Rattle.probe_clauses.specs.Walks.{pass_to, pass_on, walk_down};

use crate::run::{ProbedRun, wires_of};
use circuit_clauses::{Form, Signal};
use clause_builds::{or_into, signal_at};
use coco_base::{NoMemory, Wire};

/// So many cycles, from a first one on.
#[derive(Clone, Copy, Debug)]
pub(crate) struct Times {
    pub first: usize,
    pub count: usize,
}

/// What is true at the output of a cell becomes true at the inputs that are open in some of the cycles, cell by cell.
pub(crate) fn walk_down(
    form: &mut Form,
    run: &ProbedRun<'_>,
    times: Times,
    row: &mut [Signal],
) -> Result<(), NoMemory>
    requires times { times.first + times.count ≤ length run.now.rows }
    requires fits { Fits (after form.old (walk_down (probing_of run.now) (times_of times) row.old)) }
    ensures row { OnOk result (row.new ≡ made form.old (walk_down (probing_of run.now) (times_of times) row.old)) }
    ensures formula { let walk = walk_down (probing_of run.now) (times_of times) row.old in
        OnOk result (form.new ≡ after form.old walk) }
{
    let cells = run.cells();
    'cells: for i in 0..cells.len() {
        pass_on(form, run, times, cells[cells.len() - 1 - i], row)?;
    }
    Ok(())
}

/// The same at the inputs of one cell.
fn pass_on(
    form: &mut Form,
    run: &ProbedRun<'_>,
    times: Times,
    cell: u32,
    row: &mut [Signal],
) -> Result<(), NoMemory>
    requires times { times.first + times.count ≤ length run.now.rows }
    requires cell { cell < length run.now.gates.flat.cells }
    requires fits { Fits (after form.old (pass_on (probing_of run.now) (times_of times) cell row.old)) }
    ensures row { OnOk result (row.new ≡ made form.old (pass_on (probing_of run.now) (times_of times) cell row.old)) }
    ensures formula { let pass = pass_on (probing_of run.now) (times_of times) cell row.old in
        OnOk result (form.new ≡ after form.old pass) }
{
    let gate = run.cell(cell);
    'places: for place in 0..wires_of(gate).len() {
        let wire = run.open_wire(times, cell, place);
        pass_to(form, wire, gate.output, row)?;
    }
    Ok(())
}

/// The bit of a wire becomes what it or the output is.
fn pass_to(form: &mut Form, wire: Wire, output: u32, row: &mut [Signal]) -> Result<(), NoMemory>
    requires { Fits (after form.old (pass_to wire output row.old)) }
    ensures row { OnOk result (row.new ≡ made form.old (pass_to wire output row.old)) }
    ensures formula { OnOk result (form.new ≡ after form.old (pass_to wire output row.old)) }
{
    match wire {
        Wire::Const(_) => Ok(()),
        Wire::Bit(bit) => {
            let from = signal_at(row, output as usize);
            or_into(form, row, bit as usize, from)
        }
    }
}
