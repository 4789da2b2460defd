ghost use Rattle.std.specs.Prelude.{◌≡◌, ◌∷◌, IfOk, OnOk};
ghost use Rattle.circuit_clauses.specs.Signals.{negated};
ghost use Rattle.circuit_clauses.specs.Formulas.{Fits};
ghost use Rattle.clause_builds.specs.Builds.{after};
ghost use Rattle.probe_clauses.specs.Probings.{probing_of};
ghost use Rattle.probe_clauses.specs.Passes.{imply_all, link, link_where, moving_actives, links};

use crate::counted::picked;
use crate::run::ProbedRun;
use circuit_clauses::{Form, Signal};
use clause_builds::signal_at;
use coco_base::{List, NoMemory};
use std::alloc::Global;

/// Demands that a group is chosen exactly where a probe of its bit is active in a cycle in which the bit is not calm.
pub(crate) fn links(
    alloc: Global,
    form: &mut Form,
    run: &ProbedRun<'_>,
    group: &[Signal],
    active: &[List<Signal>],
) -> Result<(), NoMemory>
    requires { Fits (after form.old (links (probing_of run.now) group.now active.now)) }
    ensures formula { OnOk result (form.new ≡ after form.old (links (probing_of run.now) group.now active.now)) }
{
    'bits: for bit in 0..run.bits() {
        let actives = moving_actives(alloc, run, active, bit)?;
        let signal = signal_at(group, bit as usize);
        link_where(alloc, form, run.is_moving(bit), signal, actives.as_slice())?;
    }
    Ok(())
}

/// The activities of a bit in the cycles in which it is not calm.
fn moving_actives(
    alloc: Global,
    run: &ProbedRun<'_>,
    active: &[List<Signal>],
    bit: u32,
) -> Result<List<Signal>, NoMemory>
    ensures { IfOk result (λ list. list ≡ moving_actives (probing_of run.now) active.now bit) }
{
    let moving = run.moving_cycles(alloc, bit)?;
    if (bit as usize) < active.len() {
        return picked(alloc, moving.as_slice(), active[bit as usize].as_slice());
    }
    picked(alloc, moving.as_slice(), &[])
}

/// Where it is wanted, demands that a signal is true exactly where one of some others is.
fn link_where(
    alloc: Global,
    form: &mut Form,
    wanted: bool,
    group: Signal,
    actives: &[Signal],
) -> Result<(), NoMemory>
    requires { Fits (after form.old (link_where wanted group actives.now)) }
    ensures formula { OnOk result (form.new ≡ after form.old (link_where wanted group actives.now)) }
{
    if !wanted {
        return Ok(());
    }
    link(alloc, form, group, actives)
}

fn link(alloc: Global, form: &mut Form, group: Signal, actives: &[Signal]) -> Result<(), NoMemory>
    requires { Fits (after form.old (link group actives.now)) }
    ensures formula { OnOk result (form.new ≡ after form.old (link group actives.now)) }
{
    let clause = clause_of(alloc, group, actives)?;
    form.demand(clause.as_slice())?;
    imply_all(form, group, actives)?;
    Ok(())
}

/// A signal implies one of some others.
fn clause_of(alloc: Global, group: Signal, actives: &[Signal]) -> Result<List<Signal>, NoMemory>
    ensures { IfOk result (λ clause. clause ≡ negated group ∷ actives.now) }
{
    let mut clause = List::new(alloc);
    clause.push(group.negated())?;
    'actives: for active in actives {
        clause.push(*active)?;
    }
    Ok(clause)
}

/// Demands that each of some signals implies another.
fn imply_all(form: &mut Form, group: Signal, actives: &[Signal]) -> Result<(), NoMemory>
    requires { Fits (after form.old (imply_all group actives.now)) }
    ensures formula { OnOk result (form.new ≡ after form.old (imply_all group actives.now)) }
{
    'actives: for active in actives {
        form.demand(&[active.negated(), group])?;
    }
    Ok(())
}
