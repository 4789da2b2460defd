ghost use Rattle.std.specs.Prelude.{◌≡◌, IfOk, OnOk};
ghost use Rattle.circuit_clauses.specs.Formulas.{Fits};
ghost use Rattle.clause_builds.specs.Builds.{made, after};
ghost use Rattle.probe_clauses.specs.Probings.{probing_of};
ghost use Rattle.probe_clauses.specs.Passes.{groups, near_groups, group_bits};

use crate::counted::{Counted, counted_row};
use crate::run::ProbedRun;
use crate::walks::{Times, walk_down};
use circuit_clauses::{Form, Signal};
use coco_base::{List, NoMemory};
use std::alloc::Global;

/// By bit, whether a chosen probe of it is active while it is not calm, and whether it may be reached from such a bit.
#[derive(Debug, Drop)]
pub(crate) struct Grouped {
    pub group: List<Signal>,
    pub near: List<Signal>,
}

/// The groups, of which at most as many are chosen as there may be probes, and what is near them.
pub(crate) fn group_bits(
    alloc: Global,
    form: &mut Form,
    run: &ProbedRun<'_>,
) -> Result<Grouped, NoMemory>
    requires { Fits (after form.old (group_bits (probing_of run.now))) }
    ensures groups { IfOk result (λ all. all ≡ made form.old (group_bits (probing_of run.now))) }
    ensures formula { OnOk result (form.new ≡ after form.old (group_bits (probing_of run.now))) }
{
    let group = groups(alloc, form, run)?;
    let near = near_groups(alloc, form, run, group.as_slice())?;
    Ok(Grouped { group, near })
}

fn groups(alloc: Global, form: &mut Form, run: &ProbedRun<'_>) -> Result<List<Signal>, NoMemory>
    requires { Fits (after form.old (groups (probing_of run.now))) }
    ensures groups { IfOk result (λ row. row ≡ made form.old (groups (probing_of run.now))) }
    ensures formula { OnOk result (form.new ≡ after form.old (groups (probing_of run.now))) }
{
    let moving = run.moving(alloc)?;
    let Counted { row, count: _ } = counted_row(alloc, form, run.order(), moving.as_slice())?;
    Ok(row)
}

fn near_groups(
    alloc: Global,
    form: &mut Form,
    run: &ProbedRun<'_>,
    group: &[Signal],
) -> Result<List<Signal>, NoMemory>
    requires { Fits (after form.old (near_groups (probing_of run.now) group.now)) }
    ensures near { IfOk result (λ row. row ≡ made form.old (near_groups (probing_of run.now) group.now)) }
    ensures formula { OnOk result (form.new ≡ after form.old (near_groups (probing_of run.now) group.now)) }
{
    let times = Times {
        first: 0,
        count: run.cycles(),
    };
    let mut near = Vec::from_slice(alloc, group)?;
    walk_down(form, run, times, near.as_mut_slice())?;
    Ok(List::from_vec(near))
}
