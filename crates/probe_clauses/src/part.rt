ghost use Rattle.std.specs.Prelude.{◌≡◌, IfOk, OnOk};
ghost use Rattle.circuit_clauses.specs.Formulas.{Fits};
ghost use Rattle.clause_builds.specs.Builds.{made, after};
ghost use Rattle.probe_clauses.specs.Probings.{probing_of};
ghost use Rattle.probe_clauses.specs.Parts.{shown_of, probe_part};

use crate::counted::{Counted, rows_of};
use crate::groups::{Grouped, group_bits};
use crate::links::links;
use crate::pairs::pairs;
use crate::probes::{activities, hot_cycles, probes};
use crate::reach::reached;
use crate::run::ProbedRun;
use crate::shown::Shown;
use circuit_clauses::{Form, Signal};
use coco_base::{List, NoMemory};
use std::alloc::Global;

/// By cycle and bit, whether a probe is chosen and whether a pair is.
#[derive(Debug, Drop)]
pub struct ProbePart {
    pub probes: List<List<Signal>>,
    pub pairs: List<List<Signal>>,
}

/// Adds all clauses about probes and pairs: at least one and at most as many probes as asked for, and each pair is
/// shown by one.
pub fn probe_part(
    alloc: Global,
    form: &mut Form,
    run: &ProbedRun<'_>,
) -> Result<ProbePart, NoMemory>
    requires { Fits (after form.old (probe_part (probing_of run.now))) }
    ensures part { IfOk result (λ part. part ≡ made form.old (probe_part (probing_of run.now))) }
    ensures formula { OnOk result (form.new ≡ after form.old (probe_part (probing_of run.now))) }
{
    let groups = group_bits(alloc, form, run)?;
    let cycles = probes(alloc, form, run)?;
    let shown = shown_of(alloc, form, run, groups, cycles.as_slice())?;
    let pairs = pairs(alloc, form, run, &shown)?;
    let probes = rows_of(alloc, cycles.as_slice())?;
    Ok(ProbePart { probes, pairs })
}

/// What is active, and what it reaches and shows.
fn shown_of(
    alloc: Global,
    form: &mut Form,
    run: &ProbedRun<'_>,
    groups: Grouped,
    cycles: &[Counted],
) -> Result<Shown, NoMemory>
    requires { Fits (after form.old (shown_of (probing_of run.now) groups cycles.now)) }
    ensures shown { IfOk result (λ shown. shown ≡ made form.old (shown_of (probing_of run.now) groups cycles.now)) }
    ensures formula { OnOk result (form.new ≡ after form.old (shown_of (probing_of run.now) groups cycles.now)) }
{
    let Grouped { group, near } = groups;
    let active = activities(alloc, form, run, cycles)?;
    let hot = hot_cycles(alloc, form, run, cycles)?;
    links(alloc, form, run, group.as_slice(), active.as_slice())?;
    let reached = reached(alloc, form, run, active.as_slice())?;
    Ok(Shown { reached, near, hot })
}
