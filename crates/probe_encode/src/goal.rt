// The clauses of labels: their variables are the sums, and the sums show a leak.
ghost use Rattle.std.specs.Prelude.{◌≡◌, length, IfOk, OnOk};
ghost use Rattle.std.specs.List.Sorted.{IsStrictlyIncreasing};
ghost use Rattle.circuit_clauses.specs.Formulas.{Fits};
ghost use Rattle.clause_builds.specs.Builds.{made, after, through};
ghost use Rattle.coco_model.specs.Labels.{IsLabelTable};
ghost use Rattle.probe_encode.specs.Goals.{label_variables, same_signals, label_sums, goal_demands, some_holds};

use crate::goal_list::{Labelled, goal_clauses};
use crate::whole::whole_bits;
use circuit_clauses::{Form, Signal};
use clause_builds::signal_at;
use coco_base::{LabelTable, List, NoMemory};
use std::alloc::Global;

/// A variable for each label.
pub(crate) fn label_variables(
    alloc: Global,
    form: &mut Form,
    labels: &[u32],
) -> Result<List<Signal>, NoMemory>
    requires { Fits (after form.old (label_variables labels.now)) }
    ensures signals { IfOk result (λ signals. signals ≡ made form.old (label_variables labels.now)) }
    ensures formula { OnOk result (form.new ≡ after form.old (label_variables labels.now)) }
{
    let mut variables = List::new(alloc);
    'labels: for _label in labels {
        let variable = form.input(true);
        variables.push(variable)?;
    }
    Ok(variables)
}

/// The variable of each label is the sum of that label.
pub(crate) fn label_sums(
    form: &mut Form,
    variables: &[Signal],
    totals: &[Signal],
) -> Result<(), NoMemory>
    requires { Fits (after form.old (label_sums variables.now totals.now)) }
    ensures { OnOk result (form.new ≡ after form.old (label_sums variables.now totals.now)) }
{
    'labels: for place in 0..variables.len() {
        same_signals(form, signal_at(variables, place), signal_at(totals, place))?;
    }
    Ok(())
}

fn same_signals(form: &mut Form, one: Signal, other: Signal) -> Result<(), NoMemory>
    requires { Fits (after form.old (same_signals one other)) }
    ensures { OnOk result (form.new ≡ after form.old (same_signals one other)) }
{
    form.demand(&[one.negated(), other])?;
    form.demand(&[one, other.negated()])?;
    Ok(())
}

/// Adds the goal: the sum shows a leak.
pub(crate) fn goal_demands(
    alloc: Global,
    form: &mut Form,
    labelled: &Labelled<'_>,
    table: &LabelTable,
) -> Result<(), NoMemory>
    requires labels { IsStrictlyIncreasing labelled.now.labels.now }
    requires table { IsLabelTable table.now }
    requires fits { Fits (after form.old (goal_demands labelled.now.variables.now table.now labelled.now.labels.now)) }
    ensures { let build = goal_demands labelled.now.variables.now table.now labelled.now.labels.now in
        OnOk result (form.new ≡ after form.old build) }
{
    let bits = whole_bits(alloc, table, labelled.labels)?;
    let clauses = goal_clauses(alloc, labelled, bits.as_slice())?;
    demand_all(form, clauses.as_slice())
}

fn demand_all(form: &mut Form, clauses: &[List<Signal>]) -> Result<(), NoMemory>
    requires { Fits (after form.old (through some_holds clauses.now tt)) }
    ensures { OnOk result (form.new ≡ after form.old (through some_holds clauses.now tt)) }
{
    'clauses: for clause in clauses {
        form.demand(clause.as_slice())?;
    }
    Ok(())
}
