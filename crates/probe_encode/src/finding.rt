// Reading a model of the formula as a finding.
ghost use Rattle.std.specs.Prelude.{◌≡◌, ◌<◌, ◌≤◌, ◌^◌, ◌++◌, ◌∷◌, [], ℕ, Contains, false, cond, map, length, get_or, IfOk, OnOk};
ghost use Rattle.std.specs.List.Sorted.{IsStrictlyIncreasing};
ghost use Rattle.circuit_clauses.specs.Signals.{value};
ghost use Rattle.node_clauses.specs.Chosen.{chosen_number, chosen_numbers};
ghost use Rattle.probe_encode.specs.Readings.{moment, true_places, true_moments, finding_of};
ghost use Rattle.probe_encode.specs.Readable.{values_of, labels_by, AreNumbered};

use crate::coded::Encoded;
use circuit_clauses::Signal;
use clause_builds::signal_at;
use coco_base::{Finding, LabelSet, List, NoMemory, Probe, Selection};
use std::alloc::Global;

impl Encoded {
    /// The finding that a model reads as: the chosen probes and pairs, a choice for each node, and the set of labels.
    /// A variable beyond the model is false.
    pub fn finding(&self, alloc: Global, model: &[bool]) -> Result<Finding, NoMemory>
        ensures { IfOk result (λ f. f ≡ finding_of self.now.tables (λ v. get_or model.now v false)) }
    {
        let probes = true_moments(alloc, model, self.parts.part.probes.as_slice())?;
        let seen = true_moments(alloc, model, self.parts.part.pairs.as_slice())?;
        let choices = chosen_numbers(alloc, model, self.parts.sums.selections())?;
        let variables = self.parts.variables.as_slice();
        let set = true_labels(alloc, model, variables, self.labels.as_slice())?;
        Ok(Finding {
            probes,
            seen,
            selection: Selection { choices },
            set,
        })
    }
}

// The bits and cycles whose signals are true, by cycle and then by bit.
fn true_moments(
    alloc: Global,
    model: &[bool],
    rows: &[List<Signal>],
) -> Result<List<Probe>, NoMemory>
    requires { AreNumbered rows.now }
    ensures { IfOk result (λ moments. moments ≡ true_moments (values_of model.now) 0 rows.now) }
{
    let mut moments = List::new(alloc);
    'cycles: for cycle in 0..rows.len() {
        add_moments(model, cycle as u32, rows[cycle].as_slice(), &mut moments)?;
    }
    Ok(moments)
}

// Adds the bits of a cycle whose signals are true.
fn add_moments(
    model: &[bool],
    cycle: u32,
    row: &[Signal],
    moments: &mut List<Probe>,
) -> Result<(), NoMemory>
    requires { length row.now < 2 ^ 32 }
    ensures { OnOk result (moments.new
        ≡ moments.old ++ map (moment cycle) (true_places (values_of model.now) row.now)) }
{
    'bits: for bit in 0..row.len() {
        let probe = Probe {
            bit: bit as u32,
            cycle,
        };
        push_if(value(model, signal_at(row, bit)), probe, moments)?;
    }
    Ok(())
}

fn push_if(is_wanted: bool, probe: Probe, moments: &mut List<Probe>) -> Result<(), NoMemory>
    ensures { OnOk result (moments.new ≡ moments.old ++ cond is_wanted (probe ∷ []) []) }
{
    if is_wanted {
        moments.push(probe)?;
    }
    Ok(())
}

// The number of the choice of each node.
fn chosen_numbers(
    alloc: Global,
    model: &[bool],
    selections: &[[Signal; 4]],
) -> Result<List<u8>, NoMemory>
    ensures { IfOk result (λ numbers. numbers ≡ chosen_numbers (values_of model.now) selections.now) }
{
    let mut numbers = List::new(alloc);
    'nodes: for selected in selections {
        numbers.push(chosen_number(model, selected))?;
    }
    Ok(numbers)
}

// Place 0 counts 1, place 1 counts 2, and so on.
fn chosen_number(model: &[bool], selected: &[Signal; 4]) -> u8
    ensures { result ≡ chosen_number (values_of model.now) selected.now }
{
    let [first, second, third, fourth] = *selected;
    bit(model, first) + 2 * (bit(model, second) + 2 * (bit(model, third) + 2 * bit(model, fourth)))
}

fn bit(model: &[bool], signal: Signal) -> u8
    ensures bit { result ≡ cond (value (values_of model.now) signal) 1 0 }
    ensures small { result ≤ 1 }
{
    if value(model, signal) { 1 } else { 0 }
}

// The labels whose variables are true. Labels and variables are in one order.
fn true_labels(
    alloc: Global,
    model: &[bool],
    variables: &[Signal],
    labels: &[u32],
) -> Result<LabelSet, NoMemory>
    requires { IsStrictlyIncreasing labels.now }
    ensures { IfOk result (λ set. set ≡ labels_by (values_of model.now) variables.now labels.now) }
{
    let mut set = LabelSet::empty(alloc);
    'labels: for place in 0..labels.len() {
        let is_in_set = value(model, signal_at(variables, place));
        set = add_if(alloc, is_in_set, set, labels[place])?;
    }
    Ok(set)
}

// A set, or the set with one more label, which is behind all others.
fn add_if(alloc: Global, is_wanted: bool, set: LabelSet, label: u32) -> Result<LabelSet, NoMemory>
    requires { (other : ℕ) → Contains set other → other < label }
    ensures { IfOk result (λ more. more ≡ set ++ cond is_wanted (label ∷ []) []) }
{
    if is_wanted {
        with_label(alloc, &set, label)
    } else {
        Ok(set)
    }
}

// A set with one more label, which is behind all others.
fn with_label(alloc: Global, set: &LabelSet, label: u32) -> Result<LabelSet, NoMemory>
    requires { (other : ℕ) → Contains set.now other → other < label }
    ensures { IfOk result (λ more. more ≡ set.now ++ label ∷ []) }
{
    let one = LabelSet::of(alloc, label)?;
    let more = set.union(alloc, &one)?;
    let _before = set.len(); // its labels ascend
    let _after = more.len(); // and so do these
    Ok(more)
}

// Whether a signal is true; a variable beyond the model is false.
fn value(model: &[bool], signal: Signal) -> bool
    ensures { result ≡ value (values_of model.now) signal }
{
    match signal {
        Signal::Constant(bit) => bit,
        Signal::Literal(lit) => {
            let value = model.get(lit.var as usize).copied().unwrap_or(false);
            if lit.positive { value } else { !value }
        }
    }
}
