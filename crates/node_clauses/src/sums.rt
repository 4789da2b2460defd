ghost use Rattle.std.specs.Prelude.{◌≡◌, ◌<◌, ℕ, true, length, get_or, OnOk, IfOk, MatchOption};
ghost use Rattle.std.specs.List.Sorted.{IsStrictlyIncreasing};
ghost use Rattle.circuit_clauses.specs.Formulas.{Fits};
ghost use Rattle.clause_builds.specs.Builds.{made, after};
ghost use Rattle.node_clauses.specs.Selectors.{some_has};
ghost use Rattle.node_clauses.specs.Sums.{add_at, add_label, add_copy, place_of, least_choice, set_least, add_choice, add_node, add_nodes, node_sums, run_of, IsNodeRun, AreSized, AreAsLong, AreSomeBelow};

use crate::choices::{PLACES, choices, has_place};
use crate::operands::add_operands;
use crate::selectors::selectors;
use circuit_clauses::{FALSE, Form, Signal, TRUE};
use clause_builds::xor_into;
use coco_base::{NoMemory, Node};
use label_cone::Cones;
use std::alloc::Global;
use std::marker::Model;

/// The nodes of a run, with their cones, which tell which nodes matter, and the labels that have variables.
#[derive(Clone, Copy, Debug)]
pub struct Nodes<'a> {
    pub nodes: &'a [Node],
    pub cones: &'a Cones,
    /// In ascending order.
    pub labels: &'a [u32],
}

/// What the sum of the sets of pairs is made of.
#[derive(Debug, Drop)]
pub struct NodeSums {
    weights: Vec<Signal>,
    totals: Vec<Signal>,
    selections: Vec<[Signal; 4]>,
}

impl Model for NodeSums {
    ghost use Rattle.node_clauses.specs.Sums.{NodeSums};

    ghost Value = { NodeSums };

    ghost view = { λ s. record { weights = s.weights.items; totals = s.totals.items; selections = s.selections.items } };
}

impl NodeSums {
    /// By label with a variable: whether the label is in the sum.
    pub fn totals(&self) -> &[Signal]
        ensures { result.now ≡ self.now.totals }
    {
        self.totals.as_slice()
    }

    /// By node: its choice, place by place; all false where the node is no gate.
    pub fn selections(&self) -> &[[Signal; 4]]
        ensures { result.now ≡ self.now.selections }
    {
        self.selections.as_slice()
    }
}

/// Adds the clauses of all nodes, where `weights` tell which nodes the pairs have: a choice for each gate that matters,
/// and the sum of the pairs' sets. The formula has to have room for them.
pub fn node_sums(
    alloc: Global,
    form: &mut Form,
    run: &Nodes,
    weights: Vec<Signal>,
) -> Result<NodeSums, NoMemory>
    requires run { IsNodeRun (run_of run.now) }
    requires weights { length weights.items ≡ length run.now.nodes.now }
    requires fits { Fits (after form.old (node_sums (run_of run.now) weights.items)) }
    ensures sums { IfOk result (λ sums. sums ≡ made form.old (node_sums (run_of run.now) weights.items)) }
    ensures formula { OnOk result (form.new ≡ after form.old (node_sums (run_of run.now) weights.items)) }
{
    let mut sums = NodeSums {
        weights,
        totals: vec![in alloc; FALSE; run.labels.len()]?,
        selections: vec![in alloc; [FALSE; PLACES]; run.nodes.len()]?,
    };
    add_nodes(alloc, form, run, &mut sums)?;
    Ok(sums)
}

// All nodes hand on what they stand for, from the last to the first.
fn add_nodes(
    alloc: Global,
    form: &mut Form,
    run: &Nodes,
    sums: &mut NodeSums,
) -> Result<(), NoMemory>
    requires run { IsNodeRun (run_of run.now) }
    requires sized { AreSized (run_of run.now) sums.old }
    requires fits { Fits (after form.old (add_nodes (run_of run.now) (length run.now.nodes.now) sums.old)) }
    ensures sums { let build = add_nodes (run_of run.now) (length run.now.nodes.now) sums.old in
        OnOk result (sums.new ≡ made form.old build) }
    ensures formula { let build = add_nodes (run_of run.now) (length run.now.nodes.now) sums.old in
        OnOk result (form.new ≡ after form.old build) }
{
    let mut left = run.nodes.len();
    'nodes: while 0 < left {
        left -= 1;
        add_node(alloc, form, run, left, sums)?;
    }
    Ok(())
}

// A node hands on what it stands for.
fn add_node(
    alloc: Global,
    form: &mut Form,
    run: &Nodes,
    place: usize,
    sums: &mut NodeSums,
) -> Result<(), NoMemory>
    requires run { IsNodeRun (run_of run.now) }
    requires place { place < length run.now.nodes.now }
    requires sized { AreSized (run_of run.now) sums.old }
    requires fits { Fits (after form.old (add_node (run_of run.now) place sums.old)) }
    ensures sums { OnOk result (sums.new ≡ made form.old (add_node (run_of run.now) place sums.old)) }
    ensures formula { OnOk result (form.new ≡ after form.old (add_node (run_of run.now) place sums.old)) }
    ensures sized { AreSized (run_of run.now) sums.new }
{
    match run.nodes[place] {
        Node::Nothing => Ok(()),
        Node::Label(label) => {
            let total = place_of(run.labels, label);
            add_label(form, total, place, sums)
        }
        Node::Copy(origin) => add_copy(form, origin as usize, place, sums),
        Node::Gate {
            kind,
            parts,
            operands,
        } => {
            let numbers = choices(alloc, kind, parts)?;
            if !run.cones.matters(place as u32) {
                set_least(numbers.as_slice(), place, sums);
                return Ok(());
            }
            add_choice(form, numbers.as_slice(), operands, place, sums)
        }
    }
}

// A label with a sum, at a place, adds what it stands for to it.
fn add_label(
    form: &mut Form,
    total: Option<usize>,
    place: usize,
    sums: &mut NodeSums,
) -> Result<(), NoMemory>
    requires place { place < length sums.old.weights }
    requires total { MatchOption total (Unit {0}) (λ p. p < length sums.old.totals) }
    requires fits { Fits (after form.old (add_label total place sums.old)) }
    ensures sums { OnOk result (sums.new ≡ made form.old (add_label total place sums.old)) }
    ensures formula { OnOk result (form.new ≡ after form.old (add_label total place sums.old)) }
    ensures as_long { AreAsLong sums.new sums.old }
{
    let weight = sums.weights[place];
    add_at(form, total, weight, sums.totals.as_mut_slice())?;
    Ok(())
}

// A copy adds what it stands for to its origin.
fn add_copy(
    form: &mut Form,
    origin: usize,
    place: usize,
    sums: &mut NodeSums,
) -> Result<(), NoMemory>
    requires place { place < length sums.old.weights }
    requires origin { origin < length sums.old.weights }
    requires fits { Fits (after form.old (add_copy origin place sums.old)) }
    ensures sums { OnOk result (sums.new ≡ made form.old (add_copy origin place sums.old)) }
    ensures formula { OnOk result (form.new ≡ after form.old (add_copy origin place sums.old)) }
    ensures as_long { AreAsLong sums.new sums.old }
{
    let weight = sums.weights[place];
    xor_into(form, sums.weights.as_mut_slice(), origin, weight, TRUE)?;
    Ok(())
}

// A gate that does not matter has its least choice.
fn set_least(numbers: &[u8], place: usize, sums: &mut NodeSums)
    requires { place < length sums.old.selections }
    ensures { sums.new ≡ set_least numbers.now place sums.old }
{
    sums.selections[place] = least_choice(numbers);
}

// A gate has a choice of some numbers, and adds what it stands for to the operands.
fn add_choice(
    form: &mut Form,
    numbers: &[u8],
    operands: [u32; 4],
    place: usize,
    sums: &mut NodeSums,
) -> Result<(), NoMemory>
    requires place { place < length sums.old.weights }
    requires selection { place < length sums.old.selections }
    requires operands { AreSomeBelow numbers.now operands (length sums.old.weights) }
    requires fits { Fits (after form.old (add_choice numbers.now operands place sums.old)) }
    ensures sums { OnOk result (sums.new ≡ made form.old (add_choice numbers.now operands place sums.old)) }
    ensures formula { OnOk result (form.new ≡ after form.old (add_choice numbers.now operands place sums.old)) }
    ensures as_long { AreAsLong sums.new sums.old }
{
    let selected = selectors(form, numbers)?;
    let weight = sums.weights[place];
    add_operands(
        form,
        selected,
        operands,
        weight,
        sums.weights.as_mut_slice(),
    )?;
    sums.selections[place] = selected;
    Ok(())
}

// What a label stands for goes to the sum at a place, where there is one.
fn add_at(
    form: &mut Form,
    place: Option<usize>,
    weight: Signal,
    totals: &mut [Signal],
) -> Result<(), NoMemory>
    requires place { MatchOption place (Unit {0}) (λ p. p < length totals.old) }
    requires fits { Fits (after form.old (add_at place weight totals.old)) }
    ensures totals { OnOk result (totals.new ≡ made form.old (add_at place weight totals.old)) }
    ensures formula { OnOk result (form.new ≡ after form.old (add_at place weight totals.old)) }
    ensures length { length totals.new ≡ length totals.old }
{
    match place {
        Some(place) => xor_into(form, totals, place, weight, TRUE),
        None => Ok(()),
    }
}

// The place of a label among those with variables.
fn place_of(labels: &[u32], label: u32) -> Option<usize>
    requires { IsStrictlyIncreasing labels.now }
    ensures place { result ≡ place_of labels.now label }
    ensures within { MatchOption result (Unit {0}) (λ p. p < length labels.now) }
{
    match labels.binary_search(&label) {
        Ok(place) => Some(place),
        Err(_) => None,
    }
}

// The least choice, place by place.
fn least_choice(numbers: &[u8]) -> [Signal; 4]
    ensures { result ≡ least_choice numbers.now }
{
    let least = numbers.first().copied().unwrap_or(0);
    [
        Signal::Constant(has_place(0, least)),
        Signal::Constant(has_place(1, least)),
        Signal::Constant(has_place(2, least)),
        Signal::Constant(has_place(3, least)),
    ]
}
