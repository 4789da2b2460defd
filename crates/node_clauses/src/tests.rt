ghost use Rattle.std.specs.Prelude.{IfOk, OnOk};
ghost use Rattle.label_cone.specs.Coned.{IsConedRun};
ghost use Rattle.label_cone.specs.NodeCones.{IsOrderedRun};

use crate::choices::choices;
use crate::sums::{NodeSums, Nodes, node_sums};
use crate::{are_ascending, can_sum};
use circuit_clauses::{FALSE, Form, Signal};
use clause_store::{Lit, Store};
use coco_base::{Kind, LabelTable, Limits, List, NoMemory, Node, Part, Unrolled};
use label_cone::{Cones, cone_of, is_ordered_run};
use std::alloc::Global;
use std::process::Abort;
use std::test::Fail;

/// The literal of a variable, counted from 1 and negative where it is negated, as in DIMACS texts.
fn lit(number: i32) -> Lit {
    Lit {
        var: number.unsigned_abs().saturating_sub(1),
        positive: number > 0,
    }
}

fn signal(number: i32) -> Signal {
    Signal::Literal(lit(number))
}

/// Checks the clauses of a store.
fn check_clauses(rt: &impl Abort, store: &Store, clauses: &[&[i32]]) {
    let count = store.count();
    assert_eq!(rt; count as usize, clauses.len());
    for (id, clause) in clauses.iter().enumerate() {
        assert!(rt; id < count as usize);
        let lits = store.get(id as u32);
        assert_eq!(rt; lits.len(), clause.len());
        for (found, number) in lits.iter().zip(clause.iter()) {
            assert_eq!(rt; *found, lit(*number));
        }
    }
}

const BOTH: [Part; 4] = [Part::Vary, Part::Vary, Part::Zero, Part::Zero];

const THREE: [Part; 4] = [Part::Vary, Part::Vary, Part::Vary, Part::Zero];

const ALL: [Part; 4] = [Part::Vary; 4];

/// A multiplexer between a label and an AND gate, which a copy keeps; and an OR gate that nothing reads.
const NODES: [Node; 7] = [
    Node::Label(0),
    Node::Label(1),
    Node::Label(2),
    Node::Gate {
        kind: Kind::And,
        parts: BOTH,
        operands: [0, 1, 0, 0],
    },
    Node::Gate {
        kind: Kind::Mux,
        parts: THREE,
        operands: [0, 3, 2, 0],
    },
    Node::Copy(4),
    Node::Gate {
        kind: Kind::Or,
        parts: BOTH,
        operands: [1, 2, 0, 0],
    },
];

fn run_of(alloc: Global, nodes: &[Node]) -> Result<Unrolled, NoMemory> {
    Ok(Unrolled {
        bits: u32::try_from(nodes.len()).unwrap_or(u32::MAX),
        cycles: 1,
        ranks: List::new(alloc),
        nodes: List::from_vec(nodes.to_vec(alloc)?),
        table: LabelTable {
            secrets: List::new(alloc),
            masks: List::new(alloc),
            fresh: List::new(alloc),
            declared: 3,
            per_cycle: 0,
        },
    })
}

fn cones_of(alloc: Global, run: &Unrolled) -> Result<Cones, Fail>
    ensures ordered { OnOk result (IsOrderedRun run.now) }
    ensures cones { IfOk result (IsConedRun run.now 1) }
{
    if !is_ordered_run(run) {
        return Err(Fail::from(NoMemory));
    }
    match cone_of(alloc, run, 1, &Limits::usual()) {
        Ok(cones) => Ok(cones),
        Err(_) => Err(Fail::from(NoMemory)),
    }
}

/// The sums of a run with labels in ascending order and a weight for each node.
fn sums_where(
    alloc: Global,
    form: &mut Form,
    run: &Unrolled,
    labels: &[u32],
    weights: Vec<Signal>,
) -> Result<NodeSums, Fail> {
    let cones = cones_of(alloc, run)?;
    let nodes = run.nodes.as_slice();
    let count = nodes.len();
    if weights.len() != count || !are_ascending(labels) || !can_sum(form, count as u32) {
        return Err(Fail::from(NoMemory));
    }
    let run = Nodes {
        nodes,
        cones: &cones,
        labels,
    };
    Ok(node_sums(alloc, form, &run, weights)?)
}

/// The sums where the copy stands in a pair, and so may the OR gate.
fn sums_of(
    rt: &impl Abort,
    alloc: Global,
    form: &mut Form,
    labels: &[u32],
) -> Result<NodeSums, Fail> {
    let run = run_of(alloc, &NODES)?;
    let mut weights = vec![in alloc; FALSE; 7]?;
    let room = form.can_step();
    assert!(rt; room);
    weights[5] = form.input(false);
    let room = form.can_step();
    assert!(rt; room);
    weights[6] = form.input(false);
    sums_where(alloc, form, &run, labels, weights)
}

#[test]
fn gates_that_matter_hand_on_to_what_they_choose(rt: HostRuntime) -> Result<(), Fail> {
    let alloc = rt.alloc();
    let mut form = Form::new(alloc);
    let sums = sums_of(&rt, alloc, &mut form, &[0, 1])?;
    let vars = form.vars();
    assert_eq!(rt; vars, 11);
    check_clauses(
        &rt,
        form.store(),
        &[
            &[-3, 5],
            &[-1, 5],
            &[1, 3, -5],
            &[3, 6],
            &[-1, 6],
            &[1, -3, -6],
            &[-4, 7],
            &[-1, 7],
            &[1, 4, -7],
            &[5, -8, -10],
            &[-5, -8, 10],
            &[5, -6, -10],
            &[-5, -6, 10],
            &[-5, 6, 8, -10],
            &[5, 6, 8, 10],
            &[-9, 11],
            &[-6, 11],
            &[6, 9, -11],
        ],
    );
    assert!(rt; sums.totals() == [signal(-10), signal(-11)].as_slice());
    Ok(())
}

#[test]
fn selections_tell_choices_place_by_place(rt: HostRuntime) -> Result<(), Fail> {
    let alloc = rt.alloc();
    let mut form = Form::new(alloc);
    let sums = sums_of(&rt, alloc, &mut form, &[0, 1])?;
    let none = [FALSE; 4];
    let and = [signal(-8), signal(-9), FALSE, FALSE];
    let mux = [signal(-3), signal(3), signal(-4), FALSE];
    assert!(rt; sums.selections() == [none, none, none, and, mux, none, none].as_slice());
    Ok(())
}

#[test]
fn a_label_without_a_variable_has_no_sum(rt: HostRuntime) -> Result<(), Fail> {
    let alloc = rt.alloc();
    let mut form = Form::new(alloc);
    let sums = sums_of(&rt, alloc, &mut form, &[2])?;
    assert!(rt; sums.totals() == [signal(-7)].as_slice());
    Ok(())
}

/// The choices of kinds whose inputs all vary, or not all.
const CHOICES: [(Kind, [Part; 4], &[u8]); 12] = [
    (Kind::Buf, ALL, &[1]),
    (Kind::Not, ALL, &[1]),
    (Kind::And, ALL, &[0, 1, 2, 3]),
    (Kind::OrNot, ALL, &[0, 1, 2, 3]),
    (Kind::Xor, ALL, &[3]),
    (Kind::Xnor, ALL, &[3]),
    (Kind::Mux, ALL, &[1, 2, 5, 6]),
    (Kind::Nmux, ALL, &[1, 2, 5, 6]),
    (Kind::Aoi3, ALL, &[0, 1, 2, 3, 4, 5, 6, 7]),
    (
        Kind::Oai4,
        ALL,
        &[0, 1, 2, 3, 4, 5, 6, 7, 8, 9, 10, 11, 12, 13, 14, 15],
    ),
    (
        Kind::And,
        [Part::Vary, Part::One, Part::Zero, Part::Zero],
        &[1],
    ),
    (
        Kind::And,
        [Part::Vary, Part::Zero, Part::Zero, Part::Zero],
        &[0],
    ),
];

#[test]
fn choices_are_sets_that_vary_and_have_a_signed_sum(rt: HostRuntime) -> Result<(), Fail> {
    for (kind, parts, numbers) in CHOICES.iter() {
        let found = choices(rt.alloc(), *kind, *parts)?;
        assert!(rt; found.as_slice() == *numbers);
    }
    Ok(())
}
