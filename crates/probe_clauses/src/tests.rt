ghost use Rattle.std.specs.Prelude.{All, IfOk};
ghost use Rattle.coco_model.specs.Netlist.{IsInRange};
ghost use Rattle.gate_graph.specs.Drivers.{HasNumbers};
ghost use Rattle.calm_reach.specs.CalmRows.{HasPlaces};

use crate::one_cycle::ONE_CYCLE;
use crate::{ProbePart, ProbedRun, Query, can_add_probes, probe_part};
use calm_reach::{CalmRow, calm_row};
use circuit_clauses::Form;
use clause_store::{Lit, Store};
use coco_base::{LabelTable, List, NoMemory, Node, Part, Unrolled};
use gate_graph::{Graph, build, can_build};
use std::alloc::Global;
use std::process::Abort;
use std::test::Fail;

const ROWS: &str =
    "in s\nq0 = FLOP(q0)\nq1 = FLOP(q1)\nz = MUX(y, q1, s)\nw = AND(q0, s)\ny = XOR(w, q1)";

/// The bits of the rows, by rank: clk, s, q0, q1, w, y, z.
const RANKS: [u32; 7] = [0, 1, 2, 3, 6, 4, 5];

fn graph(alloc: Global) -> Result<Graph, Fail> {
    let flat = circuit_rows::netlist(alloc, ROWS)?;
    if !can_build(&flat) {
        return Err(Fail::from(NoMemory));
    }
    match build(alloc, &flat) {
        Ok(graph) => Ok(graph),
        Err(_) => Err(Fail::from(NoMemory)),
    }
}

/// What is known where the input `s` has a value: the flops vary.
fn known(s: bool) -> [Part; 7] {
    let input = if s { Part::One } else { Part::Zero };
    [
        Part::Zero,
        input,
        Part::Vary,
        Part::Vary,
        Part::Vary,
        Part::Vary,
        Part::Vary,
    ]
}

/// The calm rows of a run in which the input has these values.
fn rows(alloc: Global, graph: &Graph, inputs: &[bool]) -> Result<Vec<CalmRow>, NoMemory>
    ensures { IfOk result (λ rows. All (HasPlaces graph.now.flat) rows.items) }
{
    let mut rows = Vec::new(alloc);
    let mut before = inputs.first().copied().unwrap_or(false);
    'inputs: for s in inputs {
        let row = row(alloc, graph, before, *s)?;
        rows.push(row)?;
        before = *s;
    }
    Ok(rows)
}

fn row(alloc: Global, graph: &Graph, before: bool, now: bool) -> Result<CalmRow, NoMemory>
    ensures { IfOk result (λ row. HasPlaces graph.now.flat row) }
{
    if graph.bits() != 7 {
        return Err(NoMemory);
    }
    calm_row(alloc, graph, &known(before), &known(now))
}

/// The nodes of a run in which the flops keep the labels 0 and 1; those of gates are left out.
fn unrolled(alloc: Global, cycles: u32) -> Result<Unrolled, NoMemory> {
    let mut nodes = List::new(alloc);
    for cycle in 0..cycles {
        for rank in 0..7 {
            nodes.push(match rank {
                2 | 3 if cycle == 0 => Node::Label(rank - 2),
                2 | 3 => Node::Copy((cycle - 1).wrapping_mul(7).wrapping_add(rank)),
                _ => Node::Nothing,
            })?;
        }
    }
    Ok(Unrolled {
        bits: 7,
        cycles,
        ranks: List::from_vec(Vec::from_slice(alloc, &RANKS)?),
        nodes,
        table: LabelTable {
            secrets: List::new(alloc),
            masks: List::new(alloc),
            fresh: List::new(alloc),
            declared: 2,
            per_cycle: 0,
        },
    })
}

#[derive(Drop)]
struct Made {
    form: Form,
    part: ProbePart,
}

/// The clauses about probes, after the variables of two labels.
fn clauses_of(alloc: Global, inputs: &[bool], order: u32, window: u32) -> Result<Made, Fail> {
    if window < 1 || inputs.len() > 16 {
        return Err(Fail::from(NoMemory));
    }
    let graph = graph(alloc)?;
    let rows = rows(alloc, &graph, inputs)?;
    let unrolled = unrolled(alloc, inputs.len() as u32)?;
    let query = Query {
        clock: graph.clock(),
        order,
        window,
    };
    let run = ProbedRun::new(&graph, &unrolled, rows.as_slice(), query);
    let mut form = Form::new(alloc);
    for _ in 0..2 {
        if !form.can_step() {
            return Err(Fail::from(NoMemory));
        }
        form.input(true);
    }
    let part = part_of(alloc, &mut form, &run)?;
    Ok(Made { form, part })
}

fn part_of(alloc: Global, form: &mut Form, run: &ProbedRun<'_>) -> Result<ProbePart, NoMemory> {
    if !can_add_probes(form, run) {
        return Err(NoMemory);
    }
    probe_part(alloc, form, run)
}

/// The number of a variable, counted from 1 and negative where it is negated, as in DIMACS texts.
fn number(lit: Lit) -> i64 {
    let number = i64::from(lit.var) + 1;
    if lit.positive { number } else { -number }
}

/// Checks the clauses of a store.
fn check_clauses(rt: &impl Abort, store: &Store, clauses: &[&[i64]]) {
    let count = store.count();
    assert_eq!(rt; count as usize, clauses.len());
    for (id, clause) in clauses.iter().enumerate() {
        assert!(rt; id < count as usize);
        let lits = store.get(id as u32);
        assert_eq!(rt; lits.len(), clause.len());
        for (found, want) in lits.iter().zip(clause.iter()) {
            assert_eq!(rt; number(*found), *want);
        }
    }
}

#[test]
fn one_cycle_has_these_clauses(rt: HostRuntime) -> Result<(), Fail> {
    let made = clauses_of(rt.alloc(), &[true], 1, 1)?;
    check_clauses(&rt, made.form.store(), ONE_CYCLE.as_slice());
    assert_eq!(rt; made.form.vars(), 32);
    Ok(())
}

/// A number that all literals of all clauses make, in order.
fn hash(store: &Store) -> u64 {
    let mut hash = 0u64;
    for id in 0..store.count() {
        for lit in store.get(id) {
            let code = u64::from(lit.var) * 2 + if lit.positive { 2 } else { 1 };
            hash = hash.wrapping_mul(31).wrapping_add(code);
        }
        hash = hash.wrapping_mul(31);
    }
    hash
}

/// A run with the size and the hash of its clauses.
#[derive(Clone, Copy)]
struct Case {
    inputs: &'static [bool],
    order: u32,
    window: u32,
    vars: u32,
    clauses: u32,
    hash: u64,
}

const CASES: [Case; 4] = [
    Case {
        inputs: &[false, true],
        order: 1,
        window: 1,
        vars: 56,
        clauses: 141,
        hash: 17_654_718_836_958_930_791,
    },
    Case {
        inputs: &[false, true, true],
        order: 2,
        window: 2,
        vars: 120,
        clauses: 334,
        hash: 12_300_076_471_769_830_413,
    },
    Case {
        inputs: &[true, true, false, true, false],
        order: 3,
        window: 3,
        vars: 252,
        clauses: 743,
        hash: 2_356_784_897_697_002_359,
    },
    Case {
        inputs: &[false, false, true, true],
        order: 1,
        window: 64,
        vars: 111,
        clauses: 291,
        hash: 2_094_748_482_491_939_405,
    },
];

#[test]
fn runs_have_the_clauses_of_another_encoder(rt: HostRuntime) -> Result<(), Fail> {
    for case in &CASES {
        let made = clauses_of(rt.alloc(), case.inputs, case.order, case.window)?;
        assert_eq!(rt; made.form.vars(), case.vars);
        assert_eq!(rt; made.form.store().count(), case.clauses);
        assert_eq!(rt; hash(made.form.store()), case.hash);
        assert_eq!(rt; made.part.pairs.len(), case.inputs.len());
    }
    Ok(())
}
