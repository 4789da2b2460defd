use crate::form::Form;
use crate::signal::{FALSE, Signal, TRUE};
use clause_store::{Lit, Store};
use coco_base::NoMemory;
use std::alloc::Global;
use std::process::Abort;

/// The literal of a variable, counted from 1 and negative where it is negated, as in DIMACS texts.
fn lit(number: i32) -> Lit {
    Lit {
        var: number.unsigned_abs().saturating_sub(1),
        positive: number > 0,
    }
}

/// A form with inputs that are the positive literals 1, 2, 3 and 4.
fn four_inputs(rt: &impl Abort, alloc: Global) -> Form {
    let mut form = Form::new(alloc);
    for _ in 0..4 {
        let fits = form.can_step();
        assert!(rt; fits);
        form.input(true);
    }
    form
}

/// Checks the clauses of a store.
fn check_clauses(rt: &impl Abort, store: &Store, clauses: &[&[i32]]) {
    let count = store.count();
    assert_eq!(rt; count as usize, clauses.len());
    for (id, clause) in clauses.iter().enumerate() {
        assert!(rt; id < count as usize);
        let lits = store.get(id as u32);
        assert_eq!(rt; lits.len(), clause.len());
        for (found, number) in lits.iter().zip(clause.iter()) {
            assert_eq!(rt; *found, lit(*number));
        }
    }
}

/// A gate over three signals, its answer, and its clauses after four inputs.
#[derive(Clone, Copy)]
struct Row<'a> {
    operands: (Signal, Signal, Signal),
    answer: Signal,
    clauses: &'a [&'a [i32]],
}

fn check_or_and(rt: &impl Abort, alloc: Global, rows: &[Row]) -> Result<(), NoMemory> {
    for row in rows {
        let mut form = four_inputs(rt, alloc);
        let fits = form.can_step();
        assert!(rt; fits);
        let (a, p, b) = row.operands;
        let answer = form.or_and(a, p, b)?;
        assert_eq!(rt; answer, row.answer);
        check_clauses(rt, form.store(), row.clauses);
    }
    Ok(())
}

fn check_xor_and(rt: &impl Abort, alloc: Global, rows: &[Row]) -> Result<(), NoMemory> {
    for row in rows {
        let mut form = four_inputs(rt, alloc);
        let fits = form.can_step();
        assert!(rt; fits);
        let (a, p, b) = row.operands;
        let answer = form.xor_and(a, p, b)?;
        assert_eq!(rt; answer, row.answer);
        check_clauses(rt, form.store(), row.clauses);
    }
    Ok(())
}

const X: Signal = Signal::Literal(Lit {
    var: 0,
    positive: true,
});

const Y: Signal = Signal::Literal(Lit {
    var: 1,
    positive: true,
});

const NOT_Y: Signal = Signal::Literal(Lit {
    var: 1,
    positive: false,
});

const Z: Signal = Signal::Literal(Lit {
    var: 2,
    positive: true,
});

/// The signal of a gate that comes right after four inputs.
const GATE: Signal = Signal::Literal(Lit {
    var: 4,
    positive: false,
});

#[test]
fn or_and_has_its_prime_clauses(rt: HostRuntime) -> Result<(), NoMemory> {
    let rows = [
        Row {
            operands: (X, Y, Z),
            answer: GATE,
            clauses: &[&[-1, -5], &[-2, -3, -5], &[1, 2, 5], &[1, 3, 5]],
        },
        Row {
            operands: (X, Y, TRUE),
            answer: GATE,
            clauses: &[&[-1, -5], &[-2, -5], &[1, 2, 5]],
        },
        Row {
            operands: (X, X, NOT_Y),
            answer: GATE,
            clauses: &[&[-1, -5], &[-1, 2, -5], &[1, 5], &[1, -2, 5]],
        },
    ];
    check_or_and(&rt, rt.alloc(), rows.as_slice())
}

#[test]
fn xor_and_has_its_prime_clauses(rt: HostRuntime) -> Result<(), NoMemory> {
    let rows = [
        Row {
            operands: (X, Y, Z),
            answer: GATE,
            clauses: &[
                &[-1, 2, -5],
                &[1, 2, 5],
                &[-1, 3, -5],
                &[1, 3, 5],
                &[1, -2, -3, -5],
                &[-1, -2, -3, 5],
            ],
        },
        Row {
            operands: (X, TRUE, Y),
            answer: GATE,
            clauses: &[&[-1, 2, -5], &[1, 2, 5], &[1, -2, -5], &[-1, -2, 5]],
        },
        Row {
            operands: (FALSE, Z, Y),
            answer: GATE,
            clauses: &[&[3, 5], &[2, 5], &[-2, -3, -5]],
        },
    ];
    check_xor_and(&rt, rt.alloc(), rows.as_slice())
}

#[test]
fn constants_are_folded(rt: HostRuntime) -> Result<(), NoMemory> {
    let rows = [
        folded((X, FALSE, Y), X),
        folded((X, Y, FALSE), X),
        folded((TRUE, X, Y), TRUE),
        folded((X, TRUE, TRUE), TRUE),
        folded((FALSE, TRUE, Y), Y),
        folded((FALSE, Y, TRUE), Y),
    ];
    check_or_and(&rt, rt.alloc(), rows.as_slice())?;
    let rows = [
        folded((X, FALSE, Y), X),
        folded((Y, TRUE, TRUE), NOT_Y),
        folded((FALSE, TRUE, Y), Y),
        folded((TRUE, TRUE, Y), NOT_Y),
        folded((TRUE, Y, TRUE), NOT_Y),
    ];
    check_xor_and(&rt, rt.alloc(), rows.as_slice())
}

/// A row without a clause.
fn folded(operands: (Signal, Signal, Signal), answer: Signal) -> Row<'static> {
    Row {
        operands,
        answer,
        clauses: &[],
    }
}

/// Signals, and the clause that some of them is true, if there is one.
#[derive(Clone, Copy)]
struct Demand<'a> {
    signals: &'a [Signal],
    clauses: &'a [&'a [i32]],
}

fn check_demands(rt: &impl Abort, alloc: Global, demands: &[Demand]) -> Result<(), NoMemory> {
    for demand in demands {
        let mut form = four_inputs(rt, alloc);
        let fits = form.can_step();
        assert!(rt; fits);
        form.demand(demand.signals)?;
        assert_eq!(rt; form.vars(), 4);
        check_clauses(rt, form.store(), demand.clauses);
    }
    Ok(())
}

#[test]
fn a_demand_is_one_clause_or_none(rt: HostRuntime) -> Result<(), NoMemory> {
    let demands = [
        Demand {
            signals: &[Z, X, FALSE, Z],
            clauses: &[&[1, 3]],
        },
        Demand {
            signals: &[X, Y, TRUE],
            clauses: &[],
        },
        Demand {
            signals: &[Y, X, NOT_Y],
            clauses: &[],
        },
        Demand {
            signals: &[],
            clauses: &[&[]],
        },
    ];
    check_demands(&rt, rt.alloc(), demands.as_slice())
}
