ghost use Rattle.std.specs.Prelude.{◌≡◌, ℕ, ◌≤◌, ◌<◌, ◌^◌, Some, None, List, [], ◌++◌, length, get_or, cond, IfOk, OnOk, OnErr};
ghost use Rattle.std.specs.List.{flat_map};
ghost use Rattle.clause_store.specs.declared.lit.Lit.{Lit};
ghost use Rattle.clause_store.specs.Signs.{Ascends};
ghost use Rattle.circuit_clauses.specs.Signals.{placed, joined, disjunction};
ghost use Rattle.circuit_clauses.specs.Steps.{or_and_disjunctions, xor_and_disjunctions};

use crate::signal::Signal;
use clause_store::{Lit, Store};
use coco_base::NoMemory;

/// The operands of a gate, and the signal of its variable.
#[derive(Clone, Copy, Debug)]
pub(crate) struct Gate {
    pub a: Signal,
    pub p: Signal,
    pub b: Signal,
    pub v: Signal,
}

/// Adds the clauses that `v` is `a` or (`p` and `b`). What is in `scratch` is of no use before and after.
pub(crate) fn add_or_and(
    store: &mut Store,
    scratch: &mut Vec<Lit>,
    gate: Gate,
) -> Result<(), NoMemory>
    requires { length (store.old ++ flat_map disjunction (or_and_disjunctions gate.a gate.p gate.b gate.v)) ≤ 2 ^ 31 }
    ensures { let written = or_and_disjunctions gate.a gate.p gate.b gate.v in
        OnOk result (store.new ≡ store.old ++ flat_map disjunction written) }
{
    let Gate { a, p, b, v } = gate;
    add(store, scratch, &[a.negated(), v])?;
    add(store, scratch, &[p.negated(), b.negated(), v])?;
    add(store, scratch, &[a, p, v.negated()])?;
    add(store, scratch, &[a, b, v.negated()])
}

/// Adds the clauses that `v` is the exclusive or of `a` with (`p` and `b`).
pub(crate) fn add_xor_and(
    store: &mut Store,
    scratch: &mut Vec<Lit>,
    gate: Gate,
) -> Result<(), NoMemory>
    requires { length (store.old ++ flat_map disjunction (xor_and_disjunctions gate.a gate.p gate.b gate.v)) ≤ 2 ^ 31 }
    ensures { let written = xor_and_disjunctions gate.a gate.p gate.b gate.v in
        OnOk result (store.new ≡ store.old ++ flat_map disjunction written) }
{
    let Gate { a, p, b, v } = gate;
    add(store, scratch, &[p, a.negated(), v])?;
    add(store, scratch, &[p, a, v.negated()])?;
    add(store, scratch, &[b, a.negated(), v])?;
    add(store, scratch, &[b, a, v.negated()])?;
    add(store, scratch, &[p.negated(), b.negated(), a, v])?;
    add(
        store,
        scratch,
        &[p.negated(), b.negated(), a.negated(), v.negated()],
    )
}

/// Adds the clause that some signal is true, or none where that always holds.
pub(crate) fn add(
    store: &mut Store,
    scratch: &mut Vec<Lit>,
    signals: &[Signal],
) -> Result<(), NoMemory>
    requires { length (store.old ++ disjunction signals.now) ≤ 2 ^ 31 }
    ensures ok { OnOk result (store.new ≡ store.old ++ disjunction signals.now) }
    ensures err { OnErr result (store.new ≡ store.old) }
{
    if join(scratch, signals)? {
        store.push(scratch.as_slice())?;
    }
    Ok(())
}

/// Puts the literals of a clause into `lits`, and answers whether there is one: where some signal is always true, or two
/// are opposites, there is none.
fn join(lits: &mut Vec<Lit>, signals: &[Signal]) -> Result<bool, NoMemory>
    ensures clause { IfOk result (λ is_clause. joined [] signals.now ≡ cond is_clause (Some lits.new.items) None) }
    ensures ascending { Ascends lits.new.items }
{
    lits.clear();
    'joining: for signal in signals {
        match *signal {
            Signal::Constant(true) => return Ok(false),
            Signal::Constant(false) => {}
            Signal::Literal(lit) => {
                if !insert(lits, lit)? {
                    return Ok(false);
                }
            }
        }
    }
    Ok(true)
}

/// Puts a literal in its place, and answers whether its opposite is not there.
fn insert(lits: &mut Vec<Lit>, lit: Lit) -> Result<bool, NoMemory>
    requires { Ascends lits.old.items }
    ensures placed { IfOk result (λ fits. placed lit lits.old.items ≡ cond fits (Some lits.new.items) None) }
    ensures ascending { Ascends lits.new.items }
{
    let place = place_of(lits.as_slice(), lit.var);
    if let Some(other) = lits.get(place) {
        if other.var == lit.var {
            return Ok(lit.positive == other.positive);
        }
    }
    lits.insert(place, lit)?;
    Ok(true)
}

/// How many of the first literals have variables below `var`. It walks from the end, since most come in order.
fn place_of(lits: &[Lit], var: u32) -> usize
    requires { Ascends lits.now }
    ensures within { result ≤ length lits.now }
    ensures before { (k : ℕ) (d : Lit) → k < result → (get_or lits.now k d).var < var }
    ensures after { (k : ℕ) (d : Lit) → result ≤ k → k < length lits.now → var ≤ (get_or lits.now k d).var }
{
    let mut place = lits.len();
    'walking: while place > 0 {
        if lits[place - 1].var < var {
            return place;
        }
        place -= 1;
    }
    0
}
