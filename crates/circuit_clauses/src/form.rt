ghost use Rattle.std.specs.Prelude.{◌≡◌, ℕ, ◌+◌, ◌≤◌, ◌^◌, List, [], ◌∷◌, ◌++◌, length, IsTrue, IfOk, OnOk, OnErr};
ghost use Rattle.std.specs.List.{flat_map};
ghost use Rattle.clause_store.specs.declared.lit.Lit.{Lit};
ghost use Rattle.circuit_clauses.specs.declared.signal.Signal.TheVariants.{Literal};
ghost use Rattle.circuit_clauses.specs.Steps.Step.{input, demand};
ghost use Rattle.circuit_clauses.specs.Gates.{or_and, xor_and};
ghost use Rattle.circuit_clauses.specs.Formulas.{extended, Fits, CanStep};

use crate::clauses::{Gate, add, add_or_and, add_xor_and};
use crate::known::{known_or_and, known_xor_and};
use crate::signal::Signal;
use clause_store::{Lit, Store};
use coco_base::NoMemory;
use std::alloc::Global;
use std::marker::Model;

/// The sign of the literal that is the signal of a gate's variable. A solver that sets the variables it picks to false
/// first then decides that signals are true, and only so do its conflicts stay few.
const GATE_SIGN: bool = false;

/// The largest number of variables.
const VARS: u32 = 1 << 30;

/// The largest number of clauses.
const CLAUSES: u32 = 1 << 31;

/// The most clauses that a step has.
const STEP_CLAUSES: u32 = 6;

/// A formula that is being built, step by step. Contracts see how many variables it has and its clauses.
///
/// Where a call is refused memory, the clauses of its step may be there in part, and the form is to be let go.
#[derive(Debug, Drop)]
pub struct Form {
    vars: u32,
    store: Store,
    scratch: Vec<Lit>,
}

impl Model for Form {
    ghost use Rattle.circuit_clauses.specs.Formulas.{Formula};

    ghost Value = { Formula };

    ghost view = { λ f. record { vars = f.vars; clauses = f.store } };
}

impl Form {
    /// A formula without variables and clauses. It keeps the allocator and takes no memory yet.
    pub fn new(alloc: Global) -> Self
        ensures vars { result.vars ≡ 0 }
        ensures clauses { result.clauses ≡ [] }
    {
        Form {
            vars: 0,
            store: Store::new(alloc),
            scratch: Vec::new(alloc),
        }
    }

    /// How many variables there are. It takes no memory.
    pub fn vars(&self) -> u32
        ensures { result ≡ self.now.vars }
    {
        self.vars
    }

    /// The clauses. It takes no memory.
    pub fn store(&self) -> &Store
        ensures { result.now ≡ self.now.clauses }
    {
        &self.store
    }

    /// The clauses, as a store of their own. It takes no memory.
    pub fn into_store(self) -> Store
        ensures { result ≡ self.clauses }
    {
        let Form { vars: _, store, .. } = self;
        store
    }

    /// Whether one more step fits, whichever it is: there are fewer than 2^30 variables and at most 2^31 - 6 clauses. It
    /// takes no memory.
    pub fn can_step(&self) -> bool
        ensures { IsTrue result → CanStep self.now }
    {
        self.vars < VARS && self.store.count() <= CLAUSES - STEP_CLAUSES
    }

    /// A variable of its own, as the literal of a sign. It takes no memory.
    pub fn input(&mut self, positive: bool) -> Signal
        requires { Fits (extended self.old (input ∷ [])) }
        ensures signal { result ≡ Literal (record { var = self.old.vars; positive = positive }) }
        ensures formula { self.new ≡ extended self.old (input ∷ []) }
    {
        let var = self.vars;
        self.vars = var + 1;
        Signal::Literal(Lit { var, positive })
    }

    /// Adds the clause that some signal of a list is true, or none where that always holds.
    pub fn demand(&mut self, signals: &[Signal]) -> Result<(), NoMemory>
        requires { Fits (extended self.old (demand signals.now ∷ [])) }
        ensures ok { OnOk result (self.new ≡ extended self.old (demand signals.now ∷ [])) }
        ensures err { OnErr result (self.new ≡ self.old) }
    {
        add(&mut self.store, &mut self.scratch, signals)
    }

    /// A signal that is `a` or (`p` and `b`): one that is there already where constants tell it, else a new variable.
    pub fn or_and(&mut self, a: Signal, p: Signal, b: Signal) -> Result<Signal, NoMemory>
        requires { Fits (extended self.old (or_and self.old.vars a p b).steps) }
        ensures signal { IfOk result (λ signal. signal ≡ (or_and self.old.vars a p b).signal) }
        ensures formula { OnOk result (self.new ≡ extended self.old (or_and self.old.vars a p b).steps) }
    {
        if let Some(signal) = known_or_and(a, p, b) {
            return Ok(signal);
        }
        let v = self.input(GATE_SIGN);
        add_or_and(&mut self.store, &mut self.scratch, Gate { a, p, b, v })?;
        Ok(v)
    }

    /// A signal that is the exclusive or of `a` with (`p` and `b`): one that is there already where constants tell it,
    /// else a new variable.
    pub fn xor_and(&mut self, a: Signal, p: Signal, b: Signal) -> Result<Signal, NoMemory>
        requires { Fits (extended self.old (xor_and self.old.vars a p b).steps) }
        ensures signal { IfOk result (λ signal. signal ≡ (xor_and self.old.vars a p b).signal) }
        ensures formula { OnOk result (self.new ≡ extended self.old (xor_and self.old.vars a p b).steps) }
    {
        if let Some(signal) = known_xor_and(a, p, b) {
            return Ok(signal);
        }
        let v = self.input(GATE_SIGN);
        add_xor_and(&mut self.store, &mut self.scratch, Gate { a, p, b, v })?;
        Ok(v)
    }
}
