ghost use Rattle.std.specs.Prelude.{◌≡◌, ℕ, ◌+◌, ◌-◌, ◌<◌, ◌≤◌, ◌^◌, [], length, Some, None, is_none, slice_get, slice_index, IsSome, IfOk, OnOk};
ghost use Rattle.clause_store.specs.Signs.{sign_of};
ghost use Rattle.clause_solver.specs.Trails.{History, untouched, pushed, opened, shortened, undone, level_start_of, IsPlaceOf, IsCoherent};

use clause_store::Lit;
use coco_base::NoMemory;
use std::alloc::Global;
use std::marker::Model;

/// The literals that are set, in the order in which they were, with what set each and where the levels start. Tables
/// by variable answer its value and place at once.
#[derive(Debug, Drop)]
pub(crate) struct Trail {
    lits: Vec<Lit>,
    reasons: Vec<Option<u32>>,
    starts: Vec<u32>,
    values: Vec<Option<bool>>,
    unset: Vec<bool>,
    places: Vec<u32>,
}

impl Model for Trail {
    ghost use Rattle.std.specs.Prelude.{length};
    ghost use Rattle.clause_solver.specs.Trails.{History, IsTabled};

    ghost Value = { History };

    ghost view = { λ t. record { lits = t.lits.items; reasons = t.reasons.items; starts = t.starts.items; vars = length t.values.items } };

    ghost invariant = { λ t. IsTabled t.lits.items t.reasons.items t.values.items t.unset.items t.places.items };
}

impl Trail {
    /// No variable is set.
    pub(crate) fn new(alloc: Global, vars: u32) -> Result<Self, NoMemory>
        requires { vars ≤ 2 ^ 30 }
        ensures { IfOk result (λ t. t ≡ untouched vars) }
    {
        let values = vec![in alloc; None; vars as usize]?;
        let unset = vec![in alloc; true; vars as usize]?;
        let places = vec![in alloc; 0; vars as usize]?;
        Ok(Trail {
            lits: Vec::new(alloc),
            reasons: Vec::new(alloc),
            starts: Vec::new(alloc),
            values,
            unset,
            places,
        })
    }

    /// How many variables there are.
    pub(crate) fn vars(&self) -> u32
        ensures vars { result ≡ self.now.vars }
        ensures small { result ≤ 2 ^ 30 }
    {
        self.values.len() as u32
    }

    /// The value of a variable, where it is set.
    pub(crate) fn value(&self, var: u32) -> Option<bool>
        requires { var < self.now.vars }
        ensures { result ≡ sign_of self.now.lits var }
    {
        self.values[var as usize]
    }

    /// How many variables are set.
    pub(crate) fn len(&self) -> u32
        ensures len { result ≡ length self.now.lits }
        ensures coherent { IsCoherent self.now }
    {
        self.lits.len() as u32
    }

    pub(crate) fn lit(&self, place: u32) -> Lit
        requires { place < length self.now.lits }
        ensures { slice_get self.now.lits place ≡ Some result }
    {
        self.lits[place as usize]
    }

    /// The clause that forced the literal at the place, or none where it was decided.
    pub(crate) fn reason(&self, place: u32) -> Option<u32>
        requires { place < length self.now.lits }
        ensures { slice_get self.now.reasons place ≡ Some result }
    {
        self.reasons[place as usize]
    }

    /// The place of a variable that is set.
    pub(crate) fn place(&self, var: u32) -> u32
        requires { IsSome (sign_of self.now.lits var) }
        ensures place { IsPlaceOf self.now.lits var result }
        ensures coherent { IsCoherent self.now }
    {
        self.places[var as usize]
    }

    /// By variable, whether it is unset.
    pub(crate) fn unset(&self) -> &[bool]
        ensures len { length result.now ≡ self.now.vars }
        ensures small { self.now.vars ≤ 2 ^ 30 }
        ensures free { (v : ℕ) → v < self.now.vars → slice_get result.now v ≡ Some (is_none (sign_of self.now.lits v)) }
    {
        self.unset.as_slice()
    }

    /// Sets a variable that is unset.
    pub(crate) fn push(&mut self, lit: Lit, reason: Option<u32>) -> Result<(), NoMemory>
        requires range { lit.var < self.old.vars }
        requires unset { sign_of self.old.lits lit.var ≡ None }
        ensures ok { OnOk result (self.new ≡ pushed self.old lit reason) }
        ensures coherent { OnOk result (IsCoherent self.new) }
    {
        let place = self.lits.len() as u32;
        self.reasons.push(reason)?;
        match self.lits.push(lit) {
            Ok(()) => {}
            Err(_) => {
                self.reasons.pop();
                return Err(NoMemory);
            }
        }
        self.values[lit.var as usize] = Some(lit.positive);
        self.unset[lit.var as usize] = false;
        self.places[lit.var as usize] = place;
        Ok(())
    }

    /// Takes the last literal back.
    fn pop(&mut self)
        requires { 0 < length self.old.lits }
        ensures { self.new ≡ shortened self.old (length self.old.lits - 1) }
    {
        match self.lits.pop() {
            None => {}
            Some(lit) => {
                self.reasons.pop();
                self.values[lit.var as usize] = None;
                self.unset[lit.var as usize] = true;
            }
        }
    }

    /// Opens a level, whose decision is still to come.
    pub(crate) fn open_level(&mut self) -> Result<(), NoMemory>
        ensures { OnOk result (self.new ≡ opened self.old) }
    {
        let place = self.lits.len() as u32;
        self.starts.push(place)?;
        Ok(())
    }

    /// How many levels there are above the lowest.
    pub(crate) fn levels(&self) -> usize
        ensures { result ≡ length self.now.starts }
    {
        self.starts.len()
    }

    /// The place of the decision of a level.
    pub(crate) fn level_place(&self, level: usize) -> u32
        requires { level < length self.now.starts }
        ensures { result ≡ slice_index self.now.starts level }
    {
        self.starts[level]
    }

    /// The place of the last decision, and 0 where there is none.
    pub(crate) fn level_start(&self) -> u32
        ensures { result ≡ level_start_of self.now }
    {
        match self.starts.last() {
            Some(place) => *place,
            None => 0,
        }
    }

    /// Takes back all that was set since before the decision of the level.
    pub(crate) fn undo(&mut self, level: usize)
        requires level { level < length self.old.starts }
        requires place { slice_index self.old.starts level ≤ length self.old.lits }
        ensures { self.new ≡ undone self.old level }
    {
        let place = self.level_place(level);
        'popping: for _ in place..self.len() {
            self.pop();
        }
        self.starts.truncate(level);
    }
}
