ghost use Rattle.std.specs.Prelude.{◌≡◌, ℕ, ◌*◌, ◌<◌, ◌≤◌, ◌^◌, ◌≢◌, [], Some, length, slice_get, replicate, IfOk, OnOk, MatchBool};
ghost use Rattle.clause_solver.specs.Watches.{code_of, listed_under, pair_of, listed, paired, unpaired, rewatched, removed, IsPartner};

use crate::entries::Entries;
use clause_store::Lit;
use coco_base::NoMemory;
use std::alloc::Global;
use std::marker::Model;

/// The two literals that a clause is watched by.
#[derive(Clone, Copy, Debug)]
pub(crate) struct Pair {
    pub(crate) one: Lit,
    pub(crate) other: Lit,
}

/// By literal, the numbers of the clauses that are watched by it; and by clause the two literals that it is watched
/// by. A clause of which one literal stays true has none.
#[derive(Debug, Drop)]
pub(crate) struct Watches {
    lists: Vec<Entries>,
    pairs: Vec<Option<Pair>>,
}

impl Model for Watches {
    ghost use Rattle.clause_solver.specs.Watches.{Watching};

    ghost Value = { Watching };

    ghost view = { λ w. record { lists = w.lists.items; pairs = w.pairs.items } };
}

/// The place of a literal among all: twice its variable, and one more where it is positive.
fn code(lit: Lit) -> usize
    ensures { result ≡ code_of lit }
{
    let base = 2 * lit.var as usize;
    if lit.positive {
        return base + 1;
    }
    base
}

/// Whether two literals are the same.
fn is_same(one: Lit, other: Lit) -> bool
    ensures { MatchBool result (one ≡ other) (one ≢ other) }
{
    one.var == other.var && one.positive == other.positive
}

/// The other literal of a pair that has this one.
pub(crate) fn partner(pair: Option<Pair>, lit: Lit) -> Option<Lit>
    ensures { IsPartner pair lit result }
{
    match pair {
        None => None,
        Some(pair) => {
            if is_same(pair.one, lit) {
                return Some(pair.other);
            }
            if is_same(pair.other, lit) {
                return Some(pair.one);
            }
            None
        }
    }
}

impl Watches {
    /// No clause is watched.
    pub(crate) fn new(alloc: Global, vars: u32) -> Result<Self, NoMemory>
        requires { vars ≤ 2 ^ 30 }
        ensures { IfOk result (λ w. w ≡ record { lists = replicate (2 * vars) []; pairs = [] }) }
    {
        let mut lists = Vec::new(alloc);
        'making: for _ in 0..2 * vars {
            lists.push(Entries::new(alloc))?;
        }
        Ok(Watches {
            lists,
            pairs: Vec::new(alloc),
        })
    }

    /// How many clauses are listed under a literal.
    pub(crate) fn count(&self, lit: Lit) -> usize
        ensures { result ≡ length (listed_under self.now lit) }
    {
        match self.lists.get(code(lit)) {
            Some(list) => list.len(),
            None => 0,
        }
    }

    /// The number of a clause that is listed under a literal.
    pub(crate) fn id(&self, lit: Lit, entry: usize) -> u32
        requires { entry < length (listed_under self.now lit) }
        ensures { slice_get (listed_under self.now lit) entry ≡ Some result }
    {
        self.lists[code(lit)].id(entry)
    }

    /// The literals that a clause is watched by.
    pub(crate) fn pair(&self, id: u32) -> Option<Pair>
        ensures { result ≡ pair_of self.now id }
    {
        match self.pairs.get(id as usize) {
            Some(pair) => *pair,
            None => None,
        }
    }

    fn list(&mut self, lit: Lit, id: u32) -> Result<(), NoMemory>
        requires { code_of lit < length self.old.lists }
        ensures { OnOk result (self.new ≡ listed self.old lit id) }
    {
        self.lists[code(lit)].push(id)?;
        Ok(())
    }

    /// Watches one clause more by two literals.
    pub(crate) fn add_pair(&mut self, pair: Pair, id: u32) -> Result<(), NoMemory>
        requires one { code_of pair.one < length self.old.lists }
        requires other { code_of pair.other < length self.old.lists }
        ensures { OnOk result (self.new ≡ paired self.old pair id) }
    {
        self.list(pair.one, id)?;
        self.list(pair.other, id)?;
        self.pairs.push(Some(pair))?;
        Ok(())
    }

    /// Counts one clause more, of which a literal stays true.
    pub(crate) fn add_none(&mut self) -> Result<(), NoMemory>
        ensures { OnOk result (self.new ≡ unpaired self.old) }
    {
        self.pairs.push(None)?;
        Ok(())
    }

    /// Watches a clause by a literal in place of another one, under which it stays listed.
    pub(crate) fn rewatch(&mut self, id: u32, pair: Pair) -> Result<(), NoMemory>
        requires one { code_of pair.one < length self.old.lists }
        requires id { id < length self.old.pairs }
        ensures { OnOk result (self.new ≡ rewatched self.old pair id) }
    {
        self.list(pair.one, id)?;
        self.pairs[id as usize] = Some(pair);
        Ok(())
    }

    /// Lists a clause no longer under a literal.
    pub(crate) fn remove(&mut self, lit: Lit, entry: usize)
        requires { entry < length (listed_under self.old lit) }
        ensures { self.new ≡ removed self.old lit entry }
    {
        self.lists[code(lit)].remove(entry);
    }
}
