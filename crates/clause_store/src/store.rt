ghost use Rattle.std.specs.Prelude.{◌≡◌, ℕ, ◌+◌, ◌<◌, ◌≤◌, ◌^◌, List, [], ◌∷◌, ◌++◌, length, take, slice_get, slice_range, All, IfOk, OnOk, OnErr};
ghost use Rattle.std.specs.List.{flat_map};
ghost use Rattle.clause_store.specs.Signs.{Ascends};

use crate::lit::Lit;
use coco_base::NoMemory;
use std::alloc::Global;
use std::marker::Model;

/// Clauses by number, from 0 in the order in which they came. Contracts see the list of its clauses, each a list of
/// literals whose variables ascend strictly.
///
/// All literals stand in one list, the arena, clause after clause; beside it stands where each clause ends.
#[derive(Debug, Drop)]
pub struct Store {
    lits: Vec<Lit>,
    ends: Vec<usize>,
}

impl Model for Store {
    ghost use Rattle.std.specs.Prelude.{ℕ, ◌≤◌, ◌^◌, List, length, All};
    ghost use Rattle.clause_store.specs.declared.lit.Lit.{Lit};
    ghost use Rattle.clause_store.specs.Signs.{Ascends};
    ghost use Rattle.clause_store.specs.Arenas.{pieces, IsArena};

    ghost Value = { List (List Lit) };

    ghost view = { λ s. pieces s.lits.items 0 s.ends.items };

    ghost invariant = { λ s. IsArena s.lits.items s.ends.items };
}

impl Store {
    /// A store without clauses. It keeps the allocator and takes no memory yet.
    pub fn new(alloc: Global) -> Self
        ensures { result ≡ [] }
    {
        Store {
            lits: Vec::new(alloc),
            ends: Vec::new(alloc),
        }
    }

    /// Adds a clause at the end and gives its number; where memory is refused the store stays as it was.
    pub fn push(&mut self, lits: &[Lit]) -> Result<u32, NoMemory>
        requires ascending { Ascends lits.now }
        requires room { length self.old < 2 ^ 31 }
        ensures number { IfOk result (λ id. id ≡ length self.old) }
        ensures ok { OnOk result (self.new ≡ self.old ++ lits.now ∷ []) }
        ensures err { OnErr result (self.new ≡ self.old) }
    {
        let id = self.ends.len() as u32;
        self.ends.reserve(1)?;
        self.lits.extend_from_slice(lits)?;
        self.ends.push(self.lits.len())?;
        Ok(id)
    }

    /// The clause of a number, its literals in ascending order of their variables. It takes no memory.
    pub fn get(&self, id: u32) -> &[Lit]
        requires { id < length self.now }
        ensures clause { slice_get self.now id ≡ Some result.now }
        ensures ascending { Ascends result.now }
    {
        let start = self.place(id as usize);
        let end = self.place(id as usize + 1);
        between(self.arena(), start, end)
    }

    /// How many clauses there are; the numbers below it are theirs. It takes no memory.
    pub fn count(&self) -> u32
        ensures count { result ≡ length self.now }
        ensures bound { result ≤ 2 ^ 31 }
        ensures ascending { All Ascends self.now }
    {
        self.ends.len() as u32
    }

    /// The literals of all clauses, one clause after the other in order of number. It takes no memory.
    pub fn arena(&self) -> &[Lit]
        ensures lits { result.now ≡ flat_map (λ clause. clause) self.now }
        ensures ascending { All Ascends self.now }
    {
        self.lits.as_slice()
    }

    /// The place in the arena of a clause's first literal. It takes no memory.
    pub fn start(&self, id: u32) -> u64
        requires { id < length self.now }
        ensures { result ≡ length (flat_map (λ clause. clause) (take id self.now)) }
    {
        self.place(id as usize) as u64
    }

    /// The place where a clause starts, and where the last one ends.
    fn place(&self, id: usize) -> usize
        requires { id ≤ length self.now }
        ensures { result ≡ length (flat_map (λ clause. clause) (take id self.now)) }
    {
        if id == 0 {
            return 0;
        }
        self.ends[id - 1]
    }
}

/// The literals from one place to before another.
fn between(lits: &[Lit], start: usize, end: usize) -> &[Lit]
    requires order { start ≤ end }
    requires within { end ≤ length lits.now }
    ensures { result.now ≡ slice_range lits.now start end }
{
    &lits[start..end]
}
