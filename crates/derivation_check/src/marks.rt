ghost use Rattle.std.specs.Prelude.{◌≡◌, ◌≢◌, ℕ, ◌<◌, IfOk, IsTrue, ◌↔◌, None, Some, slice_set, slice_index_or, replicate, length};
ghost use Rattle.derivation_check.specs.Marked.{IsClear, signs_in};

use clause_store::Lit;
use coco_base::NoMemory;
use std::alloc::Global;
use std::marker::Model;

/// A sign or none for each variable, with the count of those that have one. Contracts see the list of signs.
#[derive(Debug, Drop)]
pub(crate) struct Marks {
    signs: Vec<Option<bool>>,
    count: usize,
}

impl Model for Marks {
    ghost use Rattle.std.specs.Prelude.{◌≡◌, Bool, List, Option};
    ghost use Rattle.derivation_check.specs.Marked.{marked_count};

    ghost Value = { List (Option Bool) };

    ghost view = { λ m. m.signs.items };

    ghost invariant = { λ m. m.count ≡ marked_count m.signs.items };
}

impl Marks {
    /// No variable below the size has a sign.
    pub(crate) fn new(alloc: Global, size: usize) -> Result<Self, NoMemory>
        ensures size { IfOk result (λ m. length m ≡ size) }
        ensures clear { IfOk result (λ m. IsClear m) }
    {
        let mut signs = Vec::with_capacity(alloc, size)?;
        'filling: for _ in 0..size {
            signs.push(None)?;
        }
        Ok(Marks { signs, count: 0 })
    }

    /// The sign of a variable. One beyond the size has none.
    pub(crate) fn sign(&self, var: u32) -> Option<bool>
        ensures { result ≡ signs_in self.now var }
    {
        match self.signs.get(var as usize) {
            Some(sign) => *sign,
            None => None,
        }
    }

    /// Gives a variable that has no sign the one of a literal.
    pub(crate) fn mark(&mut self, lit: Lit)
        requires in_range { lit.var < length self.old }
        requires unmarked { signs_in self.old lit.var ≡ None }
        ensures { self.new ≡ slice_set self.old lit.var (Some lit.positive) }
    {
        self.signs[lit.var as usize] = Some(lit.positive);
        self.count += 1;
    }

    /// Takes the sign of a variable that has one.
    pub(crate) fn unmark(&mut self, var: u32)
        requires { signs_in self.old var ≢ None }
        ensures { self.new ≡ slice_set self.old var None }
    {
        self.signs[var as usize] = None;
        self.count -= 1;
    }

    pub(crate) fn is_clear(&self) -> bool
        ensures { IsTrue result ↔ IsClear self.now }
    {
        self.count == 0
    }
}
