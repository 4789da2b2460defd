ghost use Rattle.std.specs.Prelude.{◌≡◌, ℕ, ◌≤◌, ◌^◌, length, replicate, IfOk, IfSome, IfNone, MatchOption};
ghost use Rattle.pickers.specs.Choices.{IsOpen, AllAreSet, IsFirstOf};
ghost use Rattle.pickers.specs.Bumps.{counted};

use crate::picker::Picker;
use crate::ranking::Ranking;
use coco_base::NoMemory;
use std::alloc::Global;
use std::marker::Model;

/// Picks the unset variable with most bumps, the least one among equals. Contracts see the bumps by variable.
///
/// Counts stop at the last value of a `u64`, and variables beyond the size count as never bumped. A bump takes a step
/// for each doubling of the size. A pick takes about as many for each set variable that goes before the answer, and
/// never more than twice the size. Only where all variables below the size are set it also goes over the places up to
/// the answer.
#[derive(Debug, Drop)]
pub struct MostBumped {
    counts: Ranking,
}

impl Model for MostBumped {
    ghost use Rattle.std.specs.Prelude.{ℕ, List};

    ghost Value = { List ℕ };

    ghost view = { λ p. p.counts };
}

impl MostBumped {
    /// A picker that takes notice of the variables below the size, none of them bumped.
    pub fn new(alloc: Global, size: u32) -> Result<Self, NoMemory>
        ensures { IfOk result (λ p. p ≡ replicate size 0) }
    {
        Ok(MostBumped {
            counts: Ranking::new(alloc, size)?,
        })
    }
}

impl Picker for MostBumped {
    ghost bound = { length };

    fn size(&self) -> u32 {
        self.counts.size()
    }

    fn bump(&mut self, var: u32)
        ensures counts { self.new ≡ counted self.old var }
    {
        if var < self.counts.size() {
            let count = self.counts.number(var);
            self.counts.raise(var, count.saturating_add(1));
        }
    }

    fn pick(&mut self, unset: &[bool]) -> Option<u32>
        requires { length unset.now ≤ 2 ^ 30 }
        ensures same { self.new ≡ self.old }
        ensures most { MatchOption result (AllAreSet unset.now) (IsFirstOf self.old unset.now) }
    {
        self.counts.first_of(unset)
    }
}
