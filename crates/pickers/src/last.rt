ghost use Rattle.std.specs.Prelude.{◌≡◌, ℕ, ◌≤◌, ◌^◌, length, replicate, IfOk, IfSome, IfNone, MatchOption};
ghost use Rattle.pickers.specs.Choices.{IsOpen, AllAreSet, IsFirstOf};
ghost use Rattle.pickers.specs.Bumps.{timed};

use crate::picker::Picker;
use crate::ranking::Ranking;
use coco_base::NoMemory;
use std::alloc::Global;
use std::marker::Model;

/// Picks the unset variable that was bumped last, and of those that never were the least. Contracts see when each
/// variable was bumped last, by a clock that goes on with each bump.
///
/// The clock stops at the last value of a `u64`; of the variables bumped at it the least goes first. Variables beyond
/// the size count as never bumped. What a bump and a pick take is as in `MostBumped`.
#[derive(Debug, Drop)]
pub struct LastBumped {
    times: Ranking,
    clock: u64,
}

impl Model for LastBumped {
    ghost use Rattle.std.specs.Prelude.{ℕ, ◌<◌, ◌≤◌, List, length, slice_index};
    ghost use Rattle.pickers.specs.Bumps.{Times};

    ghost Value = { Times };

    ghost view = { λ p. record { by_var = p.times; clock = p.clock } };

    ghost invariant = { λ p. (v : ℕ) → v < length p.times → slice_index p.times v ≤ p.clock };
}

impl LastBumped {
    /// A picker that takes notice of the variables below the size, none of them bumped.
    pub fn new(alloc: Global, size: u32) -> Result<Self, NoMemory>
        ensures { IfOk result (λ p. p ≡ record { by_var = replicate size 0; clock = 0 }) }
    {
        Ok(LastBumped {
            times: Ranking::new(alloc, size)?,
            clock: 0,
        })
    }
}

impl Picker for LastBumped {
    ghost bound = { λ p. length p.by_var };

    fn size(&self) -> u32 {
        self.times.size()
    }

    fn bump(&mut self, var: u32)
        ensures times { self.new ≡ timed self.old var }
    {
        if var < self.times.size() {
            self.clock = self.clock.saturating_add(1);
            self.times.raise(var, self.clock);
        }
    }

    fn pick(&mut self, unset: &[bool]) -> Option<u32>
        requires { length unset.now ≤ 2 ^ 30 }
        ensures same { self.new ≡ self.old }
        ensures last { MatchOption result (AllAreSet unset.now) (IsFirstOf self.old.by_var unset.now) }
    {
        self.times.first_of(unset)
    }
}
