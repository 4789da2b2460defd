ghost use Rattle.std.specs.Prelude.{◌≡◌, ℕ, ◌≤◌, ◌^◌, length, IfSome, IfNone, if◌then◌else◌, ◌==◌};
ghost use Rattle.pickers.specs.Choices.{IsOpen, AllAreSet};
ghost use Rattle.pickers.specs.Seeds.{next_state, open_count_of, IsSeeded};

use crate::first::{nth_open, open_count};
use crate::picker::Picker;
use std::marker::Model;

/// The factor of the sequence of states, and what is added: those of Knuth's MMIX.
pub const FACTOR: u64 = 6_364_136_223_846_793_005;

pub const ADDEND: u64 = 1_442_695_040_888_963_407;

/// Picks as if at random, but the same each time from one seed. Contracts see its state.
///
/// A pick where some variable is unset makes the state x into `x * FACTOR + ADDEND` modulo 2^64. It answers the unset
/// variable whose number, from 0 in ascending order, is the upper 32 bits of the new state modulo the number of unset
/// variables. It takes no notice of bumps, so its size is 0. A pick goes over all places.
#[derive(Clone, Copy, Debug, PartialEq, Eq)]
pub struct Seeded {
    state: u64,
}

impl Model for Seeded {
    ghost use Rattle.std.specs.Prelude.{ℕ};

    ghost Value = { ℕ };

    ghost view = { λ p. p.state };

    ghost inverse = { λ n. record { state = n } };
}

impl Seeded {
    /// A picker whose state is the seed. It takes no memory.
    pub fn new(seed: u64) -> Self
        ensures { result ≡ seed }
    {
        Seeded { state: seed }
    }
}

fn next(state: u64) -> u64
    ensures { result ≡ next_state state }
{
    state.wrapping_mul(FACTOR).wrapping_add(ADDEND)
}

impl Picker for Seeded {
    ghost bound = { λ _. 0 };

    fn size(&self) -> u32
        ensures { result ≡ 0 }
    {
        0
    }

    fn bump(&mut self, _var: u32)
        ensures { self.new ≡ self.old }
    {}

    fn pick(&mut self, unset: &[bool]) -> Option<u32>
        requires { length unset.now ≤ 2 ^ 30 }
        ensures state { self.new ≡ (if open_count_of unset.now == 0 then self.old else next_state self.old) }
        ensures none { IfNone result (AllAreSet unset.now) }
        ensures seeded { IfSome result (IsSeeded self.new unset.now) }
    {
        let count = open_count(unset);
        if count == 0 {
            return None;
        }
        self.state = next(self.state);
        let number = (self.state >> 32) as usize % count;
        nth_open(unset, number)
    }
}
