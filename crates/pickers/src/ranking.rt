ghost use Rattle.std.specs.Prelude.{◌≡◌, ℕ, ◌<◌, ◌≤◌, ◌^◌, List, length, slice_index, slice_set, IfOk, MatchOption, replicate};
ghost use Rattle.pickers.specs.Choices.{AllAreSet, IsFirstOf};

use crate::first::first_open;
use crate::tree::{climb, first_under, refresh};
use coco_base::NoMemory;
use std::alloc::Global;
use std::marker::Model;

/// Numbers by variable. It answers which variable of some has the greatest number, the least variable among equals,
/// and keeps a tree of leaders for that. Contracts see the list of numbers.
#[derive(Debug, Drop)]
pub(crate) struct Ranking {
    numbers: Vec<u64>,
    leaders: Vec<u32>,
}

impl Model for Ranking {
    ghost use Rattle.std.specs.Prelude.{ℕ, List};
    ghost use Rattle.pickers.specs.Tree.{IsRanking};

    ghost Value = { List ℕ };

    ghost view = { λ r. r.numbers.items };

    ghost invariant = { λ r. IsRanking r.numbers.items r.leaders.items };
}

impl Ranking {
    /// All numbers are 0.
    pub(crate) fn new(alloc: Global, size: u32) -> Result<Self, NoMemory>
        ensures { IfOk result (λ r. r ≡ replicate size 0) }
    {
        let numbers = vec![in alloc; 0; size as usize]?;
        let mut leaders = vec![in alloc; 0; size as usize]?;
        'building: for node in (1..size as usize).rev() {
            refresh(&numbers, &mut leaders, node);
        }
        Ok(Ranking { numbers, leaders })
    }

    pub(crate) fn size(&self) -> u32
        ensures { result ≡ length self.now }
    {
        self.numbers.len() as u32
    }

    pub(crate) fn number(&self, var: u32) -> u64
        requires { var < length self.now }
        ensures { result ≡ slice_index self.now var }
    {
        self.numbers[var as usize]
    }

    /// Gives a variable a number that is not less than its old one. It takes a step for each level of the tree.
    pub(crate) fn raise(&mut self, var: u32, number: u64)
        requires in_range { var < length self.old }
        requires not_less { slice_index self.old var ≤ number }
        ensures { self.new ≡ slice_set self.old var number }
    {
        self.numbers[var as usize] = number;
        let leaf = self.numbers.len() + var as usize;
        climb(&self.numbers, &mut self.leaders, leaf / 2);
    }

    /// The variable that goes first among those that are unset.
    pub(crate) fn first_of(&self, unset: &[bool]) -> Option<u32>
        requires { length unset.now ≤ 2 ^ 30 }
        ensures { MatchOption result (AllAreSet unset.now) (IsFirstOf self.now unset.now) }
    {
        if !self.numbers.is_empty() {
            let found = first_under(&self.numbers, &self.leaders, unset, 1, None);
            if found.is_some() {
                return found;
            }
        }
        match first_open(unset) {
            Some(var) => Some(var as u32),
            None => None,
        }
    }
}
