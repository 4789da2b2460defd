ghost use Rattle.std.specs.Prelude.{◌≡◌, ℕ, ◌<◌, ◌≤◌, ◌^◌, length, IfSome, IfNone, IsSome, IsTrue, ◌↔◌, position};
ghost use Rattle.pickers.specs.Choices.{IsOpen, AllAreSet, is_open};
ghost use Rattle.pickers.specs.Seeds.{open_count_of, IsNth};

use crate::picker::Picker;

/// Picks the least variable that is unset. It takes no notice of bumps, so its size is 0. A pick goes over the
/// places up to the one that it answers.
#[derive(Clone, Copy, Debug, PartialEq, Eq)]
pub struct FirstOpen;

impl Picker for FirstOpen {
    ghost bound = { λ _. 0 };

    fn size(&self) -> u32
        ensures { result ≡ 0 }
    {
        0
    }

    fn bump(&mut self, _var: u32)
        ensures { self.new ≡ self.old }
    {}

    fn pick(&mut self, unset: &[bool]) -> Option<u32>
        requires { length unset.now ≤ 2 ^ 30 }
        ensures same { self.new ≡ self.old }
        ensures picked { IfSome result (IsOpen unset.now) }
        ensures none { IfNone result (AllAreSet unset.now) }
        ensures least { result ≡ position (λ b. b) unset.now }
    {
        match first_open(unset) {
            Some(var) => Some(var as u32),
            None => None,
        }
    }
}

/// The least place that is true.
pub(crate) fn first_open(unset: &[bool]) -> Option<usize>
    ensures least { result ≡ position (λ b. b) unset.now }
    ensures picked { IfSome result (IsOpen unset.now) }
    ensures none { IfNone result (AllAreSet unset.now) }
{
    unset.iter().position(|is_unset| *is_unset)
}

/// Whether the place is there and true.
pub(crate) fn is_open(unset: &[bool], var: u32) -> bool
    ensures test { result ≡ is_open unset.now var }
    ensures fact { IsTrue result ↔ IsOpen unset.now var }
{
    match unset.get(var as usize) {
        Some(is_unset) => *is_unset,
        None => false,
    }
}

/// How many places are true.
pub(crate) fn open_count(unset: &[bool]) -> usize
    ensures { result ≡ open_count_of unset.now }
{
    let mut count = 0;
    'counting: for is_unset in unset {
        if *is_unset {
            count += 1;
        }
    }
    count
}

/// The place that is true and before which `number` such places are.
pub(crate) fn nth_open(unset: &[bool], number: usize) -> Option<u32>
    requires small { length unset.now ≤ 2 ^ 30 }
    requires fewer { number < open_count_of unset.now }
    ensures some { IsSome result }
    ensures found { IfSome result (IsNth unset.now number) }
{
    let mut left = number;
    'passing: for var in 0..unset.len() {
        if unset[var] {
            if left == 0 {
                return Some(var as u32);
            }
            left -= 1;
        }
    }
    None
}
