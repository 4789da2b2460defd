ghost use Rattle.std.specs.Prelude.{◌≡◌, ℕ, ◌≤◌, ◌^◌, length, find, position, IfSome, IfNone};
ghost use Rattle.std.specs.Option.{option_or};
ghost use Rattle.pickers.specs.Choices.{IsOpen, AllAreSet, is_open};

use crate::first::{FirstOpen, is_open};
use crate::picker::Picker;
use coco_base::List;
use std::marker::Model;

/// Picks the first variable of a list that is in range and unset, and where there is none the least unset one.
/// Contracts see the list. It takes no notice of bumps, so its size is 0. A pick goes over the list up to the answer,
/// and where it has none over the places up to the answer.
#[derive(Debug, Drop)]
pub struct Listed {
    order: List<u32>,
}

impl Model for Listed {
    ghost use Rattle.std.specs.Prelude.{ℕ, List};

    ghost Value = { List ℕ };

    ghost view = { λ p. p.order };
}

impl Listed {
    /// A picker by a list. It takes no memory.
    pub fn new(order: List<u32>) -> Self
        ensures { result ≡ order }
    {
        Listed { order }
    }
}

/// The first variable of the list that is unset.
fn first_listed(order: &[u32], unset: &[bool]) -> Option<u32>
    ensures first { result ≡ find (is_open unset.now) order.now }
    ensures picked { IfSome result (IsOpen unset.now) }
{
    'seeking: for var in order {
        if is_open(unset, *var) {
            return Some(*var);
        }
    }
    None
}

impl Picker for Listed {
    ghost bound = { λ _. 0 };

    fn size(&self) -> u32
        ensures { result ≡ 0 }
    {
        0
    }

    fn bump(&mut self, _var: u32)
        ensures { self.new ≡ self.old }
    {}

    fn pick(&mut self, unset: &[bool]) -> Option<u32>
        requires { length unset.now ≤ 2 ^ 30 }
        ensures same { self.new ≡ self.old }
        ensures picked { IfSome result (IsOpen unset.now) }
        ensures none { IfNone result (AllAreSet unset.now) }
        ensures listed { result ≡ option_or (find (is_open unset.now) self.old) (position (λ b. b) unset.now) }
    {
        let first = first_listed(self.order.as_slice(), unset);
        if first.is_some() {
            return first;
        }
        FirstOpen.pick(unset)
    }
}
