ghost use Rattle.std.specs.Prelude.{◌≡◌, ℕ, ◌+◌, ◌<◌, ◌≤◌, ◌^◌, MatchBool};
ghost use Rattle.clause_solver.specs.Restarts.{luby_of, IsPlanned, IsCurrent};

/// A power of 2 above all numbers of restarts.
const GREATEST: u64 = 1 << 31;

/// When a search begins anew: how often it did, and the number of lines at which it does next.
#[derive(Clone, Copy, Debug)]
pub(crate) struct Plan {
    pub(crate) every: u64,
    pub(crate) restarts: u64,
    pub(crate) next: u64,
}

/// The number at a place of the Luby sequence, which begins 1, 1, 2, 1, 1, 2, 4 at place 1.
pub fn luby(place: u64) -> u64
    requires positive { 0 < place }
    requires bound { place < 2 ^ 31 }
    ensures number { result ≡ luby_of place }
    ensures bound { result < 2 ^ 31 }
{
    let mut i = place;
    let mut power = GREATEST;
    'halving: while power > 1 {
        power /= 2;
        if i == 2 * power - 1 {
            return power;
        }
        if i >= power {
            i -= power - 1;
        }
    }
    power
}

impl Plan {
    /// No restart so far.
    pub(crate) fn new(every: u64) -> Self
        requires some { 0 < every }
        requires bound { every ≤ 1000000000 }
        ensures every { result.every ≡ every }
        ensures planned { IsPlanned every result.restarts result.next 0 }
    {
        Plan {
            every,
            restarts: 0,
            next: every * luby(1),
        }
    }

    /// Whether a restart comes before the line after so many, which is counted then.
    pub(crate) fn is_due(&mut self, count: u64) -> bool
        requires every { 0 < self.old.every }
        requires bound { self.old.every ≤ 1000000000 }
        requires count { count < 1000000000 }
        requires planned { IsPlanned self.old.every self.old.restarts self.old.next count }
        ensures going { IsCurrent self.old.every self.new.restarts self.new.next count }
        ensures every { self.new.every ≡ self.old.every }
        ensures restarts { MatchBool result (self.new.restarts ≡ self.old.restarts + 1)
            (self.new.restarts ≡ self.old.restarts) }
    {
        if count < self.next {
            return false;
        }
        self.restarts += 1;
        self.next += self.every * luby(self.restarts + 1);
        true
    }
}
