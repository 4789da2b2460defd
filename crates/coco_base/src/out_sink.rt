ghost use Rattle.std.specs.Prelude.{◌≡◌, ◌<◌, ◌≤◌, length, take, IfOk, IsOk, OnOk, OnErr};
ghost use Rattle.coco_base.specs.Causes.{HasCause, next_count};
ghost use Rattle.coco_base.specs.Outside.{after, hidden};

use crate::fault::Failed;
use crate::sink::Sink;
use std::marker::Model;

/// Standard output. It tells no bytes. A write that takes nothing counts as a failure. Contracts see it as its count
/// of faults.
#[derive(Drop)]
pub struct OutSink<'a, R: Print> {
    rt: &'a R,
    faults: u64,
}

impl<'a, R: Print> Model for OutSink<'a, R> {
    ghost use Rattle.std.specs.Prelude.{ℕ};

    ghost Value = { ℕ };

    ghost view = { λ s. s.faults };
}

impl<'a, R: Print> OutSink<'a, R> {
    /// The standard output of a runtime, with no fault counted.
    pub fn new(rt: &'a R) -> Self
        ensures { result ≡ 0 }
    {
        OutSink { rt, faults: 0 }
    }
}

impl<'a, R: Print> Sink for OutSink<'a, R> {
    ghost taken = { λ _. hidden };

    ghost faults = { λ s. s };

    fn write(&mut self, piece: &[u8]) -> Result<usize, Failed>
        ensures count { IfOk result (λ n. n ≤ length piece.now) }
        ensures some { IfOk result (λ n. 0 < length piece.now → 0 < n) }
        ensures empty { length piece.now ≡ 0 → IsOk result }
        ensures ok { IfOk result (λ n. hidden ≡ after hidden (take n piece.now)) }
        ensures err { OnErr result (hidden ≡ hidden) }
        ensures cause { HasCause self.old self.new result }

        // the count rises at each failure, and then alone
        ensures counted_ok { OnOk result (self.new ≡ self.old) }
        ensures counted_err { OnErr result (self.new ≡ next_count self.old) }
    {
        if piece.is_empty() {
            return Ok(0);
        }
        match self.rt.write_some(piece) {
            Ok(count) if 0 < count => Ok(count),
            _ => {
                self.faults = self.faults.saturating_add(1);
                Err(Failed)
            }
        }
    }
}
