ghost use Rattle.std.specs.Prelude.{◌≡◌, ℕ, ◌<◌, ◌≤◌, List, Option, length, take, IfOk, IsOk, OnErr};
ghost use Rattle.coco_base.specs.Causes.{HasCause};
ghost use Rattle.coco_base.specs.Outside.{after};

use crate::fault::Failed;

/// Something that takes bytes. `taken` is the bytes so far, where the sink tells them, and `faults` is a count of
/// faults that never falls and stops at its last value.
pub trait Sink {
    ghost taken: { Self → Option (List ℕ) };

    ghost faults: { Self → ℕ };

    /// Takes the first bytes of a piece, at least one where it is not empty, and tells how many. A call that fails
    /// takes nothing and raises the count of faults.
    fn write(&mut self, piece: &[u8]) -> Result<usize, Failed>
        ensures count { IfOk result (λ n. n ≤ length piece.now) }
        ensures some { IfOk result (λ n. 0 < length piece.now → 0 < n) }
        ensures empty { length piece.now ≡ 0 → IsOk result }
        ensures ok { IfOk result (λ n. taken self.new ≡ after (taken self.old) (take n piece.now)) }
        ensures err { OnErr result (taken self.new ≡ taken self.old) }
        ensures cause { HasCause (faults self.old) (faults self.new) result };
}
