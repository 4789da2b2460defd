ghost use Rattle.std.specs.Prelude.{◌≡◌, ℕ, ◌≤◌, List, Option, length, IfOk};
ghost use Rattle.coco_base.specs.Causes.{HasCause};
ghost use Rattle.coco_base.specs.Outside.{ReadsAt};

use crate::fault::Failed;

/// Named files that can be read in pieces. `holds` is what each name holds, where the shelf tells it, and `faults` is
/// a count of faults that never falls and stops at its last value.
pub trait Shelf {
    ghost holds: { Self → List ℕ → Option (List ℕ) };

    ghost faults: { Self → ℕ };

    /// Copies bytes of a file, from place `at` on, to the head of `into`, and tells how many. None are copied into a
    /// buffer that has places only at the file's end. A call that fails raises the count of faults.
    fn read(&mut self, name: &str, at: u64, into: &mut [u8]) -> Result<usize, Failed>
        ensures count { IfOk result (λ n. n ≤ length into.old) }
        ensures bytes { IfOk result (λ n. ReadsAt (holds self.old name.now) at n into.new) }
        ensures cause { HasCause (faults self.old) (faults self.new) result }
        ensures held { holds self.new ≡ holds self.old };
}
