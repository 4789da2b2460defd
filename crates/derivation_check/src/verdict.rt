ghost use Rattle.std.specs.Prelude.{ℕ, ◌<◌, ◌^◌, IfOk, length};
ghost use Rattle.derivation_check.specs.Verdicts.{IsVerdict};

use crate::line::{has_empty, is_valid, width};
use crate::marks::Marks;
use clause_store::{Derivation, Store};
use coco_base::NoMemory;
use std::alloc::Global;

/// What a check of a derivation found.
#[derive(Clone, Copy, Debug, PartialEq, Eq)]
pub enum Verdict {
    /// The first line that is not valid, numbered from 1.
    Wrong { line: u32 },
    /// All lines are valid, and the store or a line has the empty clause.
    Empty,
    /// All lines are valid, and neither the store nor a line has the empty clause.
    NoEmpty,
}

/// Checks the lines of a derivation in turn. Each cut takes no longer than the clause that it names, and the memory
/// is a mark for each variable up to the greatest one of the store.
pub fn check(alloc: Global, store: &Store, derivation: &Derivation) -> Result<Verdict, NoMemory>
    requires { length derivation.now.lines < 2 ^ 32 }
    ensures { IfOk result (IsVerdict store.now derivation.now.lines) }
{
    let lines = derivation.lines.as_slice();
    let mut marks = Marks::new(alloc, width(store))?;
    'checking: for place in 0..lines.len() {
        if !is_valid(&mut marks, store, &lines[..place], &lines[place]) {
            return Ok(Verdict::Wrong {
                line: place as u32 + 1,
            });
        }
    }
    if has_empty(store, lines) {
        Ok(Verdict::Empty)
    } else {
        Ok(Verdict::NoEmpty)
    }
}
