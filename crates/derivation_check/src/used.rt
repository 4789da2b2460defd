ghost use Rattle.std.specs.Prelude.{◌≡◌, ℕ, ◌+◌, ◌<◌, ◌∷◌, [], All, IfOk, length};
ghost use Rattle.derivation_check.specs.Trimmed.{numbers_of};
ghost use Rattle.derivation_check.specs.Used.{Adds, AllEarlier, AreUsed};

use clause_store::Line;
use coco_base::NoMemory;
use std::alloc::Global;

/// Marks the line that a number names, unless it names a clause of the store.
fn add_number(used: &mut [bool], count: u32, number: u32)
    requires { number < count + length used.old }
    ensures { Adds count (number ∷ []) used.old used.new }
{
    if number >= count {
        used[(number - count) as usize] = true;
    }
}

/// Marks the lines that a line names.
fn add_named(used: &mut [bool], count: u32, line: &Line)
    requires { All (λ n. n < count + length used.old) (numbers_of line.now) }
    ensures { Adds count (numbers_of line.now) used.old used.new }
{
    add_number(used, count, line.first);
    'adding: for cut in line.cuts.as_slice() {
        add_number(used, count, cut.id);
    }
}

/// Marks the lines that the last one rests on, and the last one, over a store with so many clauses. Each line is looked
/// at once, from the last one back.
pub(crate) fn used_lines(alloc: Global, count: u32, lines: &[Line]) -> Result<Vec<bool>, NoMemory>
    requires { AllEarlier count lines.now }
    ensures { IfOk result (λ used. AreUsed count lines.now used.items) }
{
    let mut used = vec![in alloc; false; lines.len()]?;
    let mut place = lines.len();
    if place > 0 {
        used[place - 1] = true;
    }
    'marking: while place > 0 {
        place -= 1;
        if used[place] {
            add_named(&mut used, count, &lines[place]);
        }
    }
    Ok(used)
}
