ghost use Rattle.std.specs.Prelude.{◌≡◌, ℕ, ◌+◌, ◌<◌, ◌≤◌, ◌^◌, List, All, IfOk, length};
ghost use Rattle.clause_store.specs.declared.lit.Lit.{Lit};
ghost use Rattle.clause_store.specs.Derivations.{AllNew, AllValid};
ghost use Rattle.derivation_check.specs.Trimmed.{numbers_of, moved_number, moved_line, IsPicked, AllNamed, EndsIn};
ghost use Rattle.derivation_check.specs.Used.{AllDown, AllEarlier, AreUsed};

use crate::used::used_lines;
use clause_store::{Cut, Derivation, Line, Store};
use coco_base::{List, NoMemory};
use std::alloc::Global;

fn move_number(count: u32, places: &[u32], number: u32) -> u32
    requires known { number < count + length places.now }
    requires down { AllDown places.now }
    ensures { result ≡ moved_number count places.now number }
{
    if number < count {
        return number;
    }
    count + places[(number - count) as usize]
}

fn move_line(alloc: Global, count: u32, places: &[u32], line: &Line) -> Result<Line, NoMemory>
    requires known { All (λ n. n < count + length places.now) (numbers_of line.now) }
    requires down { AllDown places.now }
    ensures { IfOk result (λ moved. moved ≡ moved_line (moved_number count places.now) line.now) }
{
    let mut cuts = Vec::with_capacity(alloc, line.cuts.len())?;
    'moving: for cut in line.cuts.as_slice() {
        cuts.push(Cut {
            var: cut.var,
            id: move_number(count, places, cut.id),
        })?;
    }
    Ok(Line {
        clause: List::from_vec(line.clause.as_slice().to_vec(alloc)?),
        first: move_number(count, places, line.first),
        cuts: List::from_vec(cuts),
    })
}

/// The lines that are used, with their numbers closed up.
fn pick(alloc: Global, count: u32, lines: &[Line], used: &[bool]) -> Result<List<Line>, NoMemory>
    requires few { length lines.now < 2 ^ 32 }
    requires earlier { AllEarlier count lines.now }
    requires used { AreUsed count lines.now used.now }
    ensures picked { IfOk result (λ picked. IsPicked count lines.now picked) }
    ensures earlier { IfOk result (AllEarlier count) }
    ensures named { IfOk result (AllNamed count) }
    ensures ends { IfOk result (λ picked. (clause : List Lit) → EndsIn lines.now clause → EndsIn picked clause) }
{
    let mut places = Vec::with_capacity(alloc, lines.len())?;
    let mut picked = List::new(alloc);
    'picking: for (place, line) in lines.iter().enumerate() {
        places.push(picked.len() as u32)?;
        if used[place] {
            picked.push(move_line(alloc, count, &places, line)?)?;
        }
    }
    Ok(picked)
}

/// The lines of a derivation that its last line rests on, and the last line, in their order and with their numbers
/// closed up. The lines have to be valid. It takes a mark and a number for each line, and memory for those that stay.
pub fn trimmed(
    alloc: Global,
    store: &Store,
    derivation: &Derivation,
) -> Result<Derivation, NoMemory>
    requires few { length derivation.now.lines < 2 ^ 32 }
    requires valid { AllValid store.now derivation.now.lines }
    ensures picked { IfOk result (λ d. IsPicked (length store.now) derivation.now.lines d.lines) }
    ensures fewer { IfOk result (λ d. length d.lines ≤ length derivation.now.lines) }
    // the last clause stays the last one, so a derivation of the empty clause stays one
    ensures ends { IfOk result (λ d. (clause : List Lit) → EndsIn derivation.now.lines clause → EndsIn d.lines clause) }

    ensures valid { IfOk result (λ d. AllValid store.now d.lines) }
    ensures fresh { IfOk result (λ d. AllNew store.now derivation.now.lines → AllNew store.now d.lines) }
    // no line is left that the last one does not rest on
    ensures named { IfOk result (λ d. AllNamed (length store.now) d.lines) }
{
    let count = store.count();
    let lines = derivation.lines.as_slice();
    let used = used_lines(alloc, count, lines)?;
    Ok(Derivation {
        lines: pick(alloc, count, lines, &used)?,
    })
}
