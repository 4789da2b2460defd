ghost use Rattle.std.specs.Prelude.{◌≡◌, ℕ, ◌<◌, ◌≤◌, ◌^◌, ◌||◌, List, length, true, false, is_some, All, IfOk, OnOk, IsSome};
ghost use Rattle.clause_store.specs.declared.lit.Lit.{Lit as StoredLit};
ghost use Rattle.clause_store.specs.Signs.{Ascends, sign_of};
ghost use Rattle.clause_solver.specs.Trails.{IsCoherent};
ghost use Rattle.clause_solver.specs.Propagation.{IsInRange};
ghost use Rattle.clause_solver.specs.Analysis.{is_marked, marked_signs, marked_from, Covers};

use crate::trail::Trail;
use clause_store::Lit;
use coco_base::{List, NoMemory};
use std::alloc::Global;

/// Marks a variable that is set, and counts it where it was not marked and its place is not before the start.
fn mark(marks: &mut [bool], trail: &Trail, var: u32, start: u32, count: u32) -> u32
    requires len { length marks.old ≡ trail.now.vars }
    requires range { var < trail.now.vars }
    requires set { IsSome (sign_of trail.now.lits var) }
    requires counted { count ≡ marked_from marks.old trail.now.lits start }
    ensures marked { is_marked marks.new var ≡ true }
    ensures others { (v : ℕ) → (v ≡ var → ⊥) → is_marked marks.new v ≡ is_marked marks.old v }
    ensures len { length marks.new ≡ length marks.old }
    ensures counted { result ≡ marked_from marks.new trail.now.lits start }
    ensures grows { count ≤ result }
{
    if marks[var as usize] {
        return count;
    }
    let place = trail.place(var);
    marks[var as usize] = true;
    if place >= start {
        return count + 1;
    }
    count
}

/// Marks the variables of a clause, which are all set.
pub(crate) fn mark_clause(
    marks: &mut [bool],
    trail: &Trail,
    clause: &[Lit],
    start: u32,
    count: u32,
) -> u32
    requires len { length marks.old ≡ trail.now.vars }
    requires range { IsInRange trail.now.vars clause.now }
    requires covered { Covers trail.now.lits clause.now }
    requires counted { count ≡ marked_from marks.old trail.now.lits start }
    ensures marked { (v : ℕ) → is_marked marks.new v ≡ (is_marked marks.old v || is_some (sign_of clause.now v)) }
    ensures len { length marks.new ≡ length marks.old }
    ensures counted { result ≡ marked_from marks.new trail.now.lits start }
    ensures grows { count ≤ result }
{
    let mut total = count;
    'marking: for lit in clause {
        total = mark(marks, trail, lit.var, start, total);
    }
    total
}

/// The clause that the marks stand for. It takes the marks away.
pub(crate) fn collect(
    alloc: Global,
    trail: &Trail,
    marks: &mut [bool],
) -> Result<List<Lit>, NoMemory>
    requires { length marks.old ≡ trail.now.vars }
    ensures range { IfOk result (IsInRange trail.now.vars) }
    ensures signs { IfOk result (λ c. (v : ℕ) → sign_of c v ≡ marked_signs trail.now.lits marks.old v) }
    ensures clear { OnOk result (All (λ b. b ≡ false) marks.new) }
    ensures len { length marks.new ≡ length marks.old }
{
    let mut clause = List::new(alloc);
    'collecting: for var in 0..trail.vars() {
        if marks[var as usize] {
            marks[var as usize] = false;
            match trail.value(var) {
                Some(sign) => clause.push(Lit {
                    var,
                    positive: !sign,
                })?,
                None => {}
            }
        }
    }
    Ok(clause)
}
