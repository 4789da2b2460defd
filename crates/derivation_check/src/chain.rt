ghost use Rattle.std.specs.Prelude.{◌≡◌, ◌≢◌, ℕ, not, ◌<◌, ◌≤◌, ◌↔◌, All, IsTrue, MatchBool, Some, None, true, false, length, slice_get, slice_set};
ghost use Rattle.std.specs.Option.{option_or};
ghost use Rattle.clause_store.specs.Signs.{Ascends, Signs, sign_of};
ghost use Rattle.clause_store.specs.Resolvents.{opposite, IsResolvent, LeadsTo};
ghost use Rattle.clause_store.specs.Derivations.{clauses_of};
ghost use Rattle.derivation_check.specs.Marked.{IsClear, signs_in, IsWithin, IsMerged, HasClash, IsCut};

use crate::marks::Marks;
use clause_store::{Cut, Line, Lit, Store, clause_at};

/// Marks the literals of a clause.
pub(crate) fn load(marks: &mut Marks, clause: &[Lit])
    requires clear { IsClear marks.old }
    requires ascending { Ascends clause.now }
    requires within { IsWithin (length marks.old) clause.now }
    ensures size { length marks.new ≡ length marks.old }
    ensures signs { (v : ℕ) → signs_in marks.new v ≡ sign_of clause.now v }
{
    'loading: for lit in clause {
        marks.mark(*lit);
    }
}

/// The sign of a variable in a clause.
fn sign_in(clause: &[Lit], var: u32) -> Option<bool>
    ensures { result ≡ sign_of clause.now var }
{
    'looking: for lit in clause {
        if lit.var == var {
            return Some(lit.positive);
        }
    }
    None
}

fn are_opposite(a: Option<bool>, b: Option<bool>) -> bool
    ensures { result ≡ opposite a b }
{
    match (a, b) {
        (Some(one), Some(other)) => one != other,
        _ => false,
    }
}

/// Marks a literal, unless its variable has the other sign.
fn merge_lit(marks: &mut Marks, lit: Lit) -> bool
    requires { lit.var < length marks.old }
    ensures answer { result ≡ not (opposite (signs_in marks.old lit.var) (Some lit.positive)) }
    ensures set { marks.new ≡ slice_set marks.old lit.var (option_or (signs_in marks.old lit.var) (Some lit.positive)) }
{
    match marks.sign(lit.var) {
        Some(sign) => sign == lit.positive,
        None => {
            marks.mark(lit);
            true
        }
    }
}

/// Marks all literals of a clause but the one of a variable, or tells that another variable has both signs.
fn merge(marks: &mut Marks, clause: &[Lit], var: u32) -> bool
    requires ascending { Ascends clause.now }
    requires within { IsWithin (length marks.old) clause.now }
    ensures size { length marks.new ≡ length marks.old }
    ensures merged { MatchBool result (IsMerged var (signs_in marks.old) (sign_of clause.now) (signs_in marks.new))
        (HasClash var (signs_in marks.old) (sign_of clause.now)) }
{
    'merging: for lit in clause {
        if lit.var != var && !merge_lit(marks, *lit) {
            return false;
        }
    }
    true
}

/// Makes the marks those of the resolvent with a clause on a variable, or tells that there is none.
pub(crate) fn resolve(marks: &mut Marks, clause: &[Lit], var: u32) -> bool
    requires ascending { Ascends clause.now }
    requires within { IsWithin (length marks.old) clause.now }
    ensures size { length marks.new ≡ length marks.old }
    ensures resolvent { MatchBool result
        (IsResolvent var (signs_in marks.old) (sign_of clause.now) (signs_in marks.new))
        ((r : Signs) → IsResolvent var (signs_in marks.old) (sign_of clause.now) r → ⊥) }
{
    if !are_opposite(marks.sign(var), sign_in(clause, var)) {
        return false;
    }
    if !merge(marks, clause, var) {
        return false;
    }
    marks.unmark(var);
    true
}

/// Resolves with the clause that a cut names, or tells that this cannot be done.
fn cut_once(marks: &mut Marks, store: &Store, lines: &[Line], cut: Cut) -> bool
    requires ascending { All Ascends (clauses_of store.now lines.now) }
    requires within { All (IsWithin (length marks.old)) (clauses_of store.now lines.now) }
    ensures size { length marks.new ≡ length marks.old }
    ensures cut { MatchBool result
        (IsCut (clauses_of store.now lines.now) cut (signs_in marks.old) (signs_in marks.new))
        ((r : Signs) → IsCut (clauses_of store.now lines.now) cut (signs_in marks.old) r → ⊥) }
{
    match clause_at(store, lines, cut.id) {
        Some(clause) => resolve(marks, clause, cut.var),
        None => false,
    }
}

/// Makes all cuts in turn, or tells that one cannot be made.
pub(crate) fn follow(marks: &mut Marks, store: &Store, lines: &[Line], cuts: &[Cut]) -> bool
    requires ascending { All Ascends (clauses_of store.now lines.now) }
    requires within { All (IsWithin (length marks.old)) (clauses_of store.now lines.now) }
    ensures size { length marks.new ≡ length marks.old }
    ensures leads { MatchBool result
        ((r : Signs) →
        LeadsTo (clauses_of store.now lines.now) (signs_in marks.old) cuts.now r ↔ ((v : ℕ) → signs_in marks.new v ≡ r v))
        ((r : Signs) → LeadsTo (clauses_of store.now lines.now) (signs_in marks.old) cuts.now r → ⊥) }
{
    'cutting: for cut in cuts {
        if !cut_once(marks, store, lines, *cut) {
            return false;
        }
    }
    true
}

/// Takes the marks of a literal off, or tells that its variable does not have this sign.
fn take_off(marks: &mut Marks, lit: Lit) -> bool
    ensures size { length marks.new ≡ length marks.old }
    ensures taken { MatchBool result
        ((signs_in marks.old lit.var ≡ Some lit.positive) × (marks.new ≡ slice_set marks.old lit.var None))
        (signs_in marks.old lit.var ≢ Some lit.positive) }
{
    if marks.sign(lit.var) == Some(lit.positive) {
        marks.unmark(lit.var);
        return true;
    }
    false
}

/// Whether the marks are just the literals of a clause; then they are taken off.
pub(crate) fn ends_in(marks: &mut Marks, clause: &[Lit]) -> bool
    requires { Ascends clause.now }
    ensures size { length marks.new ≡ length marks.old }
    ensures same { MatchBool result
        (((v : ℕ) → signs_in marks.old v ≡ sign_of clause.now v) × IsClear marks.new)
        (((v : ℕ) → signs_in marks.old v ≡ sign_of clause.now v) → ⊥) }
{
    'taking: for lit in clause {
        if !take_off(marks, *lit) {
            return false;
        }
    }
    marks.is_clear()
}
