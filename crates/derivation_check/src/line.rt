ghost use Rattle.std.specs.Prelude.{◌≡◌, ◌≢◌, ℕ, [], All, MatchBool, length, map};
ghost use Rattle.std.specs.List.{Contains};
ghost use Rattle.clause_store.specs.Signs.{Ascends};
ghost use Rattle.clause_store.specs.Derivations.{clauses_of, IsValidLine};
ghost use Rattle.derivation_check.specs.Marked.{IsClear, IsWithin};

use crate::chain::{ends_in, follow, load};
use crate::marks::Marks;
use clause_store::{Line, Lit, Store, clause_at, is_ascending};

/// Whether a line is valid over the clauses of a store and of the lines before it.
pub(crate) fn is_valid(marks: &mut Marks, store: &Store, before: &[Line], line: &Line) -> bool
    requires clear { IsClear marks.old }
    requires ascending { All Ascends (clauses_of store.now before.now) }
    requires within { All (IsWithin (length marks.old)) (clauses_of store.now before.now) }
    ensures size { length marks.new ≡ length marks.old }
    ensures valid { MatchBool result
        (IsValidLine (clauses_of store.now before.now) line.now × IsClear marks.new ×
        IsWithin (length marks.old) line.now.clause)
        (IsValidLine (clauses_of store.now before.now) line.now → ⊥) }
{
    if !is_ascending(line.clause.as_slice()) {
        return false;
    }
    let Some(start) = clause_at(store, before, line.first) else {
        return false;
    };
    load(marks, start);
    if !follow(marks, store, before, line.cuts.as_slice()) {
        return false;
    }
    ends_in(marks, line.clause.as_slice())
}

/// How many variables have to be told apart for the clause: one more than its greatest.
fn width_of(clause: &[Lit]) -> usize
    requires { Ascends clause.now }
    ensures { IsWithin result clause.now }
{
    match clause.last() {
        Some(lit) => lit.var as usize + 1,
        None => 0,
    }
}

/// How many variables have to be told apart for all clauses of a store.
pub(crate) fn width(store: &Store) -> usize
    ensures within { All (IsWithin result) store.now }
    ensures ascending { All Ascends store.now }
{
    let mut size = 0;
    'measuring: for id in 0..store.count() {
        size = width_of(store.get(id)).max(size);
    }
    size
}

fn store_has_empty(store: &Store) -> bool
    ensures { MatchBool result (Contains store.now []) (All (λ c. c ≢ []) store.now) }
{
    'looking: for id in 0..store.count() {
        if store.get(id).is_empty() {
            return true;
        }
    }
    false
}

fn lines_have_empty(lines: &[Line]) -> bool
    ensures { MatchBool result (Contains (map (λ l. l.clause) lines.now) [])
        (All (λ c. c ≢ []) (map (λ l. l.clause) lines.now)) }
{
    'looking: for line in lines {
        if line.clause.is_empty() {
            return true;
        }
    }
    false
}

/// Whether the store or a line has the empty clause.
pub(crate) fn has_empty(store: &Store, lines: &[Line]) -> bool
    ensures { MatchBool result (Contains (clauses_of store.now lines.now) [])
        (All (λ c. c ≢ []) (clauses_of store.now lines.now)) }
{
    store_has_empty(store) || lines_have_empty(lines)
}
