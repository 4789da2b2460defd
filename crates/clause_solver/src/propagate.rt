ghost use Rattle.std.specs.Prelude.{◌≡◌, ◌≢◌, ℕ, ◌+◌, ◌<◌, ◌≤◌, ◌^◌, Bool, not, Some, length, slice_get, IfOk, OnOk, IfSome, IfNone, MatchBool};
ghost use Rattle.clause_store.specs.Signs.{sign_of};
ghost use Rattle.clause_store.specs.Derivations.{clauses_of};
ghost use Rattle.clause_solver.specs.Propagation.{IsInRange, Extends};
ghost use Rattle.clause_solver.specs.Visits.{IsVisited, IsSettledOr, AreFalseBetween};
ghost use Rattle.clause_solver.specs.Watches.{listed_under, opposite_of, IsFalse, Holds, IsGuarded, IsPending, IsWatched};

use crate::trail::Trail;
use crate::watches::{Pair, Watches, partner};
use clause_store::{Line, Lit, Store, clause_at};
use coco_base::NoMemory;

/// What came of a look at one clause.
#[derive(Clone, Copy, Debug)]
pub(crate) enum Visit {
    /// It stays listed where it is.
    Stays,
    /// It is listed there no longer.
    Gone,
    /// It has this number, and it is false.
    Failed(u32),
}

pub(crate) fn opposite(lit: Lit) -> Lit
    ensures { result ≡ opposite_of lit }
{
    Lit {
        var: lit.var,
        positive: !lit.positive,
    }
}

fn is_true(trail: &Trail, lit: Lit) -> bool
    requires { lit.var < trail.now.vars }
    ensures { MatchBool result (Holds trail.now.lits lit) (Holds trail.now.lits lit → ⊥) }
{
    match trail.value(lit.var) {
        Some(sign) => sign == lit.positive,
        None => false,
    }
}

fn is_false(trail: &Trail, lit: Lit) -> bool
    requires { lit.var < trail.now.vars }
    ensures { MatchBool result (IsFalse trail.now.lits lit) (IsFalse trail.now.lits lit → ⊥) }
{
    match trail.value(lit.var) {
        Some(sign) => sign != lit.positive,
        None => false,
    }
}

/// The first place of a clause that is not before a variable.
fn place_of(clause: &[Lit], var: u32) -> usize
    ensures { result ≤ length clause.now }
{
    let mut low = 0;
    let mut high = clause.len();
    'halving: while low < high {
        let middle = low + (high - low) / 2;
        if clause[middle].var < var {
            low = middle + 1;
        } else {
            high = middle;
        }
    }
    low
}

/// A literal between two places of the clause that is not false, besides one.
fn find_between(trail: &Trail, clause: &[Lit], besides: Lit, low: usize, high: usize) -> Option<Lit>
    requires range { IsInRange trail.now.vars clause.now }
    requires high { high ≤ length clause.now }
    ensures held { IfSome result (Holds clause.now) }
    ensures other { IfSome result (λ l. l.var ≢ besides.var) }
    ensures awake { IfSome result (λ l. IsFalse trail.now.lits l → ⊥) }
    ensures none { IfNone result (AreFalseBetween trail.now.lits clause.now besides.var low high) }
{
    'finding: for place in low..high {
        let lit = clause[place];
        if lit.var != besides.var && !is_false(trail, lit) {
            return Some(lit);
        }
    }
    None
}

/// A literal of the clause that is not false, besides one. It is sought from a variable on and then from the start, so
/// that of a long clause each literal is looked at about once as the watched ones become false.
fn find_awake(trail: &Trail, clause: &[Lit], besides: Lit, var: u32) -> Option<Lit>
    requires { IsInRange trail.now.vars clause.now }
    ensures held { IfSome result (Holds clause.now) }
    ensures other { IfSome result (λ l. l.var ≢ besides.var) }
    ensures awake { IfSome result (λ l. IsFalse trail.now.lits l → ⊥) }
    ensures none { IfNone result ((w : ℕ) (t : Bool) → w ≢ besides.var → sign_of clause.now w ≡ Some t
        → sign_of trail.now.lits w ≡ Some (not t)) }
{
    let middle = place_of(clause, var);
    match find_between(trail, clause, besides, middle, clause.len()) {
        Some(lit) => Some(lit),
        None => match find_between(trail, clause, besides, 0, middle) {
            Some(lit) => Some(lit),
            None => None,
        },
    }
}

/// An entry of the list of a literal, which is false since a place of the trail.
#[derive(Clone, Copy, Debug)]
pub(crate) struct Spot {
    pub(crate) lit: Lit,
    pub(crate) place: u32,
    pub(crate) entry: usize,
}

/// Looks at the clause of an entry. Where it has a literal to be watched by that is not false it is watched by that
/// one, and else its last literal is set.
fn look_at(
    trail: &mut Trail,
    watches: &mut Watches,
    store: &Store,
    lines: &[Line],
    spot: Spot,
) -> Result<Visit, NoMemory>
    requires guarded { IsGuarded (clauses_of store.now lines.now) trail.old watches.old }
    requires place { slice_get trail.old.lits spot.place ≡ Some (opposite_of spot.lit) }
    requires entry { spot.entry < length (listed_under watches.old spot.lit) }
    requires pending { IsPending (clauses_of store.now lines.now) trail.old watches.old spot.lit spot.place spot.entry }
    ensures guarded { OnOk result (IsGuarded (clauses_of store.now lines.now) trail.new watches.new) }
    ensures extends { OnOk result (Extends trail.old trail.new) }
    ensures visited { let clauses = clauses_of store.now lines.now in
        IfOk result (IsVisited clauses trail.new watches.old watches.new spot) }
{
    let id = watches.id(spot.lit, spot.entry);
    match partner(watches.pair(id), spot.lit) {
        None => {
            watches.remove(spot.lit, spot.entry);
            Ok(Visit::Gone)
        }
        Some(other) => match clause_at(store, lines, id) {
            None => Ok(Visit::Stays),
            Some(clause) => {
                if is_true(trail, other) {
                    return Ok(Visit::Stays);
                }
                match find_awake(trail, clause, other, spot.lit.var) {
                    Some(new) => {
                        watches.rewatch(id, Pair { one: new, other })?;
                        watches.remove(spot.lit, spot.entry);
                        Ok(Visit::Gone)
                    }
                    None => {
                        if is_false(trail, other) {
                            return Ok(Visit::Failed(id));
                        }
                        trail.push(other, Some(id))?;
                        Ok(Visit::Stays)
                    }
                }
            }
        },
    }
}

/// Looks at all clauses that are listed under the opposite of the literal at a place. It answers the number of one that
/// is false.
fn visit_all(
    trail: &mut Trail,
    watches: &mut Watches,
    store: &Store,
    lines: &[Line],
    place: u32,
) -> Result<Option<u32>, NoMemory>
    requires watched { IsWatched (clauses_of store.now lines.now) trail.old watches.old place }
    requires place { place < length trail.old.lits }
    ensures guarded { OnOk result (IsGuarded (clauses_of store.now lines.now) trail.new watches.new) }
    ensures extends { OnOk result (Extends trail.old trail.new) }
    ensures settled { let clauses = clauses_of store.now lines.now in
        IfOk result (IsSettledOr clauses trail.new watches.new (place + 1)) }
{
    let lit = opposite(trail.lit(place));
    let mut entry = 0;
    'visiting: while entry < watches.count(lit) {
        let spot = Spot { lit, place, entry };
        match look_at(trail, watches, store, lines, spot)? {
            Visit::Stays => {
                entry += 1;
            }
            Visit::Gone => {}
            Visit::Failed(id) => return Ok(Some(id)),
        }
    }
    Ok(None)
}

/// Sets what the clauses force by what was set from a place on, first in, first out, until nothing is left to do or a
/// clause is false. It answers that clause's number.
pub(crate) fn propagate(
    trail: &mut Trail,
    watches: &mut Watches,
    store: &Store,
    lines: &[Line],
    head: u32,
) -> Result<Option<u32>, NoMemory>
    requires { IsWatched (clauses_of store.now lines.now) trail.old watches.old head }
    ensures guarded { OnOk result (IsGuarded (clauses_of store.now lines.now) trail.new watches.new) }
    ensures extends { OnOk result (Extends trail.old trail.new) }
    ensures settled { let clauses = clauses_of store.now lines.now in
        IfOk result (IsSettledOr clauses trail.new watches.new (length trail.new.lits)) }
{
    let mut next = head;
    'propagating: while next < trail.len() {
        match visit_all(trail, watches, store, lines, next)? {
            Some(id) => return Ok(Some(id)),
            None => {
                next += 1;
            }
        }
    }
    Ok(None)
}
