ghost use Rattle.std.specs.Prelude.{◌≡◌, ℕ, ◌+◌, ◌-◌, ◌<◌, ◌≤◌, ◌*◌, List, [], ◌∷◌, ◌++◌, length, slice_index, OnOk, IfOk, IfSome};
ghost use Rattle.clause_store.specs.declared.lit.Lit.{Lit as StoredLit};
ghost use Rattle.clause_solver.specs.Trails.{level_start_of};
ghost use Rattle.clause_solver.specs.Propagation.{IsInRange};
ghost use Rattle.clause_solver.specs.Analysis.{Covers, IsAnalyzed};
ghost use Rattle.clause_solver.specs.Jumps.{IsKept, IsKeptLevel, IsLastOf};
ghost use Rattle.clause_solver.specs.Watches.{code_of, watched_by, IsGuarded, IsWatched};

use crate::propagate::opposite;
use crate::standing::{Standing, judged};
use crate::trail::Trail;
use crate::watches::{Pair, Watches};
use clause_store::Lit;
use coco_base::NoMemory;

/// One more than the last place before the last decision at which a variable of the clause is set, or 0.
fn kept_places(trail: &Trail, clause: &[Lit]) -> u32
    requires range { IsInRange trail.now.vars clause.now }
    requires covered { Covers trail.now.lits clause.now }
    ensures { IsKept trail.now.lits clause.now clause.now (level_start_of trail.now) result }
{
    let start = trail.level_start();
    let mut kept = 0;
    'keeping: for lit in clause {
        let place = trail.place(lit.var);
        if place < start && place >= kept {
            kept = place + 1;
        }
    }
    kept
}

/// How many levels start before that place.
fn kept_level(trail: &Trail, kept: u32) -> usize
    requires levels { 0 < length trail.now.starts }
    requires kept { kept ≤ level_start_of trail.now }
    ensures { IsKeptLevel trail.now.starts kept result }
{
    let mut level = trail.levels() - 1;
    'lowering: while level > 0 && trail.level_place(level - 1) >= kept {
        level -= 1;
    }
    level
}

/// The opposite of the last literal of those places, or none where there are none.
fn last_of(trail: &Trail, kept: u32) -> Option<Lit>
    requires { kept ≤ length trail.now.lits }
    ensures { IsLastOf trail.now.lits kept result }
{
    if kept == 0 {
        return None;
    }
    Some(opposite(trail.lit(kept - 1)))
}

/// Watches one clause more by a literal and another one, where there is one.
fn watch(watches: &mut Watches, lit: Lit, other: Option<Lit>, id: u32) -> Result<(), NoMemory>
    requires lit { code_of lit < length watches.old.lists }
    requires other { IfSome other (λ l. code_of l < length watches.old.lists) }
    ensures { OnOk result (watches.new ≡ watched_by watches.old lit other id) }
{
    match other {
        None => watches.add_none(),
        Some(other) => watches.add_pair(Pair { one: lit, other }, id),
    }
}

/// Goes back to the lowest level at which all literals of the learnt clause but one are still false, and sets that one.
/// The clause is watched by it and by the one of the others that was set last. It answers the place where the literal
/// is set.
pub(crate) fn jump_back(
    trail: &mut Trail,
    watches: &mut Watches,
    clause: &[Lit],
    id: u32,
) -> Result<u32, NoMemory>
    requires levels { 0 < length trail.old.starts }
    requires bounded { (k : ℕ) → k < length trail.old.starts → slice_index trail.old.starts k < length trail.old.lits }
    requires lists { length watches.old.lists ≡ 2 * trail.old.vars }
    requires range { IsInRange trail.old.vars clause.now }
    requires analyzed { IsAnalyzed trail.old clause.now }
    ensures watched { IfOk result (λ head. (clauses : List (List StoredLit)) → length clauses ≡ id
        → IsGuarded clauses trail.old watches.old
        → IsWatched (clauses ++ clause.now ∷ []) trail.new watches.new head) }
    ensures vars { OnOk result (trail.new.vars ≡ trail.old.vars) }
{
    let kept = kept_places(trail, clause);
    let level = kept_level(trail, kept);
    let last = last_of(trail, kept);
    trail.undo(level);
    let head = trail.len();
    match judged(trail, clause) {
        Standing::Unit(lit) => {
            watch(watches, lit, last, id)?;
            trail.push(lit, Some(id))?;
            Ok(head)
        }
        Standing::Met => Ok(head),
        Standing::Loose => Ok(head),
        Standing::Broken => Ok(head),
    }
}
