ghost use Rattle.std.specs.Prelude.{◌≡◌, ℕ, ◌<◌, ◌≤◌, List, None, length, take, IfOk, OnOk, IfSome, IfNone};
ghost use Rattle.clause_store.specs.declared.lit.Lit.{Lit as StoredLit};
ghost use Rattle.clause_store.specs.Signs.{sign_of};
ghost use Rattle.clause_store.specs.Derivations.{clauses_of};
ghost use Rattle.clause_solver.specs.Propagation.{IsFull, IsSearched};
ghost use Rattle.clause_solver.specs.Watches.{Watching, IsGuarded, IsSettled, IsWatched};

use crate::propagate::propagate;
use crate::trail::Trail;
use crate::watches::Watches;
use clause_store::{Line, Lit, Store};
use coco_base::NoMemory;
use pickers::Picker;

/// The picker's choice of a variable that is unset, or none where all are set.
fn next_unset(picker: &mut Box<dyn Picker>, trail: &Trail) -> Option<u32>
    ensures range { IfSome result (λ v. v < trail.now.vars) }
    ensures picked { IfSome result (λ v. sign_of trail.now.lits v ≡ None) }
    ensures none { IfNone result (IsFull trail.now) }
{
    picker.pick(trail.unset())
}

/// Opens a level and sets the variable to false.
fn decide(trail: &mut Trail, var: u32) -> Result<(), NoMemory>
    requires range { var < trail.old.vars }
    requires unset { sign_of trail.old.lits var ≡ None }
    ensures watched { OnOk result ((clauses : List (List StoredLit)) (w : Watching) → IsGuarded clauses trail.old w
        → IsSettled clauses w (take (length trail.old.lits) trail.old.lits) trail.old.lits
        → IsWatched clauses trail.new w (length trail.old.lits)) }
    ensures vars { OnOk result (trail.new.vars ≡ trail.old.vars) }
    ensures longer { OnOk result (length trail.old.lits < length trail.new.lits) }
{
    trail.open_level()?;
    trail.push(
        Lit {
            var,
            positive: false,
        },
        None,
    )?;
    Ok(())
}

/// Propagates and decides in turn, until all variables are set or a clause is false. It answers that clause's number.
pub(crate) fn search(
    trail: &mut Trail,
    watches: &mut Watches,
    store: &Store,
    lines: &[Line],
    head: u32,
    picker: &mut Box<dyn Picker>,
) -> Result<Option<u32>, NoMemory>
    requires { IsWatched (clauses_of store.now lines.now) trail.old watches.old head }
    ensures guarded { OnOk result (IsGuarded (clauses_of store.now lines.now) trail.new watches.new) }
    ensures vars { OnOk result (trail.new.vars ≡ trail.old.vars) }
    ensures searched { IfOk result (IsSearched (clauses_of store.now lines.now) trail.new) }
{
    let mut next = head;
    'searching: loop {
        match propagate(trail, watches, store, lines, next)? {
            Some(id) => return Ok(Some(id)),
            None => match next_unset(picker, trail) {
                None => return Ok(None),
                Some(var) => {
                    next = trail.len();
                    decide(trail, var)?;
                }
            },
        }
    }
}
