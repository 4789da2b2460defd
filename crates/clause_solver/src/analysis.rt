ghost use Rattle.std.specs.Prelude.{◌≡◌, ℕ, ◌+◌, ◌-◌, ◌<◌, ◌≤◌, ◌^◌, [], length, false, All, IfOk, OnOk};
ghost use Rattle.clause_store.specs.Derivations.{clauses_of, IsValidLine};
ghost use Rattle.clause_solver.specs.Trails.{level_start_of};
ghost use Rattle.clause_solver.specs.Propagation.{IsExplained, IsBrokenAt};
ghost use Rattle.clause_solver.specs.Analysis.{IsChained, IsAnalyzed, least_of};

use crate::marks::{collect, mark_clause};
use crate::trail::Trail;
use clause_store::{Cut, Line, Lit, Store, clause_at};
use coco_base::{List, NoMemory};
use std::alloc::Global;

/// A chain of resolvents so far: the number of its first clause, and its cuts.
#[derive(Drop)]
struct Chain {
    first: u32,
    cuts: List<Cut>,
}

/// How many marks from the last decision on are left at the end.
fn least_marks(trail: &Trail) -> u32
    ensures { result ≡ least_of trail.now }
{
    if trail.levels() == 0 {
        return 0;
    }
    1
}

/// Marks the clause of a number, and counts the marks from the start on.
fn begin(
    marks: &mut [bool],
    trail: &Trail,
    store: &Store,
    lines: &[Line],
    id: u32,
    start: u32,
) -> u32
    requires explained { IsExplained (clauses_of store.now lines.now) trail.now }
    requires broken { IsBrokenAt (clauses_of store.now lines.now) trail.now.lits id }
    requires len { length marks.old ≡ trail.now.vars }
    requires clear { All (λ b. b ≡ false) marks.old }
    requires start { start ≡ level_start_of trail.now }
    ensures chained { let clauses = clauses_of store.now lines.now in
        IsChained clauses trail.now id [] marks.new (length trail.now.lits) result }
    ensures len { length marks.new ≡ length marks.old }
{
    match clause_at(store, lines, id) {
        None => 0,
        Some(clause) => mark_clause(marks, trail, clause, start, 0),
    }
}

/// Cuts the literal at a place out of the marked clause, by the clause that forced it, where it is marked.
fn step_back(
    trail: &Trail,
    store: &Store,
    lines: &[Line],
    marks: &mut [bool],
    chain: &mut Chain,
    place: u32,
    count: u32,
) -> Result<u32, NoMemory>
    requires explained { IsExplained (clauses_of store.now lines.now) trail.now }
    requires len { length marks.old ≡ trail.now.vars }
    requires more { least_of trail.now < count }
    requires chained { let clauses = clauses_of store.now lines.now in
        IsChained clauses trail.now chain.old.first chain.old.cuts marks.old (place + 1) count }
    ensures chained { let clauses = clauses_of store.now lines.now in
        IfOk result (IsChained clauses trail.now chain.new.first chain.new.cuts marks.new place) }
    ensures first { chain.new.first ≡ chain.old.first }
    ensures len { length marks.new ≡ length marks.old }
{
    let start = trail.level_start();
    let lit = trail.lit(place);
    if !marks[lit.var as usize] {
        return Ok(count);
    }
    match trail.reason(place) {
        None => Ok(count),
        Some(id) => match clause_at(store, lines, id) {
            None => Ok(count),
            Some(clause) => {
                chain.cuts.push(Cut { var: lit.var, id })?;
                let total = mark_clause(marks, trail, clause, start, count);
                marks[lit.var as usize] = false;
                Ok(total - 1)
            }
        },
    }
}

/// The line that comes from a clause that is false. It leaves no variable marked.
pub(crate) fn analyze(
    alloc: Global,
    trail: &Trail,
    store: &Store,
    lines: &[Line],
    id: u32,
    marks: &mut [bool],
) -> Result<Line, NoMemory>
    requires explained { IsExplained (clauses_of store.now lines.now) trail.now }
    requires broken { IsBrokenAt (clauses_of store.now lines.now) trail.now.lits id }
    requires len { length marks.old ≡ trail.now.vars }
    requires clear { All (λ b. b ≡ false) marks.old }
    ensures valid { IfOk result (IsValidLine (clauses_of store.now lines.now)) }
    ensures analyzed { IfOk result (λ line. IsAnalyzed trail.now line.clause) }
    ensures clear { OnOk result (All (λ b. b ≡ false) marks.new) }
    ensures len { length marks.new ≡ length marks.old }
{
    let least = least_marks(trail);
    let mut count = begin(marks, trail, store, lines, id, trail.level_start());
    let mut chain = Chain {
        first: id,
        cuts: List::new(alloc),
    };
    let mut top = trail.len();
    'cutting: while count > least {
        top -= 1;
        count = step_back(trail, store, lines, marks, &mut chain, top, count)?;
    }
    let clause = collect(alloc, trail, marks)?;
    let Chain { first, cuts } = chain;
    Ok(Line {
        clause,
        first,
        cuts,
    })
}
