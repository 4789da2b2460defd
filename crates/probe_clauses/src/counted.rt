ghost use Rattle.std.specs.Prelude.{◌≡◌, cond, [], ◌∷◌, ◌++◌, IfOk, OnOk};
ghost use Rattle.circuit_clauses.specs.Formulas.{Fits};
ghost use Rattle.clause_builds.specs.Builds.{made, after};
ghost use Rattle.probe_clauses.specs.Rows.{at, picked, counted_row, rows_of, counts_of, column, some_counted};

use circuit_clauses::{FALSE, Form, Signal};
use clause_builds::{count_up, fresh_row, signal_at};
use coco_base::{List, NoMemory};
use std::alloc::Global;

/// A row of signals, and how many of them are true: place j, from 1, of the count says that at least j are.
#[derive(Debug, Drop)]
pub(crate) struct Counted {
    pub row: List<Signal>,
    pub count: List<Signal>,
}

/// A variable for each place where one is wanted, with how many are true up to a limit, which is not passed.
pub(crate) fn counted_row(
    alloc: Global,
    form: &mut Form,
    limit: usize,
    wanted: &[bool],
) -> Result<Counted, NoMemory>
    requires { Fits (after form.old (counted_row limit wanted.now)) }
    ensures counted { IfOk result (λ counted. counted ≡ made form.old (counted_row limit wanted.now)) }
    ensures formula { OnOk result (form.new ≡ after form.old (counted_row limit wanted.now)) }
{
    let row = fresh_row(alloc, form, wanted)?;
    let signals = picked(alloc, wanted, row.as_slice())?;
    let count = count_up(alloc, form, limit, signals.as_slice())?;
    Ok(Counted { row, count })
}

/// The signals at the places that are wanted.
pub(crate) fn picked(
    alloc: Global,
    wanted: &[bool],
    signals: &[Signal],
) -> Result<List<Signal>, NoMemory>
    ensures { IfOk result (λ list. list ≡ picked wanted.now signals.now) }
{
    let mut list = List::new(alloc);
    'places: for i in 0..wanted.len().min(signals.len()) {
        push_wanted(&mut list, wanted[i], signals[i])?;
    }
    Ok(list)
}

fn push_wanted(list: &mut List<Signal>, wanted: bool, signal: Signal) -> Result<(), NoMemory>
    ensures { OnOk result (list.new ≡ list.old ++ cond wanted (signal ∷ []) []) }
{
    if wanted {
        list.push(signal)?;
    }
    Ok(())
}

/// The rows alone.
pub(crate) fn rows_of(alloc: Global, all: &[Counted]) -> Result<List<List<Signal>>, NoMemory>
    ensures { IfOk result (λ rows. rows ≡ rows_of all.now) }
{
    let mut rows = List::new(alloc);
    'rows: for counted in all {
        rows.push(List::from_vec(Vec::from_slice(alloc, counted.row.as_slice())?))?;
    }
    Ok(rows)
}

/// The counts alone.
pub(crate) fn counts_of(alloc: Global, all: &[Counted]) -> Result<List<List<Signal>>, NoMemory>
    ensures { IfOk result (λ counts. counts ≡ counts_of all.now) }
{
    let mut counts = List::new(alloc);
    'counts: for counted in all {
        counts.push(List::from_vec(Vec::from_slice(alloc, counted.count.as_slice())?))?;
    }
    Ok(counts)
}

/// The signals of all rows at one place.
pub(crate) fn column(alloc: Global, all: &[Counted], place: usize) -> Result<List<Signal>, NoMemory>
    ensures { IfOk result (λ list. list ≡ column all.now place) }
{
    let mut list = List::new(alloc);
    'rows: for counted in all {
        list.push(signal_at(counted.row.as_slice(), place))?;
    }
    Ok(list)
}

/// That at least one is true, by count.
pub(crate) fn some_counted(alloc: Global, all: &[Counted]) -> Result<List<Signal>, NoMemory>
    ensures { IfOk result (λ list. list ≡ some_counted all.now) }
{
    let mut list = List::new(alloc);
    'counts: for counted in all {
        list.push(signal_at(counted.count.as_slice(), 0))?;
    }
    Ok(list)
}

/// The signal of a row at a place; false where there is none.
pub(crate) fn at(rows: &[List<Signal>], i: usize, place: usize) -> Signal
    ensures { result ≡ at rows.now i place }
{
    if i < rows.len() {
        return signal_at(rows[i].as_slice(), place);
    }
    FALSE
}
