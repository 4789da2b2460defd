ghost use Rattle.std.specs.Prelude.{◌≡◌, ℕ, ◌+◌, ◌≤◌, ◌<◌, ◌^◌, [], ◌∷◌, ◌++◌, length, List, IsTrue, All, IfOk, OnOk};
ghost use Rattle.circuit_clauses.specs.declared.signal.Signal.{Signal};
ghost use Rattle.circuit_clauses.specs.Formulas.{extended, Fits};
ghost use Rattle.tally_clauses.specs.Tallies.{pair_up, add_up, levels, tally_of};

use crate::merge::merge;
use circuit_clauses::{Form, Signal};
use coco_base::{List, NoMemory};
use std::alloc::Global;

/// How many levels a tree of tallies has. A list that can be stored has fewer than 2 to this power of items.
const LEVELS: u32 = 32;

/// The sum of tallies up to a limit: its place j, from 1, says that at least j of what they count together is true. The
/// clauses that it is not more than the limit come with it.
pub fn tally_of(
    alloc: Global,
    form: &mut Form,
    limit: usize,
    parts: List<List<Signal>>,
) -> Result<List<Signal>, NoMemory>
    requires { Fits (extended form.old (tally_of limit form.old.vars parts).steps) }
    ensures tally { IfOk result (λ tally. tally ≡ (tally_of limit form.old.vars parts).tally) }
    ensures formula { OnOk result (form.new ≡ extended form.old (tally_of limit form.old.vars parts).steps) }
{
    let mut tallies = parts;
    'rising: for _level in 0..LEVELS {
        tallies = pair_up(alloc, form, limit, tallies.as_slice())?;
    }
    add_up(alloc, form, limit, tallies.as_slice())
}

/// Each two neighbours of a list become their sum; an odd last one stays.
fn pair_up(
    alloc: Global,
    form: &mut Form,
    limit: usize,
    parts: &[List<Signal>],
) -> Result<List<List<Signal>>, NoMemory>
    requires { Fits (extended form.old (pair_up limit form.old.vars parts.now).steps) }
    ensures tallies { IfOk result (λ tallies. tallies ≡ (pair_up limit form.old.vars parts.now).tallies) }
    ensures formula { OnOk result (form.new ≡ extended form.old (pair_up limit form.old.vars parts.now).steps) }
{
    let mut tallies = List::new(alloc);
    'pairing: for i in 0..parts.len() / 2 {
        let one = parts[2 * i].as_slice();
        let other = parts[2 * i + 1].as_slice();
        let sum = merge(alloc, form, limit, one, other)?;
        tallies.push(sum)?;
    }
    if parts.len() % 2 == 1 {
        let last = parts[parts.len() - 1].as_slice();
        tallies.push(List::from_vec(Vec::from_slice(alloc, last)?))?;
    }
    Ok(tallies)
}

/// The sum of tallies, one after the other.
fn add_up(
    alloc: Global,
    form: &mut Form,
    limit: usize,
    parts: &[List<Signal>],
) -> Result<List<Signal>, NoMemory>
    requires { Fits (extended form.old (add_up limit form.old.vars [] parts.now).steps) }
    ensures tally { IfOk result (λ tally. tally ≡ (add_up limit form.old.vars [] parts.now).tally) }
    ensures formula { OnOk result (form.new ≡ extended form.old (add_up limit form.old.vars [] parts.now).steps) }
{
    let mut sum = List::new(alloc);
    'summing: for part in parts {
        sum = merge(alloc, form, limit, sum.as_slice(), part.as_slice())?;
    }
    Ok(sum)
}

/// The largest limit of which `can_tally` says that a sum fits.
const LIMIT: usize = 64;

/// What a part is worth at most at this limit: 64 places, each at most 3 * 64.
const WORTH: u64 = 12_288;

/// Whether a sum of tallies surely fits into a form: it takes no more than each part is worth. It takes no memory.
pub fn can_tally(form: &Form, limit: usize, parts: &[List<Signal>]) -> bool
    ensures { IsTrue result → Fits (extended form.now (tally_of limit form.now.vars parts.now).steps) }
{
    if limit > LIMIT || parts.len() > 65_536 || !are_short(limit, parts) {
        return false;
    }
    let worth = parts.len() as u64 * WORTH;
    let vars = u64::from(form.vars());
    let clauses = u64::from(form.store().count());
    vars + worth <= 1 << 30 && clauses + 4 * worth <= 1 << 31
}

/// Whether no tally has more places than the limit.
fn are_short(limit: usize, parts: &[List<Signal>]) -> bool
    ensures { IsTrue result → All (λ (part : List Signal). length part ≤ limit) parts.now }
{
    'measuring: for part in parts {
        if part.len() > limit {
            return false;
        }
    }
    true
}
