ghost use Rattle.std.specs.Prelude.{◌≡◌, slice_get, option_copied};
ghost use Rattle.clause_store.specs.Derivations.{clauses_of};

use crate::line::Line;
use crate::lit::Lit;
use crate::store::Store;

/// The clause of a number, counted over the store's clauses and then those of the lines. It takes no memory.
pub fn clause_at<'a>(store: &'a Store, lines: &'a [Line], id: u32) -> Option<&'a [Lit]>
    ensures { option_copied result ≡ slice_get (clauses_of store.now lines.now) id }
{
    let count = store.count();
    if id < count {
        return Some(store.get(id));
    }
    match lines.get((id - count) as usize) {
        Some(line) => Some(line.clause.as_slice()),
        None => None,
    }
}
