//! Lists of what slices hold.
ghost use Rattle.std.specs.Prelude.{◌≡◌, IfOk};

use coco_base::{List, NoMemory};
use std::alloc::Global;

// A list of these items.
pub(crate) fn list_of<T: Copy>(alloc: Global, items: &[T]) -> Result<List<T>, NoMemory>
    ensures { IfOk result (λ list. list ≡ items.now) }
{
    Ok(List::from_vec(Vec::from_slice(alloc, items)?))
}
