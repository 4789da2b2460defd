// The choices of a gate.
ghost use Rattle.std.specs.Prelude.{◌≡◌, ◌<◌, ◌^◌, nat_lt, IfOk};
ghost use Rattle.node_clauses.specs.Choices.{choices, is_choice, has_place, has_varying_places, varies_at_places};
ghost use Rattle.coco_model.specs.Cells.{input_count};

use cell_table::{coefficient, inputs_of};
use coco_base::{Kind, NoMemory, Part};
use std::alloc::Global;

/// How many places a gate has.
pub(crate) const PLACES: usize = 4;

/// The places of a gate.
const FOUR_PLACES: [usize; PLACES] = [0, 1, 2, 3];

/// How many sets of places there are.
pub(crate) const SETS: u8 = 16;

/// The numbers of the choices of a gate, in ascending order.
pub(crate) fn choices(alloc: Global, kind: Kind, parts: [Part; 4]) -> Result<Vec<u8>, NoMemory>
    ensures { IfOk result (λ numbers. numbers.items ≡ choices kind parts) }
{
    let mut numbers = Vec::new(alloc);
    'numbers: for number in 0..SETS {
        if is_choice(kind, parts, number) {
            numbers.push(number)?;
        }
    }
    Ok(numbers)
}

/// Whether a number is a choice for a gate: its places vary, and its signed sum is not 0.
fn is_choice(kind: Kind, parts: [Part; 4], number: u8) -> bool
    requires { number < 16 }
    ensures { result ≡ is_choice kind parts number }
{
    has_varying_places(kind, parts, number) && coefficient(kind, parts, number) != 0
}

fn has_varying_places(kind: Kind, parts: [Part; 4], number: u8) -> bool
    requires { number < 16 }
    ensures { result ≡ has_varying_places kind parts number }
{
    has_input_places(kind, number) && varies_at_places(parts, number)
}

// whether the places of a set are inputs of the kind
fn has_input_places(kind: Kind, number: u8) -> bool
    ensures { result ≡ nat_lt number (2 ^ input_count kind) }
{
    number < 1 << inputs_of(kind)
}

// whether the places of a set vary
fn varies_at_places(parts: [Part; 4], number: u8) -> bool
    ensures { result ≡ varies_at_places parts number }
{
    FOUR_PLACES.iter().all(|place| !has_place(*place, number) || parts[*place] == Part::Vary)
}

/// Whether the set of a number has a place.
pub(crate) fn has_place(place: usize, number: u8) -> bool
    requires { place < 4 }
    ensures { result ≡ has_place place number }
{
    number / (1 << place) % 2 == 1
}
