ghost use Rattle.std.specs.Prelude.{◌≡◌, ◌+◌, ◌<◌, ◌^◌, length, pos, set};
ghost use Rattle.coco_model.specs.Cells.{input_count, input_places, signed, signed_sum, subset_of_number, IsSubsetOf};
ghost use Rattle.cell_table.specs.Sums.{partial_sum, joined_sum, IsBounded};

use crate::function::value;
use crate::kinds::inputs_of;
use coco_base::{Kind, Part};

/// The signed sum (Walsh coefficient) of a gate at a set of its inputs, bit j of `set` standing for place j: the sum,
/// over all values of the inputs that vary, of -1 to the power of the output plus the inputs in the set. It lies
/// between -16 and 16.
pub fn coefficient(kind: Kind, parts: [Part; 4], set: u8) -> i32
    requires inputs { set < 2 ^ input_count kind }
    requires varying { IsSubsetOf (subset_of_number (input_count kind) set) (input_places kind parts) }
    ensures sum { result ≡ signed_sum kind (input_places kind parts) (subset_of_number (input_count kind) set) }
    ensures bound { IsBounded 16 result }
{
    let count = inputs_of(kind) as usize;
    sum_over(kind, &parts[..count], set, [false; 4], 0)
}

// The signed sum over the inputs from a place on, where those before it have the values given.
fn sum_over(kind: Kind, parts: &[Part], set: u8, inputs: [bool; 4], place: usize) -> i32
    requires { place + length parts.now ≡ input_count kind }
    ensures sum { result ≡ partial_sum kind inputs place (subset_of_number (length parts.now) set) parts.now }
    ensures bound { IsBounded (2 ^ length parts.now) result }
{
    let [part, rest @ ..] = parts else {
        return signed(value(kind, inputs), 1);
    };
    let zero = sum_over(
        kind,
        rest,
        set / 2,
        with_value(inputs, place, false),
        place + 1,
    );
    let one = sum_over(
        kind,
        rest,
        set / 2,
        with_value(inputs, place, true),
        place + 1,
    );
    sum_at_place(*part, set % 2 == 1, zero, one)
}

// The sum over a place, from the sums with the place at 0 and at 1.
fn sum_at_place(part: Part, chosen: bool, zero: i32, one: i32) -> i32
    requires zero { IsBounded 8 zero }
    requires one { IsBounded 8 one }
    ensures { result ≡ joined_sum part chosen zero one }
{
    match part {
        Part::Zero => zero,
        Part::One => signed(chosen, one),
        Part::Vary => zero + signed(chosen, one),
    }
}

fn with_value(inputs: [bool; 4], place: usize, value: bool) -> [bool; 4]
    requires { place < 4 }
    ensures { result ≡ set inputs place value }
{
    let mut changed = inputs;
    changed[place] = value;
    changed
}

// The number, times -1 where the bit is true.
fn signed(negative: bool, number: i32) -> i32
    requires { IsBounded 8 number }
    ensures sum { result ≡ signed negative number }
    ensures bound { IsBounded 8 result }
{
    if negative { -number } else { number }
}
