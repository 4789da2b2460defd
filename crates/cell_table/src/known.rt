ghost use Rattle.std.specs.Prelude.{◌≡◌};
ghost use Rattle.coco_model.specs.Cells.{input_places, IsForced};
ghost use Rattle.cell_table.specs.Ternary.{ternary};

use crate::ternary::{and_part, mux_part, not_part, or_part, xor_part};
use coco_base::{Kind, Part};

/// What is known of the output where this is known of the inputs: `Zero` or `One` where the output has that value for
/// every value of the inputs that vary, else `Vary`.
pub fn forced(kind: Kind, parts: [Part; 4]) -> Part
    ensures { IsForced kind (input_places kind parts) result }
{
    let [a, b, c, d] = parts;
    known_output(kind, a, b, c, d)
}

fn known_output(kind: Kind, a: Part, b: Part, c: Part, d: Part) -> Part
    ensures { result ≡ ternary kind a b c d }
{
    match kind {
        Kind::Buf => a,
        Kind::Not => not_part(a),
        Kind::And => and_part(a, b),
        Kind::Nand => not_part(and_part(a, b)),
        Kind::Or => or_part(a, b),
        Kind::Nor => not_part(or_part(a, b)),
        Kind::Xor => xor_part(a, b),
        Kind::Xnor => not_part(xor_part(a, b)),
        Kind::AndNot => and_part(a, not_part(b)),
        Kind::OrNot => or_part(a, not_part(b)),
        Kind::Mux => mux_part(a, b, c),
        Kind::Nmux => not_part(mux_part(a, b, c)),
        Kind::Aoi3 => not_part(or_part(and_part(a, b), c)),
        Kind::Oai3 => not_part(and_part(or_part(a, b), c)),
        Kind::Aoi4 => not_part(or_part(and_part(a, b), and_part(c, d))),
        Kind::Oai4 => not_part(and_part(or_part(a, b), or_part(c, d))),
    }
}
