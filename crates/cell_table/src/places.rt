ghost use Rattle.std.specs.Prelude.{◌≡◌, ◌↔◌, IsTrue};
ghost use Rattle.coco_model.specs.Cells.{input_places, IsLiveInput};
ghost use Rattle.cell_table.specs.Live.{varies, may_be_zero, may_be_one, first_matters, second_matters, third_matters, fourth_matters, matters};

use crate::ternary::{and_part, or_part, same_part};
use coco_base::{Kind, Part};

/// Whether an input can change the output: its place varies, and for some value of the other inputs that vary the
/// output changes with it. Places count from 0 in the order of the inputs; no place beyond them is live.
pub fn live(kind: Kind, parts: [Part; 4], place: u32) -> bool
    ensures { IsTrue result ↔ IsLiveInput kind (input_places kind parts) place }
{
    let [a, b, c, d] = parts;
    changes_output(kind, a, b, c, d, place)
}

fn changes_output(kind: Kind, a: Part, b: Part, c: Part, d: Part, place: u32) -> bool
    ensures { result ≡ matters kind a b c d place }
{
    match place {
        0 => varies(a) && first_matters(kind, b, c, d),
        1 => varies(b) && second_matters(kind, a, c, d),
        2 => varies(c) && third_matters(kind, a, b, d),
        3 => varies(d) && fourth_matters(kind, a, b, c),
        _ => false,
    }
}

fn varies(part: Part) -> bool
    ensures { result ≡ varies part }
{
    part == Part::Vary
}

fn may_be_zero(part: Part) -> bool
    ensures { result ≡ may_be_zero part }
{
    part != Part::One
}

fn may_be_one(part: Part) -> bool
    ensures { result ≡ may_be_one part }
{
    part != Part::Zero
}

fn first_matters(kind: Kind, b: Part, c: Part, d: Part) -> bool
    ensures { result ≡ first_matters kind b c d }
{
    match kind {
        Kind::Buf | Kind::Not | Kind::Xor | Kind::Xnor => true,
        Kind::And | Kind::Nand | Kind::OrNot => may_be_one(b),
        Kind::Or | Kind::Nor | Kind::AndNot => may_be_zero(b),
        Kind::Mux | Kind::Nmux => may_be_zero(c),
        Kind::Aoi3 => may_be_one(b) && may_be_zero(c),
        Kind::Oai3 => may_be_zero(b) && may_be_one(c),
        Kind::Aoi4 => may_be_one(b) && may_be_zero(and_part(c, d)),
        Kind::Oai4 => may_be_zero(b) && may_be_one(or_part(c, d)),
    }
}

fn second_matters(kind: Kind, a: Part, c: Part, d: Part) -> bool
    ensures { result ≡ second_matters kind a c d }
{
    match kind {
        Kind::Buf | Kind::Not => false,
        Kind::Xor | Kind::Xnor => true,
        Kind::And | Kind::Nand | Kind::AndNot => may_be_one(a),
        Kind::Or | Kind::Nor | Kind::OrNot => may_be_zero(a),
        Kind::Mux | Kind::Nmux => may_be_one(c),
        Kind::Aoi3 => may_be_one(a) && may_be_zero(c),
        Kind::Oai3 => may_be_zero(a) && may_be_one(c),
        Kind::Aoi4 => may_be_one(a) && may_be_zero(and_part(c, d)),
        Kind::Oai4 => may_be_zero(a) && may_be_one(or_part(c, d)),
    }
}

fn third_matters(kind: Kind, a: Part, b: Part, d: Part) -> bool
    ensures { result ≡ third_matters kind a b d }
{
    match kind {
        Kind::Mux | Kind::Nmux => varies(same_part(a, b)),
        Kind::Aoi3 => may_be_zero(and_part(a, b)),
        Kind::Oai3 => may_be_one(or_part(a, b)),
        Kind::Aoi4 => may_be_one(d) && may_be_zero(and_part(a, b)),
        Kind::Oai4 => may_be_zero(d) && may_be_one(or_part(a, b)),
        _ => false,
    }
}

fn fourth_matters(kind: Kind, a: Part, b: Part, c: Part) -> bool
    ensures { result ≡ fourth_matters kind a b c }
{
    match kind {
        Kind::Aoi4 => may_be_one(c) && may_be_zero(and_part(a, b)),
        Kind::Oai4 => may_be_zero(c) && may_be_one(or_part(a, b)),
        _ => false,
    }
}
