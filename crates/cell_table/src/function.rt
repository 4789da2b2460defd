ghost use Rattle.std.specs.Prelude.{◌≡◌, cond};
ghost use Rattle.coco_model.specs.Cells.{output_of};

use coco_base::Kind;

/// The output of a gate for the values of its inputs, after the single-bit gate cells of the Yosys manual. A place that
/// the kind does not read does not count.
pub fn value(kind: Kind, inputs: [bool; 4]) -> bool
    ensures { result ≡ output_of kind inputs }
{
    let [a, b, c, d] = inputs;
    match kind {
        Kind::Buf => a,
        Kind::Not => !a,
        Kind::And => a && b,
        Kind::Nand => !(a && b),
        Kind::Or => a || b,
        Kind::Nor => !(a || b),
        Kind::Xor => a != b,
        Kind::Xnor => a == b,
        Kind::AndNot => a && !b,
        Kind::OrNot => a || !b,
        Kind::Mux => select(c, b, a),
        Kind::Nmux => !select(c, b, a),
        Kind::Aoi3 => !((a && b) || c),
        Kind::Oai3 => !((a || b) && c),
        Kind::Aoi4 => !((a && b) || (c && d)),
        Kind::Oai4 => !((a || b) && (c || d)),
    }
}

fn select(chosen: bool, one: bool, zero: bool) -> bool
    ensures { result ≡ cond chosen one zero }
{
    if chosen { one } else { zero }
}
