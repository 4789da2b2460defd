// Gates over parts: what is known of an output, as far as the connectives tell.
ghost use Rattle.std.specs.Prelude.{◌≡◌};
ghost use Rattle.coco_model.specs.Calm.{both};
ghost use Rattle.cell_table.specs.Ternary.{not_part, and_part, or_part, xor_part, mux_part};

use coco_base::Part;

pub(crate) fn not_part(a: Part) -> Part
    ensures { result ≡ not_part a }
{
    match a {
        Part::Zero => Part::One,
        Part::One => Part::Zero,
        Part::Vary => Part::Vary,
    }
}

pub(crate) fn and_part(a: Part, b: Part) -> Part
    ensures { result ≡ and_part a b }
{
    match (a, b) {
        (Part::Zero, _) | (_, Part::Zero) => Part::Zero,
        (Part::One, Part::One) => Part::One,
        _ => Part::Vary,
    }
}

pub(crate) fn or_part(a: Part, b: Part) -> Part
    ensures { result ≡ or_part a b }
{
    match (a, b) {
        (Part::One, _) | (_, Part::One) => Part::One,
        (Part::Zero, Part::Zero) => Part::Zero,
        _ => Part::Vary,
    }
}

pub(crate) fn xor_part(a: Part, b: Part) -> Part
    ensures { result ≡ xor_part a b }
{
    match (a, b) {
        (Part::Vary, _) | (_, Part::Vary) => Part::Vary,
        (Part::Zero, Part::Zero) | (Part::One, Part::One) => Part::Zero,
        _ => Part::One,
    }
}

// The part of both where they are one, and `Vary` otherwise.
pub(crate) fn same_part(a: Part, b: Part) -> Part
    ensures { result ≡ both a b }
{
    if a == b { a } else { Part::Vary }
}

// A multiplexer whose data inputs are known to be equal is known, whatever selects.
pub(crate) fn mux_part(a: Part, b: Part, select: Part) -> Part
    ensures { result ≡ mux_part a b select }
{
    match select {
        Part::Zero => a,
        Part::One => b,
        Part::Vary => same_part(a, b),
    }
}
