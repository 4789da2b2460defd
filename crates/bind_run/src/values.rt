//! What the bits of values start at.
ghost use Rattle.std.specs.Prelude.{◌≡◌, false, All, IfOk, get_or, map};
ghost use Rattle.std.specs.List.{range_with_len};
ghost use Rattle.bind_run.specs.Inputs.{starts_at};
ghost use Rattle.bind_run.specs.Values.{HasRoom, number_bit, value_start, word_bits};

use coco_base::{List, NoMemory, Start};
use label_file::LabelValue;
use std::alloc::Global;

fn number_bit(number: u32, place: usize) -> bool
    ensures { result ≡ number_bit number place }
{
    if place >= 32 {
        return false;
    }
    (number >> place) % 2 == 1
}

/// What the bit at a place of a value starts at.
pub(crate) fn value_start(value: LabelValue, place: usize) -> Start
    requires { HasRoom value }
    ensures { result ≡ value_start value place }
{
    match value {
        LabelValue::Number(number) => Start::Public(number_bit(number, place)),
        LabelValue::Bits { first, width } => {
            if place < width as usize {
                Start::Label(first + place as u32)
            } else {
                Start::Public(false)
            }
        }
    }
}

/// The starts of the bits at a place of values.
pub(crate) fn starts_at(
    alloc: Global,
    values: &[LabelValue],
    place: usize,
) -> Result<List<Start>, NoMemory>
    requires { All HasRoom values.now }
    ensures { IfOk result (λ starts. starts ≡ starts_at values.now place) }
{
    let mut starts = Vec::new(alloc);
    'values: for value in values {
        starts.push(value_start(*value, place))?;
    }
    Ok(List::from_vec(starts))
}

/// The start of the bit at a place of the first value.
pub(crate) fn first_start(values: &[LabelValue], place: usize) -> Start
    requires { All HasRoom values.now }
    ensures { result ≡ get_or (starts_at values.now place) 0 (Start.Public false) }
{
    match values {
        [value, ..] => value_start(*value, place),
        [] => Start::Public(false),
    }
}

/// What the bits of a memory word start at.
#[tactic(auto, unfolding(crate::specs::Values::word_bits))]
pub(crate) fn word_bits(alloc: Global, value: LabelValue) -> Result<List<Start>, NoMemory>
    requires { HasRoom value }
    ensures { IfOk result (λ bits. bits ≡ word_bits value) }
{
    bits_of(alloc, value, 32)
}

/// What the bits of a value start at, so many.
#[tactic(auto, using(crate::proofs::ListLemmas::range_more))]
fn bits_of(alloc: Global, value: LabelValue, count: usize) -> Result<List<Start>, NoMemory>
    requires { HasRoom value }
    ensures { IfOk result (λ bits. bits ≡ map (value_start value) (range_with_len 0 count)) }
{
    let mut bits = Vec::new(alloc);
    'bits: for place in 0..count {
        bits.push(value_start(value, place))?;
    }
    Ok(List::from_vec(bits))
}
