//! What statements put at their place.
ghost use Rattle.std.specs.Prelude.{◌≡◌, ◌<◌, ◌≤◌, ◌^◌, ℤ, pos, IfOk};
ghost use Rattle.std.specs.Option.{SomeIff};
ghost use Rattle.rv_asm.specs.Causes.{Answers};
ghost use Rattle.rv_asm.specs.Layouts.{address_of, after_cells, align_content, bytes_each, cells_filled, content_of, content_put, filler, gap, has_outside, load_content, source_value, whole_content, words_in, zero_content, zero_count};

use crate::layout::cause::Cause;
use crate::layout::demands::{any_outside, byte_count, fit_word, number_words, word_count};
use crate::layout::names::Names;
use crate::layout::place::Place;
use crate::layout::values::{low_word, written};
use crate::line::expression::{Expr, Term};
use crate::line::instructions::nop;
use crate::line::statement::{Demand, Part, Statement};
use coco_base::{List, NoMemory};
use rv_isa::{Instr, encode};
use std::alloc::Global;

// What stands at a place.
#[derive(Debug, Drop)]
pub(crate) enum Content {
    // Words of the text.
    Known(List<u32>),
    // So many cells that are alike: words of the text, or bytes of the data, which are 0.
    Fill { count: u64, word: u32 },
    // Values, all for the same demand.
    Asked { demand: Demand, values: List<Expr> },
}

// The number that `li` loads.
fn source_value(names: &Names, source: &Term) -> Result<i64, Cause>
    ensures { Answers (λ z. z) result (source_value names.now source.now) }
{
    match source {
        Term::Number(number) => written(*number),
        Term::Name(name) => match names.get(name.as_slice()) {
            Some(meaning) if meaning.is_number => Ok(meaning.value),
            _ => Err(Cause::UnknownName),
        },
        Term::Here => Err(Cause::UnknownName),
    }
}

#[tactic(auto, unfolding(crate::specs::Layouts::load_content))]
fn load_content(alloc: Global, names: &Names, rd: u8, source: &Term) -> Result<Content, Cause>
    ensures { Answers (λ c. c) result (load_content names.now rd source.now) }
{
    let value = source_value(names, source)?;
    let words = number_words(alloc, rd, low_word(i128::from(value)))?;
    Ok(Content::Known(words))
}

#[tactic(auto, unfolding(crate::specs::Layouts::whole_content))]
fn whole_content(alloc: Global, instr: Instr) -> Result<Content, Cause>
    ensures { Answers (λ c. c) result (whole_content instr) }
{
    let word = fit_word(instr)?;
    let mut words = List::new(alloc);
    words.push(word)?;
    Ok(Content::Known(words))
}

// How many cells of zeros a number of bytes is.
fn zero_count(part: Part, bytes: i64) -> Result<u64, Cause>
    ensures { Answers (λ n. n) result (zero_count part bytes) }
{
    if bytes < 0 {
        return Err(Cause::Range);
    }
    let bytes = bytes as u64;
    match part {
        Part::Text if bytes % 4 == 0 => Ok(bytes / 4),
        Part::Text => Err(Cause::Range),
        Part::Data => Ok(bytes),
    }
}

#[tactic(auto, unfolding(crate::specs::Layouts::zero_content))]
fn zero_content(part: Part, number: Option<i64>) -> Result<Content, Cause>
    ensures { Answers (λ c. c) result (zero_content part number) }
{
    let bytes = written(number)?;
    let count = zero_count(part, bytes)?;
    Ok(Content::Fill { count, word: 0 })
}

// The bytes from an address to the next multiple of a unit.
fn gap(unit: u64, address: u64) -> u64
    requires { 1 ≤ unit }
    ensures { result ≡ gap unit address }
{
    (unit - address % unit) % unit
}

// So many bytes of filling.
fn filler(part: Part, bytes: u64) -> Content
    ensures { result ≡ filler part bytes }
{
    match part {
        Part::Text => Content::Fill {
            count: bytes / 4,
            word: encode(nop()),
        },
        Part::Data => Content::Fill {
            count: bytes,
            word: 0,
        },
    }
}

fn align_content(place: Place, exponent: Option<u64>) -> Result<Content, Cause>
    ensures { Answers (λ c. c) result (align_content place exponent) }
{
    match exponent {
        Some(exponent) if exponent <= 12 => {
            let unit = 1u64 << exponent;
            Ok(filler(place.part, gap(unit, place.address())))
        }
        _ => Err(Cause::Range),
    }
}

// What a statement puts at a place.
fn content_of(
    alloc: Global,
    place: Place,
    names: &Names,
    statement: Statement,
) -> Result<Content, Cause>
    ensures { Answers (λ c. c) result (content_of place names.now statement) }
{
    match statement {
        Statement::Whole(instr) => whole_content(alloc, instr),
        Statement::Asks { demand, values } => Ok(Content::Asked { demand, values }),
        Statement::LoadNumber { rd, source } => load_content(alloc, names, rd, &source),
        Statement::Zeros(number) => zero_content(place.part, number),
        Statement::Align(exponent) => align_content(place, exponent),
        _ => Ok(Content::Known(List::new(alloc))),
    }
}

// How many words a content stands for, where a `u64` holds that number.
fn words_in(content: &Content) -> Option<u64>
    ensures { SomeIff result (words_in content.now < 2 ^ 64) (words_in content.now) }
{
    match content {
        Content::Known(words) => Some(words.len() as u64),
        Content::Fill { count, .. } => Some(*count),
        Content::Asked { demand, values } => word_count(*demand).checked_mul(values.len() as u64),
    }
}

// How many bytes of each word stand in the data.
pub(crate) fn bytes_each(content: &Content) -> u64
    ensures value { result ≡ bytes_each content.now }
    ensures some { 1 ≤ result }
    ensures small { result ≤ 4 }
{
    match content {
        Content::Known(_) => 4,
        Content::Fill { .. } => 1,
        Content::Asked { demand, .. } => byte_count(*demand),
    }
}

// How many cells of a part a content fills, where a `u64` holds that number.
fn cells_filled(part: Part, content: &Content) -> Option<u64>
    ensures { SomeIff result (cells_filled part content.now < 2 ^ 64) (cells_filled part content.now) }
{
    let words = words_in(content)?;
    match part {
        Part::Text => Some(words),
        Part::Data => bytes_each(content).checked_mul(words),
    }
}

// The place behind a content, where there is room for it.
fn place_behind(place: Place, content: &Content) -> Result<Place, Cause>
    ensures { Answers (λ p. p) result (after_cells place (cells_filled place.part content.now)) }
{
    match cells_filled(place.part, content) {
        Some(cells) => place.after_cells(cells),
        None => Err(Cause::Range),
    }
}

// Whether a value is known and outside what is asked for.
pub(crate) fn has_outside(
    alloc: Global,
    names: &Names,
    place: Place,
    content: &Content,
) -> Result<bool, NoMemory>
    ensures { IfOk result (λ b. b ≡ has_outside names.now place content.now) }
{
    match content {
        Content::Asked { demand, values } => {
            any_outside(alloc, names, place.here(), *demand, values.as_slice())
        }
        _ => Ok(false),
    }
}

// What a statement puts at a place, and the place behind it.
#[tactic(auto, unfolding(crate::specs::Layouts::content_put, crate::specs::Layouts::put_place))]
pub(crate) fn put(
    alloc: Global,
    place: Place,
    names: &Names,
    statement: Statement,
) -> Result<(Content, Place), Cause>
    ensures { Answers (λ p. p) result (content_put place names.now statement) }
{
    let content = content_of(alloc, place, names, statement)?;
    if has_outside(alloc, names, place, &content)? {
        return Err(Cause::Range);
    }
    let behind = place_behind(place, &content)?;
    Ok((content, behind))
}
