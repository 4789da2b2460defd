//! The names of the bits that the lines add.
ghost use Rattle.std.specs.Prelude.{◌≡◌, ◌++◌, IfOk, OnOk};
ghost use Rattle.circuit_rows.specs.Circuits.{bits_of};
ghost use Rattle.circuit_rows.specs.Outcomes.{Adds, Answers};
ghost use Rattle.circuit_rows.specs.Words.{names_bits, number_from, place_name, places, own_bits, shown, width_of};

use crate::fault::RowFault;
use crate::words::{is, words};
use coco_base::{List, NoMemory};
use std::alloc::Global;

pub(crate) fn copied(alloc: Global, name: &[u8]) -> Result<List<u8>, NoMemory>
    ensures { IfOk result (λ list. list ≡ name.now) }
{
    Ok(List::from_vec(Vec::from_slice(alloc, name)?))
}

// the number of at most four digits
fn number(word: &[u8]) -> Option<u32>
    ensures { result ≡ number_from 0 word.now }
{
    let mut number = 0u32;
    'digits: for digit in word {
        if !digit.is_ascii_digit() || number >= 1000 {
            return None;
        }
        number = 10 * number + u32::from(*digit - b'0');
    }
    Some(number)
}

fn place_name(alloc: Global, name: &[u8], place: u32) -> Result<List<u8>, NoMemory>
    ensures { IfOk result (λ list. list ≡ place_name name.now place) }
{
    let digits = place.to_string(alloc)?;
    let mut text = Vec::from_slice(alloc, name)?;
    text.extend_from_slice(b"[")?;
    text.extend_from_slice(digits.as_bytes())?;
    text.extend_from_slice(b"]")?;
    Ok(List::from_vec(text))
}

// adds the names of the bits of a net
fn add_places(
    bits: &mut List<List<u8>>,
    alloc: Global,
    name: &[u8],
    width: u32,
) -> Result<(), NoMemory>
    ensures { OnOk result (bits.new ≡ bits.old ++ places name.now width) }
{
    if width == 1 {
        return bits.push(copied(alloc, name)?);
    }
    'places: for place in 0..width {
        bits.push(place_name(alloc, name, place)?)?;
    }
    Ok(())
}

fn width(words: &[&[u8]]) -> Option<u32>
    ensures { result ≡ width_of (shown words.now) }
{
    match words {
        [] => Some(1),
        [word] => number(word),
        [_, _, ..] => None,
    }
}

pub(crate) fn names_bits(word: &[u8]) -> bool
    ensures { result ≡ names_bits word.now }
{
    is(word, b"in") || is(word, b"open")
}

/// Adds the names of the bits that a line of these words adds, and tells whether it is a row.
pub(crate) fn add_own_bits(
    bits: &mut List<List<u8>>,
    alloc: Global,
    words: &[&[u8]],
) -> Result<bool, NoMemory>
    ensures { IfOk result (λ is_row. Adds is_row (own_bits (shown words.now)) bits.old bits.new) }
{
    match words {
        [] => Ok(true),
        [_] => Ok(false),
        [first, name, more @ ..] => {
            if is(first, b"net") {
                return Ok(true);
            }
            if !names_bits(first) {
                bits.push(copied(alloc, first)?)?;
                return Ok(true);
            }
            let Some(width) = width(more) else {
                return Ok(false);
            };
            add_places(bits, alloc, name, width)?;
            Ok(true)
        }
    }
}

/// The names of all bits, `clk` first and then those of the lines in turn.
pub(crate) fn bits(alloc: Global, lines: &[&[u8]]) -> Result<List<List<u8>>, RowFault>
    ensures { Answers result (bits_of (shown lines.now)) }
{
    let mut bits = List::new(alloc);
    bits.push(copied(alloc, b"clk")?)?;
    let mut number = 0u32;
    'lines: for line in lines {
        number = number.saturating_add(1);
        let words = words(alloc, line)?;
        if !add_own_bits(&mut bits, alloc, words.as_slice())? {
            return Err(RowFault::Outside { line: number });
        }
    }
    Ok(bits)
}
