//! The statements of directives.
ghost use Rattle.std.specs.Prelude.{◌≡◌};
ghost use Rattle.rv_asm.specs.Readings.{Gives};
ghost use Rattle.rv_asm.specs.Statements.{directive_at, end_or_comma_at, exponent, exponent_of, exponent_of_multiple, part_of, section_at, values_at};

use crate::line::mnemonics::Form;
use crate::line::operands::{name_and_value, one_number, values};
use crate::line::reading::Unread;
use crate::line::statement::{Demand, Part, Size, Statement};
use crate::line::tokens::{end, mark, name};
use std::alloc::Global;

// Values of one size.
fn values_of(alloc: Global, size: Size, bytes: &[u8]) -> Result<Statement, Unread>
    ensures { Gives (λ s. s) result (values_at size bytes.now) }
{
    let values = values(alloc, bytes)?;
    Ok(Statement::Asks {
        demand: Demand::Value(size),
        values,
    })
}

// The part that a section's name chooses.
#[tactic(auto, unfolding(crate::specs::Statements::part_of))]
fn part_of(name: &[u8]) -> Option<Part>
    ensures { result ≡ part_of name.now }
{
    if name.starts_with(b".text") {
        Some(Part::Text)
    } else if name.starts_with(b".data") {
        Some(Part::Data)
    } else if name.starts_with(b".rodata") {
        Some(Part::Data)
    } else if name.starts_with(b".sdata") {
        Some(Part::Data)
    } else if name.starts_with(b".bss") {
        Some(Part::Data)
    } else if name.starts_with(b".sbss") {
        Some(Part::Data)
    } else {
        None
    }
}

// That nothing is left, or a comma and anything.
fn end_or_comma(bytes: &[u8]) -> Result<(), Unread>
    ensures { Gives (λ x. x) result (end_or_comma_at bytes.now) }
{
    match end(bytes) {
        Err(Unread::Other) => {
            mark(b',', bytes)?;
            Ok(())
        }
        found => found,
    }
}

#[tactic(auto, unfolding(crate::specs::Statements::section_at))]
fn section(bytes: &[u8]) -> Result<Statement, Unread>
    ensures { Gives (λ s. s) result (section_at bytes.now) }
{
    let (name, rest) = name(bytes)?;
    let Some(part) = part_of(name) else {
        return Err(Unread::Other);
    };
    end_or_comma(rest)?;
    Ok(Statement::Enter(part))
}

// The exponent of a power of two, to 4096.
fn exponent_of(number: u64) -> Option<u64>
    ensures { result ≡ exponent_of number }
{
    match number {
        1 => Some(0),
        2 => Some(1),
        4 => Some(2),
        8 => Some(3),
        16 => Some(4),
        32 => Some(5),
        64 => Some(6),
        128 => Some(7),
        256 => Some(8),
        512 => Some(9),
        1024 => Some(10),
        2048 => Some(11),
        4096 => Some(12),
        _ => None,
    }
}

// A number that may be an exponent.
fn exponent(number: Option<i64>) -> Option<u64>
    ensures { result ≡ exponent number }
{
    match number {
        Some(n) if 0 <= n => Some(n as u64),
        _ => None,
    }
}

// The exponent of a power of two that is taken.
fn exponent_of_multiple(number: Option<i64>) -> Option<u64>
    ensures { result ≡ exponent_of_multiple number }
{
    match number {
        Some(n) if 0 <= n => exponent_of(n as u64),
        _ => None,
    }
}

pub(crate) fn directive(alloc: Global, form: Form, bytes: &[u8]) -> Result<Statement, Unread>
    ensures { Gives (λ s. s) result (directive_at form bytes.now) }
{
    match form {
        Form::TextPart => {
            end(bytes)?;
            Ok(Statement::Enter(Part::Text))
        }
        Form::DataPart => {
            end(bytes)?;
            Ok(Statement::Enter(Part::Data))
        }
        Form::Section => section(bytes),
        Form::Words => values_of(alloc, Size::Word, bytes),
        Form::Halves => values_of(alloc, Size::Half, bytes),
        Form::Bytes => values_of(alloc, Size::Byte, bytes),
        Form::Zeros => Ok(Statement::Zeros(one_number(bytes)?)),
        Form::Power => Ok(Statement::Align(exponent(one_number(bytes)?))),
        Form::Multiple => Ok(Statement::Align(exponent_of_multiple(one_number(bytes)?))),
        Form::Equal => {
            let (name, value) = name_and_value(alloc, bytes)?;
            Ok(Statement::Equal { name, value })
        }
        Form::Ignored => Ok(Statement::Nothing),
        _ => Err(Unread::Other),
    }
}
