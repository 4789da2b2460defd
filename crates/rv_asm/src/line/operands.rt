//! The operands of statements, separated by commas, up to the line's end.
ghost use Rattle.std.specs.Prelude.{Some};
ghost use Rattle.rv_asm.specs.Readings.{Gives};
ghost use Rattle.rv_asm.specs.Operands.{base_at, comma_expr_at, comma_register_at, register_value_and_base, register_and_base, name_and_value, one_number, one_register, one_value, register_and_value, three_registers, two_registers, two_registers_and_value, values, values_from};

use crate::line::expression::{Expr, nought, read_expr};
use crate::line::numbers::number;
use crate::line::reading::Unread;
use crate::line::registers::register;
use crate::line::tokens::{end, mark, name};
use crate::lists::list_of;
use coco_base::List;
use std::alloc::Global;

// A comma and a register.
#[tactic(auto, unfolding(crate::specs::Operands::comma_register_at))]
pub(crate) fn comma_register(bytes: &[u8]) -> Result<(u8, &[u8]), Unread>
    ensures { Gives (λ x. (x.0, x.1.now)) result (comma_register_at bytes.now) }
{
    register(mark(b',', bytes)?)
}

// A comma and an expression.
#[tactic(auto, unfolding(crate::specs::Operands::comma_expr_at))]
pub(crate) fn comma_expr(alloc: Global, bytes: &[u8]) -> Result<(Expr, &[u8]), Unread>
    ensures { Gives (λ x. (x.0, x.1.now)) result (comma_expr_at bytes.now) }
{
    read_expr(alloc, mark(b',', bytes)?)
}

// A register in brackets.
#[tactic(auto, unfolding(crate::specs::Operands::base_at))]
pub(crate) fn base(bytes: &[u8]) -> Result<(u8, &[u8]), Unread>
    ensures { Gives (λ x. (x.0, x.1.now)) result (base_at bytes.now) }
{
    let inside = mark(b'(', bytes)?;
    let (register, rest) = register(inside)?;
    let rest = mark(b')', rest)?;
    Ok((register, rest))
}

// A register alone.
#[tactic(auto, unfolding(crate::specs::Operands::one_register))]
pub(crate) fn one_register(bytes: &[u8]) -> Result<u8, Unread>
    ensures { Gives (λ x. x) result (one_register bytes.now) }
{
    let (a, rest) = register(bytes)?;
    end(rest)?;
    Ok(a)
}

// Two registers.
#[tactic(auto, unfolding(crate::specs::Operands::two_registers))]
pub(crate) fn two_registers(bytes: &[u8]) -> Result<(u8, u8), Unread>
    ensures { Gives (λ x. x) result (two_registers bytes.now) }
{
    let (a, rest) = register(bytes)?;
    let (b, rest) = comma_register(rest)?;
    end(rest)?;
    Ok((a, b))
}

// Three registers.
#[tactic(auto, unfolding(crate::specs::Operands::three_registers))]
pub(crate) fn three_registers(bytes: &[u8]) -> Result<(u8, u8, u8), Unread>
    ensures { Gives (λ x. x) result (three_registers bytes.now) }
{
    let (a, rest) = register(bytes)?;
    let (b, rest) = comma_register(rest)?;
    let (c, rest) = comma_register(rest)?;
    end(rest)?;
    Ok((a, b, c))
}

// Two registers and a value.
#[tactic(auto, unfolding(crate::specs::Operands::two_registers_and_value))]
pub(crate) fn two_registers_and_value(alloc: Global, bytes: &[u8]) -> Result<(u8, u8, Expr), Unread>
    ensures { Gives (λ x. x) result (two_registers_and_value bytes.now) }
{
    let (a, rest) = register(bytes)?;
    let (b, rest) = comma_register(rest)?;
    let (value, rest) = comma_expr(alloc, rest)?;
    end(rest)?;
    Ok((a, b, value))
}

// A register and a value.
#[tactic(auto, unfolding(crate::specs::Operands::register_and_value))]
pub(crate) fn register_and_value(alloc: Global, bytes: &[u8]) -> Result<(u8, Expr), Unread>
    ensures { Gives (λ x. x) result (register_and_value bytes.now) }
{
    let (a, rest) = register(bytes)?;
    let (value, rest) = comma_expr(alloc, rest)?;
    end(rest)?;
    Ok((a, value))
}

// A value alone.
#[tactic(auto, unfolding(crate::specs::Operands::one_value))]
pub(crate) fn one_value(alloc: Global, bytes: &[u8]) -> Result<Expr, Unread>
    ensures { Gives (λ x. x) result (one_value bytes.now) }
{
    let (value, rest) = read_expr(alloc, bytes)?;
    end(rest)?;
    Ok(value)
}

// A register, and a value with a register in brackets.
#[tactic(auto, unfolding(crate::specs::Operands::register_value_and_base))]
pub(crate) fn register_value_and_base(alloc: Global, bytes: &[u8]) -> Result<(u8, Expr, u8), Unread>
    ensures { Gives (λ x. x) result (register_value_and_base bytes.now) }
{
    let (a, rest) = register(bytes)?;
    let (value, rest) = comma_expr(alloc, rest)?;
    let (b, rest) = base(rest)?;
    end(rest)?;
    Ok((a, value, b))
}

// A register, and one in brackets: the value is 0.
#[tactic(auto, unfolding(crate::specs::Operands::register_and_base))]
pub(crate) fn register_and_base(alloc: Global, bytes: &[u8]) -> Result<(u8, Expr, u8), Unread>
    ensures { Gives (λ x. x) result (register_and_base bytes.now) }
{
    let (a, rest) = register(bytes)?;
    let rest = mark(b',', rest)?;
    let (b, rest) = base(rest)?;
    end(rest)?;
    Ok((a, nought(alloc), b))
}

// A number alone.
#[tactic(auto, unfolding(crate::specs::Operands::one_number))]
pub(crate) fn one_number(bytes: &[u8]) -> Result<Option<i64>, Unread>
    ensures { Gives (λ x. x) result (one_number bytes.now) }
{
    let (value, rest) = number(bytes)?;
    end(rest)?;
    Ok(value)
}

// A name and a value.
#[tactic(auto, unfolding(crate::specs::Operands::name_and_value))]
pub(crate) fn name_and_value(alloc: Global, bytes: &[u8]) -> Result<(List<u8>, Expr), Unread>
    ensures { Gives (λ x. x) result (name_and_value bytes.now) }
{
    let (name, rest) = name(bytes)?;
    let name = list_of(alloc, name)?;
    let (value, rest) = comma_expr(alloc, rest)?;
    end(rest)?;
    Ok((name, value))
}

// Values after the first, each behind a comma.
fn more_values(alloc: Global, first: Expr, bytes: &[u8]) -> Result<(List<Expr>, &[u8]), Unread>
    ensures { Gives (λ x. (x.0, x.1.now)) result (Some (values_from first bytes.now)) }
{
    let mut found = List::new(alloc);
    found.push(first)?;
    let mut rest = bytes;
    // Each takes a byte at least.
    'values: for _turn in 0..bytes.len() {
        match comma_expr(alloc, rest) {
            Ok((value, after)) => {
                found.push(value)?;
                rest = after;
            }
            Err(Unread::Memory) => return Err(Unread::Memory),
            Err(Unread::Other) => return Ok((found, rest)),
        }
    }
    Ok((found, rest))
}

// Values, one at least.
#[tactic(auto, unfolding(crate::specs::Operands::values))]
pub(crate) fn values(alloc: Global, bytes: &[u8]) -> Result<List<Expr>, Unread>
    ensures { Gives (λ x. x) result (values bytes.now) }
{
    let (first, rest) = read_expr(alloc, bytes)?;
    let (found, rest) = more_values(alloc, first, rest)?;
    end(rest)?;
    Ok(found)
}
