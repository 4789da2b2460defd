//! The values of expressions.
ghost use Rattle.std.specs.Prelude.{◌≡◌};
ghost use Rattle.rv_asm.specs.Causes.{Answers};
ghost use Rattle.rv_asm.specs.Values.{half_of, halves_of, high_half, is_known, low_half, low_word, moved, sum_value, term_value, value_of, written};

use crate::layout::cause::Cause;
use crate::layout::names::Names;
use crate::line::expression::{Expr, Half, Sum, Term};

// A number modulo 2^32.
pub(crate) fn low_word(value: i128) -> u32
    ensures { result ≡ low_word value }
{
    value.rem_euclid(1 << 32) as u32
}

// Bits 31 to 12 of a word plus 2048.
pub(crate) fn high_half(word: u32) -> u32
    ensures { result ≡ high_half word }
{
    word.wrapping_add(2048) / 4096
}

// The low 12 bits of a word, read as signed.
pub(crate) fn low_half(word: u32) -> i32
    ensures { result ≡ low_half word }
{
    let field = word % 4096;
    if field < 2048 {
        field as i32
    } else {
        field as i32 - 4096
    }
}

fn half_of(half: Half, value: i128) -> i128
    ensures { result ≡ half_of half value }
{
    match half {
        Half::High => i128::from(high_half(low_word(value))),
        Half::Low => i128::from(low_half(low_word(value))),
    }
}

fn halves_of(halves: &[Half], value: i128) -> i128
    ensures { result ≡ halves_of halves.now value }
{
    let mut taken = value;
    let mut outer = halves;
    'halves: while let [more @ .., half] = outer {
        taken = half_of(*half, taken);
        outer = more;
    }
    taken
}

// A number as it is written.
pub(crate) fn written(number: Option<i64>) -> Result<i64, Cause>
    ensures { Answers (λ z. z) result (written number) }
{
    number.ok_or(Cause::Range)
}

fn term_value(names: &Names, here: i64, term: &Term) -> Result<i64, Cause>
    ensures { Answers (λ z. z) result (term_value names.now here term.now) }
{
    match term {
        Term::Number(number) => written(*number),
        Term::Name(name) => match names.get(name.as_slice()) {
            Some(meaning) => Ok(meaning.value),
            None => Err(Cause::UnknownName),
        },
        Term::Here => Ok(here),
    }
}

// The value plus or minus an amount.
fn moved(minus: bool, value: i64, amount: i64) -> i128
    ensures { result ≡ moved minus value amount }
{
    if minus {
        i128::from(value) - i128::from(amount)
    } else {
        i128::from(value) + i128::from(amount)
    }
}

#[tactic(auto, unfolding(crate::specs::Values::sum_value))]
fn sum_value(names: &Names, here: i64, sum: &Sum) -> Result<i128, Cause>
    ensures { Answers (λ z. z) result (sum_value names.now here sum.now) }
{
    let amount = written(sum.amount)?;
    let value = term_value(names, here, &sum.term)?;
    Ok(moved(sum.minus, value, amount))
}

// The value of an expression at an address, with the names that are defined.
#[tactic(auto, unfolding(crate::specs::Values::value_of))]
pub(crate) fn value_of(names: &Names, here: i64, expr: &Expr) -> Result<i128, Cause>
    ensures { Answers (λ z. z) result (value_of names.now here expr.now) }
{
    let value = sum_value(names, here, &expr.sum)?;
    Ok(halves_of(expr.halves.as_slice(), value))
}

// Whether the names of an expression are defined.
pub(crate) fn is_known(names: &Names, expr: &Expr) -> bool
    ensures { result ≡ is_known names.now expr.now }
{
    match &expr.sum.term {
        Term::Name(name) => names.get(name.as_slice()).is_some(),
        _ => true,
    }
}
