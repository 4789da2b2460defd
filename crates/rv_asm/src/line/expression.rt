//! Expressions: values that are known once all names are.
ghost use Rattle.std.specs.Prelude.{◌≡◌, IfOk, Some};
ghost use Rattle.rv_asm.specs.Readings.{Gives, items_at};
ghost use Rattle.rv_asm.specs.Tables.{look_up};
ghost use Rattle.rv_asm.specs.Expressions.{lone_term, amount_at, closed_at, expr_at, half_at, halves, nought, sum_at, symbol_at, term_of, expr_in_halves_at};

use crate::line::numbers::number;
use crate::line::reading::Unread;
use crate::line::tokens::{begins_with_digit, mark, run, word};
use crate::lists::list_of;
use coco_base::{List, NoMemory};
use std::alloc::Global;

// `%hi`, bits 31 to 12 of a value plus 2048, or `%lo`, its low 12 bits read as signed.
#[derive(Clone, Copy, Debug, PartialEq, Eq)]
pub(crate) enum Half {
    High,
    Low,
}

// What a value starts from.
#[derive(Debug, Drop)]
pub(crate) enum Term {
    // Nothing stands for a number outside -2147483648 to 4294967295.
    Number(Option<i64>),
    Name(List<u8>),
    // The address of the statement.
    Here,
}

// A term, plus or minus an amount.
#[derive(Debug, Drop)]
pub(crate) struct Sum {
    pub(crate) term: Term,
    pub(crate) minus: bool,
    // As in `Term::Number`.
    pub(crate) amount: Option<i64>,
}

// A sum in `%hi` and `%lo`, the outermost first.
#[derive(Debug, Drop)]
pub(crate) struct Expr {
    pub(crate) halves: List<Half>,
    pub(crate) sum: Sum,
}

// The number 0.
pub(crate) fn nought(alloc: Global) -> Expr
    ensures { result ≡ nought }
{
    Expr {
        halves: List::new(alloc),
        sum: lone_term(Term::Number(Some(0))),
    }
}

fn lone_term(term: Term) -> Sum
    ensures { result ≡ lone_term term }
{
    Sum {
        term,
        minus: false,
        amount: Some(0),
    }
}

// What is added to a term.
#[tactic(auto, unfolding(crate::specs::Expressions::amount_at))]
fn amount(term: Term, bytes: &[u8]) -> Result<(Sum, &[u8]), Unread>
    ensures { Gives (λ x. (x.0, x.1.now)) result (amount_at term bytes.now) }
{
    let (minus, rest) = match mark(b'+', bytes) {
        Ok(rest) => (false, rest),
        Err(Unread::Memory) => return Err(Unread::Memory),
        Err(Unread::Other) => match mark(b'-', bytes) {
            Ok(rest) => (true, rest),
            Err(Unread::Memory) => return Err(Unread::Memory),
            Err(Unread::Other) => return Ok((lone_term(term), bytes)),
        },
    };
    let (amount, rest) = number(rest)?;
    Ok((
        Sum {
            term,
            minus,
            amount,
        },
        rest,
    ))
}

fn term_of(alloc: Global, word: &[u8]) -> Result<Term, NoMemory>
    ensures { IfOk result (λ term. term ≡ term_of word.now) }
{
    match word {
        b"." => Ok(Term::Here),
        _ => Ok(Term::Name(list_of(alloc, word)?)),
    }
}

#[tactic(auto, unfolding(crate::specs::Expressions::symbol_at))]
fn symbol(alloc: Global, bytes: &[u8]) -> Result<(Sum, &[u8]), Unread>
    ensures { Gives (λ x. (x.0, x.1.now)) result (symbol_at bytes.now) }
{
    let (word, rest) = word(bytes)?;
    if begins_with_digit(word) {
        return Err(Unread::Other);
    }
    let term = term_of(alloc, word)?;
    amount(term, rest)
}

#[tactic(auto, unfolding(crate::specs::Expressions::sum_at))]
fn read_sum(alloc: Global, bytes: &[u8]) -> Result<(Sum, &[u8]), Unread>
    ensures { Gives (λ x. (x.0, x.1.now)) result (sum_at bytes.now) }
{
    match number(bytes) {
        Ok((value, rest)) => Ok((lone_term(Term::Number(value)), rest)),
        Err(Unread::Memory) => Err(Unread::Memory),
        Err(Unread::Other) => symbol(alloc, bytes),
    }
}

fn half_of(name: &[u8]) -> Option<Half>
    ensures { result ≡ look_up halves name.now }
{
    match name {
        b"hi" => Some(Half::High),
        b"lo" => Some(Half::Low),
        _ => None,
    }
}

// `%hi(` or `%lo(`.
#[tactic(auto, unfolding(crate::specs::Expressions::half_at))]
fn read_half(bytes: &[u8]) -> Result<(Half, &[u8]), Unread>
    ensures { Gives (λ x. (x.0, x.1.now)) result (half_at bytes.now) }
{
    let rest = mark(b'%', bytes)?;
    let (name, rest) = run(rest)?;
    let Some(half) = half_of(name) else {
        return Err(Unread::Other);
    };
    let rest = mark(b'(', rest)?;
    Ok((half, rest))
}

// All `%hi(` and `%lo(` at the front.
fn opening_halves(alloc: Global, bytes: &[u8]) -> Result<(List<Half>, &[u8]), Unread>
    ensures { Gives (λ x. (x.0, x.1.now)) result (Some (items_at half_at bytes.now)) }
{
    let mut found = List::new(alloc);
    let mut rest = bytes;
    // Each takes a byte at least.
    'halves: for _turn in 0..bytes.len() {
        match read_half(rest) {
            Ok((half, after)) => {
                found.push(half)?;
                rest = after;
            }
            Err(Unread::Memory) => return Err(Unread::Memory),
            Err(Unread::Other) => return Ok((found, rest)),
        }
    }
    Ok((found, rest))
}

// What follows a closing bracket for each half.
fn after_closings<'a>(halves: &[Half], bytes: &'a [u8]) -> Result<&'a [u8], Unread>
    ensures { Gives (λ x. x.now) result (closed_at halves.now bytes.now) }
{
    let mut rest = bytes;
    'halves: for _half in halves {
        match mark(b')', rest) {
            Ok(after) => rest = after,
            Err(unread) => return Err(unread),
        }
    }
    Ok(rest)
}

#[tactic(auto, unfolding(crate::specs::Expressions::expr_in_halves_at))]
fn expr_in_halves(alloc: Global, halves: List<Half>, bytes: &[u8]) -> Result<(Expr, &[u8]), Unread>
    ensures { Gives (λ x. (x.0, x.1.now)) result (expr_in_halves_at halves bytes.now) }
{
    let (sum, rest) = read_sum(alloc, bytes)?;
    let rest = after_closings(halves.as_slice(), rest)?;
    Ok((Expr { halves, sum }, rest))
}

// An expression, with blanks before it.
#[tactic(auto, unfolding(crate::specs::Expressions::expr_at))]
pub(crate) fn read_expr(alloc: Global, bytes: &[u8]) -> Result<(Expr, &[u8]), Unread>
    ensures { Gives (λ x. (x.0, x.1.now)) result (expr_at bytes.now) }
{
    let (halves, rest) = opening_halves(alloc, bytes)?;
    expr_in_halves(alloc, halves, rest)
}
