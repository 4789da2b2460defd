//! Numbers as they are written in a line.
ghost use Rattle.std.specs.Prelude.{◌≡◌, ◌≤◌, ◌^◌};
ghost use Rattle.coco_base.specs.Numbers.{literal_of};
ghost use Rattle.rv_asm.specs.Readings.{Gives};
ghost use Rattle.rv_asm.specs.Numbers.{magnitude_at, most_magnitude, number_at, value_of_literal, with_sign};

use crate::line::reading::Unread;
use crate::line::tokens::{run, skip_blanks};
use coco_base::{NumberFault, literal_of};

// The greatest magnitude of a number with a minus sign, or without one.
fn most_magnitude(negative: bool) -> u64
    ensures value { result ≡ most_magnitude negative }
    ensures small { result ≤ 2 ^ 32 }
{
    if negative {
        1 << 31
    } else {
        u64::from(u32::MAX)
    }
}

fn with_sign(negative: bool, magnitude: u64) -> i64
    requires { magnitude ≤ 2 ^ 32 }
    ensures { result ≡ with_sign negative magnitude }
{
    if negative {
        -(magnitude as i64)
    } else {
        magnitude as i64
    }
}

// The value of a literal with its sign; nothing stands for a number that is too great.
fn value_of_literal(negative: bool, word: &[u8]) -> Option<Option<i64>>
    ensures { result ≡ value_of_literal negative (literal_of (most_magnitude negative) word.now) }
{
    match literal_of(word, most_magnitude(negative)) {
        Ok(magnitude) => Some(Some(with_sign(negative, magnitude))),
        Err(NumberFault::TooLarge) => Some(None),
        Err(NumberFault::NotDigits) => None,
    }
}

// A number behind its sign.
#[tactic(auto, unfolding(crate::specs::Numbers::magnitude_at))]
fn magnitude(negative: bool, bytes: &[u8]) -> Result<(Option<i64>, &[u8]), Unread>
    ensures { Gives (λ x. (x.0, x.1.now)) result (magnitude_at negative bytes.now) }
{
    let (word, rest) = run(bytes)?;
    match value_of_literal(negative, word) {
        Some(value) => Ok((value, rest)),
        None => Err(Unread::Other),
    }
}

// A number with its sign, with blanks before it.
#[tactic(auto, unfolding(crate::specs::Numbers::number_at))]
pub(crate) fn number(bytes: &[u8]) -> Result<(Option<i64>, &[u8]), Unread>
    ensures { Gives (λ x. (x.0, x.1.now)) result (number_at bytes.now) }
{
    match skip_blanks(bytes) {
        [b'-', rest @ ..] => magnitude(true, rest),
        rest => magnitude(false, rest),
    }
}
