//! The numbers of a label file.
ghost use Rattle.std.specs.Prelude.{◌≡◌, ◌<◌, ◌≤◌, IfOk};
ghost use Rattle.label_file.specs.Causes.{Answers};
ghost use Rattle.label_file.specs.Numbers.{address_of, count_of, index_of, is_word_address, number_on};

use crate::cause::Cause;
use coco_base::{literal_of, number_of};

/// The greatest number of a value.
const GREATEST: u64 = u32::MAX as u64;

/// The number that a word writes, in decimal digits or in hexadecimal ones after `0x`.
pub(crate) fn number_on(word: &[u8]) -> Option<u32>
    ensures { result ≡ number_on word.now }
{
    match literal_of(word, GREATEST) {
        Ok(number) => Some(number as u32),
        Err(_) => None,
    }
}

/// Whether a number is the address of a memory word.
fn is_word_address(number: u32) -> bool
    ensures { result ≡ is_word_address number }
{
    number % 4 == 0 && (number < 0x4000 || (0x1_0000 <= number && number < 0x1_1000))
}

/// The address of a memory word that a word writes.
pub(crate) fn address_of(word: &[u8]) -> Option<u32>
    ensures { result ≡ address_of word.now }
{
    let number = number_on(word)?;
    if is_word_address(number) {
        Some(number)
    } else {
        None
    }
}

/// A number from 1 to `most`, in decimal digits.
#[tactic(auto, unfolding(crate::specs::Numbers::count_of))]
pub(crate) fn count_of(word: &[u8], most: u32) -> Result<u32, Cause>
    ensures value { Answers (λ n. n) result (count_of most word.now) }
    ensures some { IfOk result (λ n. 0 < n) }
    ensures few { IfOk result (λ n. n ≤ most) }
{
    match number_of(word, 10, u64::from(most)) {
        Ok(number) if 0 < number => Ok(number as u32),
        _ => Err(Cause::ShareRange),
    }
}

/// A number below a bound, in decimal digits.
#[tactic(auto, unfolding(crate::specs::Numbers::index_of))]
pub(crate) fn index_of(word: &[u8], bound: u32) -> Result<u32, Cause>
    ensures value { result ≡ index_of bound word.now }
    ensures below { IfOk result (λ n. n < bound) }
{
    match number_of(word, 10, GREATEST) {
        Ok(number) if number < u64::from(bound) => Ok(number as u32),
        _ => Err(Cause::ShareRange),
    }
}
