ghost use Rattle.std.specs.Prelude.{◌≡◌, ℕ, ◌<◌, ◌≤◌, ◌++◌, ◌∷◌, [], List, MatchBool, MatchOption, IfSome, IfNone, length, decimal, IsTrue, ◌↔◌, slice_index};
ghost use Rattle.derivation_check.specs.Texts.{AreDigits};

use coco_base::number_of;
use std::marker::Model;

/// The greatest number of a proof text.
const GREATEST: u64 = 2_147_483_647;

/// Reads a proof text. Contracts see the bytes that are left.
#[derive(Debug, Drop)]
pub(crate) struct Reader<'a> {
    rest: &'a [u8],
}

impl<'a> Model for Reader<'a> {
    ghost use Rattle.std.specs.Prelude.{ℕ, List};

    ghost Value = { List ℕ };

    ghost view = { λ r. r.rest.now };
}

impl<'a> Reader<'a> {
    pub(crate) fn new(bytes: &'a [u8]) -> Self
        ensures { result ≡ bytes.now }
    {
        Reader { rest: bytes }
    }

    pub(crate) fn is_at_end(&self) -> bool
        ensures { IsTrue result ↔ (self.now ≡ []) }
    {
        self.rest.is_empty()
    }

    /// Takes a byte, if it comes next.
    pub(crate) fn take(&mut self, byte: u8) -> bool
        ensures { MatchBool result (self.old ≡ byte ∷ self.new) ((self.new ≡ self.old) ×
            ((more : List ℕ) → self.old ≡ byte ∷ more → ⊥)) }
    {
        match self.rest.first() {
            Some(next) if *next == byte => {
                self.rest = &self.rest[1..];
                true
            }
            _ => false,
        }
    }

    /// Takes a 0 with a byte behind it, if they come next.
    pub(crate) fn take_zero(&mut self, end: u8) -> bool
        ensures { MatchBool result (self.old ≡ 48 ∷ end ∷ self.new) ((self.new ≡ self.old) ×
            ((more : List ℕ) → self.old ≡ 48 ∷ end ∷ more → ⊥)) }
    {
        if self.rest.len() < 2 {
            return false;
        }
        if self.rest[0] != b'0' {
            return false;
        }
        if self.rest[1] != end {
            return false;
        }
        self.rest = &self.rest[2..];
        true
    }

    /// Takes a number without leading zeros, up to the greatest one, with the byte behind it.
    pub(crate) fn number(&mut self, end: u8) -> Option<u32>
        requires { end < 48 }
        ensures some { IfSome result (λ n. (n ≤ 2147483647) × (self.old ≡ decimal n ++ end ∷ self.new)) }
        ensures none { IfNone result ((n : ℕ) (ms : List ℕ) → n ≤ 2147483647 → self.old ≡ decimal n ++ end ∷ ms → ⊥) }
    {
        let len = digits_len(self.rest);
        if len == self.rest.len() {
            return None;
        }
        if self.rest[len] != end {
            return None;
        }
        match value_of(&self.rest[..len]) {
            Some(number) => {
                self.rest = &self.rest[len + 1..];
                Some(number)
            }
            None => None,
        }
    }
}

/// How many digits the bytes begin with.
fn digits_len(bytes: &[u8]) -> usize
    ensures digits { (k : ℕ) → k < result → (48 ≤ slice_index bytes.now k) × (slice_index bytes.now k ≤ 57) }
    ensures within { result ≤ length bytes.now }
    ensures end { result < length bytes.now → (48 ≤ slice_index bytes.now result) →
        (slice_index bytes.now result ≤ 57) → ⊥ }
{
    'counting: for (place, byte) in bytes.iter().enumerate() {
        if !byte.is_ascii_digit() {
            return place;
        }
    }
    bytes.len()
}

/// The number that digits write without leading zeros, if it is not past the greatest one.
fn value_of(digits: &[u8]) -> Option<u32>
    requires { AreDigits digits.now }
    ensures some { IfSome result (λ n. (n ≤ 2147483647) × (digits.now ≡ decimal n)) }
    ensures none { IfNone result ((n : ℕ) → n ≤ 2147483647 → digits.now ≡ decimal n → ⊥) }
{
    if digits.len() > 1 && digits[0] == b'0' {
        return None;
    }
    match number_of(digits, 10, GREATEST) {
        Ok(value) => Some(value as u32),
        Err(_) => None,
    }
}
