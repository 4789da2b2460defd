//! Words that name a place of a net: a name with digits in brackets behind it.
ghost use Rattle.std.specs.Prelude.{◌≡◌, ◌+◌, ◌<◌, true, drop, length, IfSome};
ghost use Rattle.coco_base.specs.Numbers.{are_digits};
ghost use Rattle.std.specs.Option.{option_map};
ghost use Rattle.bind_run.specs.NetWords.{bracket, closes, opens, place_word, seen_place};

use crate::items::first;
use coco_base::are_digits;

/// Whether bytes are digits and the bracket that closes.
fn closes(rest: &[u8]) -> bool
    ensures { result ≡ closes rest.now }
{
    let len = rest.len();
    len > 0 && rest[len - 1] == b']' && are_digits(&rest[..len - 1], 10)
}

/// Whether a byte is a bracket that opens digits at the end.
fn opens(byte: u8, rest: &[u8]) -> bool
    ensures { result ≡ opens byte rest.now }
{
    byte == b'[' && closes(rest)
}

/// The place of the bracket that opens the digits at the end of a word.
fn bracket(word: &[u8]) -> Option<usize>
    ensures place { result ≡ bracket word.now }
    ensures closed { IfSome result (λ k. closes (drop (k + 1) word.now) ≡ true) }
    ensures within { IfSome result (λ k. k + 1 < length word.now) }
{
    let mut rest = word;
    let mut place = 0usize;
    'bytes: while let Some((byte, more)) = first(rest) {
        if opens(*byte, more) {
            return Some(place);
        }
        place += 1;
        rest = more;
    }
    None
}

/// The name and the digits of a word that ends in digits in brackets.
pub(crate) fn place_word(word: &[u8]) -> Option<(&[u8], &[u8])>
    ensures word { option_map seen_place result ≡ place_word word.entry.now }
    ensures digits { IfSome result (λ p. are_digits 10 p.1.now ≡ true) }
{
    let place = bracket(word)?;
    Some((&word[..place], &word[place + 1..word.len() - 1]))
}
