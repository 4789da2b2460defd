//! The smallest parts of a line. Each reader answers what it read and the bytes after it.
ghost use Rattle.std.specs.Prelude.{◌≡◌, ◌≤◌, [], ◌∷◌, length, MatchOption};
ghost use Rattle.std.specs.List.{prefix_len};
ghost use Rattle.coco_base.specs.Texts.{is_blank};
ghost use Rattle.rv_asm.specs.Readings.{Gives};
ghost use Rattle.rv_asm.specs.Tokens.{after_blanks, begins_with_digit, ends, is_name, is_name_byte, mark_at, name_at, run_at, word_at};

use crate::line::reading::Unread;

// The first byte, and the bytes after it.
pub(crate) fn first_byte(bytes: &[u8]) -> Option<(u8, &[u8])>
    ensures { MatchOption result (bytes.now ≡ []) (λ p. bytes.now ≡ p.0 ∷ p.1.now) }
{
    match bytes {
        [byte, rest @ ..] => Some((*byte, rest)),
        [] => None,
    }
}

// A space or a tab.
pub(crate) fn is_blank_byte(byte: u8) -> bool
    ensures { result ≡ is_blank byte }
{
    byte == b' ' || byte == b'\t'
}

fn blanks(bytes: &[u8]) -> usize
    ensures value { result ≡ prefix_len is_blank bytes.now }
    ensures bound { result ≤ length bytes.now }
{
    let mut count = 0usize;
    let mut rest = bytes;
    'blanks: while let [byte, after @ ..] = rest {
        if !is_blank_byte(*byte) {
            break;
        }
        count += 1;
        rest = after;
    }
    count
}

// What stands after the spaces and tabs at the front.
pub(crate) fn skip_blanks(bytes: &[u8]) -> &[u8]
    ensures { result.now ≡ after_blanks bytes.now }
{
    &bytes[blanks(bytes)..]
}

// A mark of one byte, as a comma, with blanks before it.
#[tactic(auto, unfolding(crate::specs::Tokens::mark_at))]
pub(crate) fn mark(mark: u8, bytes: &[u8]) -> Result<&[u8], Unread>
    ensures { Gives (λ x. x.now) result (mark_at mark bytes.now) }
{
    match first_byte(skip_blanks(bytes)) {
        Some((byte, rest)) if byte == mark => Ok(rest),
        _ => Err(Unread::Other),
    }
}

fn is_name_byte(byte: u8) -> bool
    ensures { result ≡ is_name_byte byte }
{
    matches!(byte, b'a'..=b'z' | b'A'..=b'Z' | b'0'..=b'9' | b'_' | b'.' | b'$')
}

fn name_bytes(bytes: &[u8]) -> usize
    ensures value { result ≡ prefix_len is_name_byte bytes.now }
    ensures bound { result ≤ length bytes.now }
{
    let mut count = 0usize;
    let mut rest = bytes;
    'bytes: while let [byte, after @ ..] = rest {
        if !is_name_byte(*byte) {
            break;
        }
        count += 1;
        rest = after;
    }
    count
}

// The bytes of names at the front, one at least.
#[tactic(auto, unfolding(crate::specs::Tokens::run_at))]
pub(crate) fn run(bytes: &[u8]) -> Result<(&[u8], &[u8]), Unread>
    ensures { Gives (λ x. (x.0.now, x.1.now)) result (run_at bytes.now) }
{
    let end = name_bytes(bytes);
    if end == 0 {
        return Err(Unread::Other);
    }
    Ok(bytes.split_at(end))
}

// A word, with blanks before it.
#[tactic(auto, unfolding(crate::specs::Tokens::word_at))]
pub(crate) fn word(bytes: &[u8]) -> Result<(&[u8], &[u8]), Unread>
    ensures { Gives (λ x. (x.0.now, x.1.now)) result (word_at bytes.now) }
{
    run(skip_blanks(bytes))
}

pub(crate) fn begins_with_digit(word: &[u8]) -> bool
    ensures { result ≡ begins_with_digit word.now }
{
    matches!(word, [b'0'..=b'9', ..])
}

fn is_name(word: &[u8]) -> bool
    ensures { result ≡ is_name word.now }
{
    match word {
        b"." => false,
        _ => !begins_with_digit(word),
    }
}

// A word that is a name.
#[tactic(auto, unfolding(crate::specs::Tokens::name_at))]
pub(crate) fn name(bytes: &[u8]) -> Result<(&[u8], &[u8]), Unread>
    ensures { Gives (λ x. (x.0.now, x.1.now)) result (name_at bytes.now) }
{
    let (name, rest) = word(bytes)?;
    if !is_name(name) {
        return Err(Unread::Other);
    }
    Ok((name, rest))
}

// That nothing but blanks is left.
#[tactic(auto, unfolding(crate::specs::Tokens::ends))]
pub(crate) fn end(bytes: &[u8]) -> Result<(), Unread>
    ensures { Gives (λ x. x) result (ends bytes.now) }
{
    if skip_blanks(bytes).is_empty() {
        Ok(())
    } else {
        Err(Unread::Other)
    }
}
