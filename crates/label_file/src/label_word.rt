//! Words that name labels: `NAME`, `NAME.I`, `NAME[K]` and `NAME.I[K]`.
ghost use Rattle.std.specs.Prelude.{◌≡◌, ◌<◌, ◌==◌, length, position, IfSome};
ghost use Rattle.std.specs.Char.{is_ascii_alphabetic};
ghost use Rattle.std.specs.List.{list_all};
ghost use Rattle.std.specs.Option.{option_map};
ghost use Rattle.label_file.specs.LabelWords.{are_index, cut, cut_bit, cut_share, is_name, is_name_byte, label_word, seen, seen_cut, seen_pair};

use coco_base::are_digits;

/// A name of labels, with the digits of a share and of a bit where they stand.
#[derive(Clone, Copy)]
pub(crate) struct LabelWord<'a> {
    pub(crate) name: &'a [u8],
    pub(crate) share: Option<&'a [u8]>,
    pub(crate) bit: Option<&'a [u8]>,
}

fn is_name_byte(byte: u8) -> bool
    ensures { result ≡ is_name_byte byte }
{
    byte.is_ascii_alphanumeric() || byte == b'_'
}

fn has_name_bytes_alone(word: &[u8]) -> bool
    ensures { result ≡ list_all is_name_byte word.now }
{
    word.iter().all(|byte| is_name_byte(*byte))
}

/// Whether a word is a name of labels: a letter, and then letters, digits and `_`.
pub(crate) fn is_name(word: &[u8]) -> bool
    ensures { result ≡ is_name word.now }
{
    match word {
        [first, rest @ ..] => first.is_ascii_alphabetic() && has_name_bytes_alone(rest),
        [] => false,
    }
}

fn place_of(word: &[u8], byte: u8) -> Option<usize>
    ensures place { result ≡ position (λ b. b == byte) word.now }
    ensures within { IfSome result (λ n. n < length word.now) }
{
    word.iter().position(|b| *b == byte)
}

/// What stands before the first byte of a kind, and behind it.
fn cut(word: &[u8], byte: u8) -> Option<(&[u8], &[u8])>
    ensures { option_map seen_pair result ≡ cut byte word.entry.now }
{
    match place_of(word, byte) {
        Some(place) => Some((&word[..place], &word[place + 1..])),
        None => None,
    }
}

/// A word without a bit in brackets behind it, and the digits of the bit.
#[tactic(auto, unfolding(crate::specs::LabelWords::cut_bit))]
fn cut_bit(word: &[u8]) -> Option<(&[u8], Option<&[u8]>)>
    ensures { option_map seen_cut result ≡ cut_bit word.entry.now }
{
    let Some((front, rest)) = cut(word, b'[') else {
        return Some((word, None));
    };
    let (digits, after) = cut(rest, b']')?;
    if after.is_empty() {
        Some((front, Some(digits)))
    } else {
        None
    }
}

/// A word without a share behind a point, and the digits of the share.
#[tactic(auto, unfolding(crate::specs::LabelWords::cut_share))]
fn cut_share(word: &[u8]) -> (&[u8], Option<&[u8]>)
    ensures { seen_cut result ≡ cut_share word.entry.now }
{
    match cut(word, b'.') {
        Some((name, digits)) => (name, Some(digits)),
        None => (word, None),
    }
}

fn are_index(digits: Option<&[u8]>) -> bool
    ensures { result ≡ are_index (option_map (λ d. d.now) digits.entry) }
{
    match digits {
        Some(digits) => are_digits(digits, 10),
        None => true,
    }
}

/// The name, the share and the bit of a word.
#[tactic(auto, unfolding(crate::specs::LabelWords::label_word))]
pub(crate) fn label_word(word: &[u8]) -> Option<LabelWord<'_>>
    ensures { option_map seen result ≡ label_word word.entry.now }
{
    let (front, bit) = cut_bit(word)?;
    let (name, share) = cut_share(front);
    if is_name(name) && are_index(share) && are_index(bit) {
        Some(LabelWord { name, share, bit })
    } else {
        None
    }
}
