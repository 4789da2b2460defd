//! What may stand behind the first word of a line.
ghost use Rattle.std.specs.Prelude.{◌≡◌, is_some};
ghost use Rattle.std.specs.List.{list_all};
ghost use Rattle.coco_base.specs.Texts.{texts};
ghost use Rattle.label_file.specs.Operands.{fits, is_edition, is_operand, is_value};

use crate::label_word::{is_name, label_word};
use crate::numbers::{address_of, number_on};
use coco_base::are_digits;

/// What a word behind the first one is.
#[derive(Clone, Copy, Debug, PartialEq, Eq)]
pub(crate) enum Operand {
    /// The number of a version.
    Edition,
    /// A net or a port.
    Net,
    /// A name of labels.
    Name,
    /// Decimal digits.
    Count,
    /// The address of a memory word.
    Address,
    /// A number, or labels.
    Value,
    /// Values up to the end of the line, one at least.
    Values,
}

fn is_edition(word: &[u8]) -> bool
    ensures { result ≡ is_edition word.now }
{
    matches!(word, b"1" | b"2")
}

fn is_value(word: &[u8]) -> bool
    ensures { result ≡ is_value word.now }
{
    number_on(word).is_some() || label_word(word).is_some()
}

fn is_operand(operand: Operand, word: &[u8]) -> bool
    ensures { result ≡ is_operand operand word.now }
{
    match operand {
        Operand::Edition => is_edition(word),
        Operand::Net => true,
        Operand::Name => is_name(word),
        Operand::Count => are_digits(word, 10),
        Operand::Address => address_of(word).is_some(),
        Operand::Value | Operand::Values => is_value(word),
    }
}

fn are_values(words: &[&str]) -> bool
    ensures { result ≡ list_all is_value (texts words.now) }
{
    let mut rest = words;
    'words: while let [word, more @ ..] = rest {
        if !is_value(word.as_bytes()) {
            return false;
        }
        rest = more;
    }
    true
}

/// Whether words are the operands of a form.
pub(crate) fn fits(operands: &[Operand], words: &[&str]) -> bool
    ensures { result ≡ fits operands.now (texts words.now) }
{
    match (operands, words) {
        ([], []) => true,
        ([Operand::Values, ..], [_, ..]) => are_values(words),
        ([operand, operands @ ..], [word, words @ ..]) => {
            is_operand(*operand, word.as_bytes()) && fits(operands, words)
        }
        _ => false,
    }
}
