//! Values: numbers, and labels of names that lines before declare.
ghost use Rattle.std.specs.Prelude.{◌≡◌, ◌≤◌, ◌+◌, ◌*◌};
ghost use Rattle.std.specs.List.{list_any};
ghost use Rattle.coco_base.specs.Texts.{texts};
ghost use Rattle.label_file.specs.Causes.{Answers};
ghost use Rattle.label_file.specs.LabelWords.{seen, seen_option};
ghost use Rattle.label_file.specs.Values.{HasRoom, HaveRoom, bits_of, is_unknown, labels_of, mask_of, share_of, value_of, values_in, values_of};

use crate::cause::Cause;
use crate::label_word::{LabelWord, label_word};
use crate::line::LabelValue;
use crate::names::{Meaning, Names};
use crate::numbers::{index_of, number_on};
use coco_base::List;
use std::alloc::Global;

/// All bits from a label on, or one of them.
#[tactic(auto, unfolding(crate::specs::Values::bits_of))]
fn bits_of(first: u32, width: u32, bit: Option<&[u8]>) -> Result<LabelValue, Cause>
    requires { first + width ≤ 4096 }
    ensures { result ≡ bits_of first width (seen_option bit.entry) }
{
    match bit {
        None => Ok(LabelValue::Bits { first, width }),
        Some(digits) => {
            let bit = index_of(digits, width)?;
            Ok(LabelValue::Bits {
                first: first + bit,
                width: 1,
            })
        }
    }
}

/// A share of a secret.
#[tactic(auto, unfolding(crate::specs::Values::share_of))]
fn share_of(first: u32, width: u32, shares: u32, word: LabelWord<'_>) -> Result<LabelValue, Cause>
    requires { first + shares * width ≤ 4096 }
    ensures { result ≡ share_of first width shares (seen word.entry) }
{
    let Some(digits) = word.share else {
        return Err(Cause::UnknownSecret);
    };
    let share = index_of(digits, shares)?;
    bits_of(first + share * width, width, word.bit)
}

/// A mask.
#[tactic(auto, unfolding(crate::specs::Values::mask_of))]
fn mask_of(first: u32, width: u32, word: LabelWord<'_>) -> Result<LabelValue, Cause>
    requires { first + width ≤ 4096 }
    ensures { result ≡ mask_of first width (seen word.entry) }
{
    if word.share.is_some() {
        return Err(Cause::UnknownSecret);
    }
    bits_of(first, width, word.bit)
}

fn labels_of(meaning: Option<Meaning>, word: LabelWord<'_>) -> Result<LabelValue, Cause>
    requires { HasRoom 4096 meaning }
    ensures { result ≡ labels_of meaning (seen word.entry) }
{
    match meaning {
        Some(
            Meaning::Secret {
                first,
                width,
                shares,
            },
        ) => share_of(first, width, shares, word),
        Some(Meaning::Mask { first, width }) => mask_of(first, width, word),
        Some(Meaning::Fresh) | None => Err(Cause::UnknownSecret),
    }
}

/// The value of a word.
#[tactic(auto, unfolding(crate::specs::Values::value_of))]
pub(crate) fn value_of(names: &Names, word: &[u8]) -> Result<LabelValue, Cause>
    requires { HaveRoom names.now }
    ensures { result ≡ value_of names.now word.now }
{
    if let Some(number) = number_on(word) {
        return Ok(LabelValue::Number(number));
    }
    let Some(word) = label_word(word) else {
        return Err(Cause::BadLine);
    };
    labels_of(names.get(word.name), word)
}

fn is_unknown(names: &Names, word: &[u8]) -> bool
    requires { HaveRoom names.now }
    ensures { result ≡ is_unknown names.now word.now }
{
    matches!(value_of(names, word), Err(Cause::UnknownSecret))
}

fn has_unknown(names: &Names, words: &[&str]) -> bool
    requires { HaveRoom names.now }
    ensures { result ≡ list_any (is_unknown names.now) (texts words.now) }
{
    let mut rest = words;
    'words: while let [word, more @ ..] = rest {
        if is_unknown(names, word.as_bytes()) {
            return true;
        }
        rest = more;
    }
    false
}

#[tactic(auto, using(crate::proofs::CauseLemmas::fails_itself, crate::proofs::ValueLemmas::behind_one))]
fn values_in(alloc: Global, names: &Names, words: &[&str]) -> Result<List<LabelValue>, Cause>
    requires { HaveRoom names.now }
    ensures { Answers (λ vs. vs) result (values_in names.now (texts words.now)) }
{
    let mut values = List::new(alloc);
    let mut rest = words;
    'words: while let [word, more @ ..] = rest {
        let value = value_of(names, word.as_bytes())?;
        values.push(value)?;
        rest = more;
    }
    Ok(values)
}

/// The values of words. A name that is unknown comes before what is out of range in a word before it.
#[tactic(auto, unfolding(crate::specs::Values::values_of))]
pub(crate) fn values_of(
    alloc: Global,
    names: &Names,
    words: &[&str],
) -> Result<List<LabelValue>, Cause>
    requires { HaveRoom names.now }
    ensures { Answers (λ vs. vs) result (values_of names.now (texts words.now)) }
{
    if has_unknown(names, words) {
        return Err(Cause::UnknownSecret);
    }
    values_in(alloc, names, words)
}
