ghost use Rattle.std.specs.Prelude.{◌≡◌, is_some, length, option_map};
ghost use Rattle.command_words.specs.Clap.{values_in};
ghost use Rattle.command_words.specs.Shown.{shown_argument, shown_name};
ghost use Rattle.command_words.specs.Values.{as_number, is_given, is_name, name_of, number_at, optional_name_of};

use crate::table::{Argument, Meaning};
use clap::ArgMatches;
use coco_base::number_of;

const MOST_DIGITS: usize = 10;

fn is_name(word: &str) -> bool
    ensures { result ≡ is_name word.now }
{
    match word.as_bytes() {
        [] => false,
        [first, ..] => *first != b'-',
    }
}

fn as_number(low: u32, high: u32, word: &str) -> Option<u32>
    ensures { result ≡ as_number low high word.now }
{
    if word.len() > MOST_DIGITS {
        return None;
    }
    match number_of(word.as_bytes(), 10, u64::from(high)) {
        Ok(number) => {
            if u64::from(low) <= number {
                Some(number as u32)
            } else {
                None
            }
        }
        Err(_) => None,
    }
}

fn value<'a>(matches: &ArgMatches<'a>, argument: &Argument) -> Option<&'a str>
    ensures { option_map (λ s. s.now) result ≡ values_in matches.now argument.now.name.now }
{
    matches.get_str(argument.name)
}

/// The name that has to be given.
pub fn name<'a>(matches: &ArgMatches<'a>, argument: &Argument) -> Option<&'a str>
    ensures { option_map (λ s. s.now) result ≡ name_of (shown_argument argument.now) (values_in matches.now) }
{
    let word = value(matches, argument)?;
    if is_name(word) { Some(word) } else { None }
}

/// The name, where one is given.
pub fn optional_name<'a>(matches: &ArgMatches<'a>, argument: &Argument) -> Option<Option<&'a str>>
    ensures { option_map shown_name result ≡ optional_name_of (shown_argument argument.now) (values_in matches.now) }
{
    let Some(word) = value(matches, argument) else {
        return Some(None);
    };
    if is_name(word) {
        Some(Some(word))
    } else {
        None
    }
}

/// The number within its limits, or its default where it has one and is not given.
pub fn number(matches: &ArgMatches<'_>, argument: &Argument) -> Option<u32>
    ensures { result ≡ number_at (shown_argument argument.now) (values_in matches.now) }
{
    let word = value(matches, argument);
    match argument.meaning {
        Meaning::Number { low, high } => as_number(low, high, word?),
        Meaning::OptionalNumber { low, high, default } => match word {
            None => Some(default),
            Some(word) => as_number(low, high, word),
        },
        _ => None,
    }
}

/// Whether the flag is given.
pub fn flag(matches: &ArgMatches<'_>, argument: &Argument) -> bool
    ensures { result ≡ is_given (shown_argument argument.now) (values_in matches.now) }
{
    value(matches, argument).is_some()
}
