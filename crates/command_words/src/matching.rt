ghost use Rattle.std.specs.Prelude.{◌≡◌, IfOk, [], length, false, map, option_map, true};
ghost use Rattle.std.specs.List.{list_any};
ghost use Rattle.std.specs.String.{string_bytes};
ghost use Rattle.clap.specs.Faults.{is_simple_and_free};
ghost use Rattle.clap.specs.Simple.{app_of, new_rule};
ghost use Rattle.clap.specs.Walk.{rule_of};
ghost use Rattle.command_words.specs.Clap.{app_for, app_with, clap_values, is_short, option_rule, values_in};
ghost use Rattle.command_words.specs.Shown.{shown_argument, shown_table};
ghost use Rattle.command_words.specs.Words.{texts};

use crate::table::{Argument, Meaning, Table};
use clap::error::ErrorKind;
use clap::{Arg, ArgAction, ArgMatches, Command};
use coco_base::NoMemory;
use std::alloc::Global;

fn is_short(word: &str) -> bool
    ensures { result ≡ is_short word.now }
{
    match word.as_bytes() {
        [b'-', b'-', _, ..] => false,
        [b'-', ..] => true,
        _ => false,
    }
}

/// Whether a word is `-` or `--`, or begins with one minus sign alone.
pub fn has_short(words: &[String]) -> bool
    ensures { result ≡ list_any (λ word. is_short (string_bytes word)) words.entry.now }
{
    words.iter().any(|word| is_short(word.as_str()))
}

fn option<'a>(alloc: Global, argument: &Argument) -> Arg<'a>
    ensures rule { rule_of result ≡ option_rule (shown_argument argument.now) }
    ensures local { result.global ≡ false }
{
    let arg = Arg::new(alloc, argument.name).long(argument.name);
    match argument.meaning {
        Meaning::Flag => arg
            .action(ArgAction::Set)
            .num_args(0)
            .default_missing_value(""),
        _ => arg,
    }
}

fn new_command<'a>(alloc: Global) -> Command<'a>
    ensures { app_of result ≡ app_with [] }
{
    Command::new(alloc, "words")
        .no_binary_name(true)
        .disable_help_flag(true)
        .disable_version_flag(true)
}

fn with_options<'a>(alloc: Global, options: &[Argument]) -> Result<Command<'a>, NoMemory>
    ensures { IfOk result (λ c. app_of c ≡ app_with (map option_rule (map shown_argument options.now))) }
{
    let mut command = new_command(alloc);
    'options: for argument in options {
        let arg = option(alloc, argument);
        command = command.arg(arg)?;
    }
    Ok(command)
}

/// The command of a table. Nothing is required of clap, and it has no help or version flag.
pub fn command_for<'a>(alloc: Global, table: &Table) -> Result<Command<'a>, NoMemory>
    ensures { IfOk result (λ c. app_of c ≡ app_for (shown_table table.now)) }
{
    let command = with_options(alloc, table.options)?;
    match table.place {
        None => Ok(command),
        Some(argument) => Ok(command.arg(Arg::new(alloc, argument.name))?),
    }
}

/// The matches of the words, where clap finds no fault in them.
pub fn matched<'a>(
    command: Command<'a>,
    words: &'a [String],
) -> Result<Option<ArgMatches<'a>>, NoMemory>
    requires { is_simple_and_free (app_of command) ≡ true }
    ensures { IfOk result (λ o. option_map values_in o ≡ clap_values (app_of command.entry) (texts words.entry.now)) }
{
    match command.try_get_matches_from(words) {
        Ok(matches) => Ok(Some(matches)),
        Err(error) => {
            if error.kind() == ErrorKind::OutOfMemory {
                return Err(NoMemory);
            }
            Ok(None)
        }
    }
}
