ghost use Rattle.std.specs.Prelude.{Some};
ghost use Rattle.command_words.specs.Shown.{shown_argument, shown_table};
ghost use Rattle.command_words.specs.Usage.{argument_usage, usage_line};

use crate::table::{Argument, Meaning, Table};
use std::fmt::{self, Display, Formatter, Write};

// an option as the usage line has it, with a space before it
#[derive(Clone, Copy, Debug)]
struct OptionUsage<'a>(&'a Argument);

impl Display for OptionUsage<'_> {
    ghost output = { λ u. Some (argument_usage (shown_argument u.0.now)) };

    fn fmt<W: Write>(&self, f: &mut Formatter<W>) -> fmt::Result {
        let name = self.0.name;
        let letter = self.0.letter;
        match self.0.meaning {
            Meaning::Name | Meaning::Number { .. } => write!(f, " --{name} {letter}"),
            Meaning::OptionalName | Meaning::OptionalNumber { .. } => write!(
                f,
                " [--{name} {letter}]"
            ),
            Meaning::Flag => write!(f, " [--{name}]"),
        }
    }
}

/// The usage line of a program. It takes no memory.
#[derive(Clone, Copy, Debug)]
pub struct Usage<'a>(pub &'a Table);

impl Display for Usage<'_> {
    ghost output = { λ u. Some (usage_line (shown_table u.0.now)) };

    fn fmt<W: Write>(&self, f: &mut Formatter<W>) -> fmt::Result {
        write!(f, "{}", self.0.program)?;
        'options: for option in self.0.options {
            write!(f, "{}", OptionUsage(option))?;
        }
        match self.0.place {
            None => Ok(()),
            Some(place) => write!(f, " {}", place.letter),
        }
    }
}
