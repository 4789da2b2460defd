ghost use Rattle.std.specs.Prelude.{◌≡◌};
ghost use Rattle.command_words.specs.Shown.{shown_table};
ghost use Rattle.command_words.specs.Tables.{check_table, made_table, recheck_table};

/// What the value of an argument means, and what holds where the argument is not given.
#[derive(Clone, Copy, Debug, PartialEq, Eq)]
pub enum Meaning {
    /// A name, which has to be given.
    Name,
    /// A name, which may be left out.
    OptionalName,
    /// A number from `low` to `high`, which has to be given.
    Number { low: u32, high: u32 },
    /// A number from `low` to `high`, and `default` where it is left out.
    OptionalNumber { low: u32, high: u32, default: u32 },
    /// No value: whether the option is given.
    Flag,
}

/// An argument of a program: its name, without the two minus signs before it, what stands for its value in the usage
/// line, and what the value means.
#[derive(Clone, Copy, Debug)]
pub struct Argument {
    pub name: &'static str,
    pub letter: &'static str,
    pub meaning: Meaning,
}

/// A program's name, its options, and what a word that belongs to none of them stands for.
#[derive(Clone, Copy, Debug)]
pub struct Table {
    pub program: &'static str,
    pub options: &'static [Argument],
    pub place: Option<Argument>,
}

// an argument with its letter: a name, a number between limits, either with what stands for it where it is left out, or
// a flag
macro_rules! argument {
    ($name:literal $letter:literal name) => {
        Argument {
            name: $name,
            letter: $letter,
            meaning: Meaning::Name,
        }
    };
    ($name:literal $letter:literal name or none) => {
        Argument {
            name: $name,
            letter: $letter,
            meaning: Meaning::OptionalName,
        }
    };
    ($name:literal $letter:literal $low:literal to $high:literal) => {
        Argument {
            name: $name,
            letter: $letter,
            meaning: Meaning::Number {
                low: $low,
                high: $high,
            },
        }
    };
    ($name:literal $letter:literal $low:literal to $high:literal or $default:literal) => {
        Argument {
            name: $name,
            letter: $letter,
            meaning: Meaning::OptionalNumber {
                low: $low,
                high: $high,
                default: $default,
            },
        }
    };
    ($name:literal flag) => {
        Argument {
            name: $name,
            letter: "",
            meaning: Meaning::Flag,
        }
    };
}

pub(crate) const NETLIST: Argument = argument!("netlist" "N" name);

pub(crate) const LABELS: Argument = argument!("labels" "L" name);

pub(crate) const PROGRAM: Argument = argument!("program" "P" name or none);

pub(crate) const TOP: Argument = argument!("top" "M" name or none);

pub(crate) const ORDER: Argument = argument!("order" "D" 1 to 64 or 1);

pub(crate) const WINDOW: Argument = argument!("window" "W" 1 to 64 or 1);

pub(crate) const CYCLES: Argument = argument!("cycles" "C" 1 to 65536 or 1);

pub(crate) const STEPS: Argument = argument!("steps" "B" 1 to 1000000000 or 1000000);

pub(crate) const RESTART: Argument = argument!("restart" "R" 1 to 1000000000 or 1000000000);

pub(crate) const PROOF: Argument = argument!("proof" flag);

pub(crate) const PROOF_FILE: Argument = argument!("proof" "F" name);

pub(crate) const STAGES: Argument = argument!("stages" "N" 1 to 64);

const CHECK: Table = Table {
    program: "coco_check",
    options: &[
        NETLIST, LABELS, PROGRAM, TOP, ORDER, WINDOW, CYCLES, STEPS, RESTART, PROOF,
    ],
    place: None,
};

const RECHECK: Table = Table {
    program: "coco_recheck",
    options: &[
        NETLIST, LABELS, PROGRAM, TOP, ORDER, WINDOW, CYCLES, PROOF_FILE,
    ],
    place: None,
};

const MADE: Table = Table {
    program: "coco_made",
    options: &[],
    place: Some(STAGES),
};

/// The arguments of `coco_check`.
pub fn check_table() -> Table
    ensures { shown_table result ≡ check_table }
{
    CHECK
}

/// The arguments of `coco_recheck`.
pub fn recheck_table() -> Table
    ensures { shown_table result ≡ recheck_table }
{
    RECHECK
}

/// The one argument of `coco_made`.
pub fn made_table() -> Table
    ensures { shown_table result ≡ made_table }
{
    MADE
}
