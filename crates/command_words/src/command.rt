ghost use Rattle.std.specs.Prelude.{◌≡◌, IfOk, Some, option_map, true};
ghost use Rattle.command_words.specs.Clap.{values_in};
ghost use Rattle.command_words.specs.Commands.{check_command, check_of, files_of, made_command, recheck_command, recheck_of, sizes_of, stages_of};
ghost use Rattle.command_words.specs.Shown.{shown_check, shown_files, shown_recheck, shown_sizes, shown_table};
ghost use Rattle.command_words.specs.Words.{IsNamed, texts, values_by};

use crate::matching::{command_for, has_short, matched};
use crate::reading::{flag, name, number, optional_name};
use crate::table::{
    CYCLES, LABELS, NETLIST, ORDER, PROGRAM, PROOF, PROOF_FILE, RESTART, STAGES, STEPS, TOP, Table,
    WINDOW, check_table, made_table, recheck_table,
};
use clap::ArgMatches;
use coco_base::NoMemory;
use std::alloc::Global;

/// The names of the files of a call, and of the top module.
#[derive(Clone, Copy, Debug, PartialEq, Eq)]
pub struct Files<'a> {
    pub netlist: &'a str,
    pub labels: &'a str,
    pub program: Option<&'a str>,
    pub top: Option<&'a str>,
}

/// How many probes there are, how many cycles each lasts, and how many cycles are run.
#[derive(Clone, Copy, Debug, PartialEq, Eq)]
pub struct Sizes {
    pub order: u32,
    pub window: u32,
    pub cycles: u32,
}

/// A call of `coco_check`: `steps` is the most conflicts of the search, `restart` the conflicts of its shortest run, and
/// `proof` whether the proof is written too.
#[derive(Clone, Copy, Debug, PartialEq, Eq)]
pub struct CheckRequest<'a> {
    pub files: Files<'a>,
    pub sizes: Sizes,
    pub steps: u64,
    pub restart: u64,
    pub proof: bool,
}

/// A call of `coco_recheck`: `proof` is the name of the proof's file.
#[derive(Clone, Copy, Debug, PartialEq, Eq)]
pub struct RecheckRequest<'a> {
    pub files: Files<'a>,
    pub sizes: Sizes,
    pub proof: &'a str,
}

/// A call of `coco_made`: the stages of the chain.
#[derive(Clone, Copy, Debug, PartialEq, Eq)]
pub struct MadeRequest {
    pub stages: u32,
}

fn read_files<'a>(matches: &ArgMatches<'a>) -> Option<Files<'a>>
    ensures { option_map shown_files result ≡ files_of (values_in matches.now) }
{
    let netlist = name(matches, &NETLIST)?;
    let labels = name(matches, &LABELS)?;
    let program = optional_name(matches, &PROGRAM)?;
    let top = optional_name(matches, &TOP)?;
    Some(Files {
        netlist,
        labels,
        program,
        top,
    })
}

fn read_sizes(matches: &ArgMatches<'_>) -> Option<Sizes>
    ensures { option_map shown_sizes result ≡ sizes_of (values_in matches.now) }
{
    let order = number(matches, &ORDER)?;
    let window = number(matches, &WINDOW)?;
    let cycles = number(matches, &CYCLES)?;
    Some(Sizes {
        order,
        window,
        cycles,
    })
}

fn check_request<'a>(matches: &ArgMatches<'a>) -> Option<CheckRequest<'a>>
    ensures { option_map shown_check result ≡ check_of (values_in matches.now) }
{
    let files = read_files(matches)?;
    let sizes = read_sizes(matches)?;
    let steps = number(matches, &STEPS)?;
    let restart = number(matches, &RESTART)?;
    Some(CheckRequest {
        files,
        sizes,
        steps: u64::from(steps),
        restart: u64::from(restart),
        proof: flag(matches, &PROOF),
    })
}

fn recheck_request<'a>(matches: &ArgMatches<'a>) -> Option<RecheckRequest<'a>>
    ensures { option_map shown_recheck result ≡ recheck_of (values_in matches.now) }
{
    let files = read_files(matches)?;
    let sizes = read_sizes(matches)?;
    let proof = name(matches, &PROOF_FILE)?;
    Some(RecheckRequest {
        files,
        sizes,
        proof,
    })
}

fn made_request(matches: &ArgMatches<'_>) -> Option<MadeRequest>
    ensures { option_map (λ r. r.stages) result ≡ stages_of (values_in matches.now) }
{
    let stages = number(matches, &STAGES)?;
    Some(MadeRequest { stages })
}

// the values that words give to the arguments of a table
fn matches_by<'a>(
    alloc: Global,
    table: &Table,
    words: &'a [String],
) -> Result<Option<ArgMatches<'a>>, NoMemory>
    requires { IsNamed (shown_table table.now) }
    ensures { IfOk result (λ o. option_map values_in o ≡ values_by (shown_table table.now) (texts words.entry.now)) }
{
    if has_short(words) {
        return Ok(None);
    }
    let command = command_for(alloc, table)?;
    matched(command, words)
}

/// The meaning of the words of `coco_check` after the program's name, where they are words of its grammar.
pub fn read_check<'a>(
    alloc: Global,
    words: &'a [String],
) -> Result<Option<CheckRequest<'a>>, NoMemory>
    ensures { IfOk result (λ r. option_map shown_check r ≡ check_command (texts words.entry.now)) }
{
    match matches_by(alloc, &check_table(), words)? {
        Some(matches) => Ok(check_request(&matches)),
        None => Ok(None),
    }
}

/// The meaning of the words of `coco_recheck` after the program's name, where they are words of its grammar.
pub fn read_recheck<'a>(
    alloc: Global,
    words: &'a [String],
) -> Result<Option<RecheckRequest<'a>>, NoMemory>
    ensures { IfOk result (λ r. option_map shown_recheck r ≡ recheck_command (texts words.entry.now)) }
{
    match matches_by(alloc, &recheck_table(), words)? {
        Some(matches) => Ok(recheck_request(&matches)),
        None => Ok(None),
    }
}

/// The meaning of the words of `coco_made` after the program's name, where they are words of its grammar.
pub fn read_made(alloc: Global, words: &[String]) -> Result<Option<MadeRequest>, NoMemory>
    ensures { IfOk result (λ r. option_map (λ r. r.stages) r ≡ made_command (texts words.entry.now)) }
{
    match matches_by(alloc, &made_table(), words)? {
        Some(matches) => Ok(made_request(&matches)),
        None => Ok(None),
    }
}
