//! Work to be timed from outside: calls of the cell table, and formulas for the solver.
#![tactic(auto)]

mod cells;
mod dimacs;
mod formula;
mod inverters;
mod solving;
#[cfg(test)]
mod tests;

use coco_base::NoMemory;
use formula::Formula;
use std::alloc::Global;
use std::env::{self, Env};
use std::process::ExitCode;
use std::rt::Files;
use std::{fs, io};

const USAGE: &str =
    "coco_bench cells COUNT | inverters COUNT | pigeonholes HOLES | implications VARS | random VARS SEED | formula FILE";

/// What is to be done.
#[derive(Drop)]
enum Work {
    /// This number of calls of the cell table.
    Cells(u32),
    /// A graph of this number of inverters in a chain.
    Inverters(u32),
    /// A formula to solve.
    Solve(Formula),
}

fn number(word: &str) -> io::Result<u32> {
    match word.parse::<u32>() {
        Ok(number) => Ok(number),
        Err(_) => Err(io::ErrorKind::InvalidInput.into()),
    }
}

// want of memory as an error of the program
fn with_io<T>(answer: Result<T, NoMemory>) -> io::Result<T> {
    match answer {
        Ok(value) => Ok(value),
        Err(NoMemory) => Err(io::ErrorKind::OutOfMemory.into()),
    }
}

// the work that the words name
fn read_work(rt: &(impl Env + Files + AllocGlobal)) -> io::Result<Work> {
    let alloc: Global = rt.alloc();
    let mut words = env::args(rt)?.skip(1);
    let kind = words.next().unwrap_or(String::new(alloc));
    let word = words.next().unwrap_or(String::new(alloc));
    match kind.as_str() {
        "cells" => Ok(Work::Cells(number(word.as_str())?)),
        "inverters" => Ok(Work::Inverters(number(word.as_str())?)),
        "pigeonholes" => Ok(Work::Solve(with_io(formula::pigeonholes(
            alloc,
            number(word.as_str())?,
        ))?)),
        "implications" => Ok(Work::Solve(with_io(formula::implications(
            alloc,
            number(word.as_str())?,
        ))?)),
        "random" => {
            let seed = words.next().unwrap_or(String::new(alloc));
            let vars = number(word.as_str())?;
            Ok(Work::Solve(with_io(formula::random(
                alloc,
                vars,
                u64::from(number(seed.as_str())?),
            ))?))
        }
        "formula" => {
            let text = fs::read_to_string(rt, word.as_str())?;
            Ok(Work::Solve(with_io(dimacs::read(alloc, text.as_str()))?))
        }
        _ => Err(io::ErrorKind::InvalidInput.into()),
    }
}

fn run(rt: &HostRuntime) -> io::Result<()> {
    match read_work(rt)? {
        Work::Cells(count) => {
            let live_inputs = cells::tally(count);
            println!(rt; "{count} cells, {live_inputs} live inputs")
        }
        Work::Inverters(count) => {
            let flat = with_io(inverters::chain(rt.alloc(), count))?;
            match with_io(inverters::last_value(rt.alloc(), &flat))? {
                Some(value) => println!(rt;
                    "{count} inverters, the last output is {}",
                    u8::from(value)
                ),
                None => Err(io::ErrorKind::InvalidInput.into()),
            }
        }
        Work::Solve(formula) => {
            let vars = formula.vars;
            let clauses = formula.store.count();
            let answer = with_io(solving::search(rt.alloc(), &formula))?;
            println!(rt; "{vars} variables, {clauses} clauses: {answer}")
        }
    }
}

fn main(rt: HostRuntime) -> ExitCode {
    match run(&rt) {
        Ok(()) => ExitCode::SUCCESS,
        Err(error) => {
            // a line that cannot be written changes no status
            let _ = eprintln!(rt; "{error}\n{USAGE}");
            ExitCode::FAILURE
        }
    }
}
