//! Judges masked software on a processor netlist: `coco_check --netlist N --labels L ..`.
#![tactic(auto)]

#[cfg(test)]
mod tests;

use coco_base::{FolderShelf, NoMemory, OutSink, Status};
use coco_engine::check_run;
use command_words::Usage;
use command_words::table::check_table;
use pickers::{LastBumped, MostBumped, Picker, Seeded};
use std::alloc::Global;
use std::env::{self, Env};
use std::io::{self, ErrorKind};
use std::process::ExitCode;

/// How many variables a picker takes notice of.
const PICKER_SIZE: u32 = 1 << 20;

/// The seed of the picker that picks by chance.
const SEED: u64 = 1;

// the words after the program's name
fn call_words(rt: &(impl Env + AllocGlobal)) -> io::Result<Vec<String>> {
    let alloc: Global = rt.alloc();
    let mut words = Vec::new(alloc);
    for word in env::args(rt)?.skip(1) {
        words.push(word)?;
    }
    Ok(words)
}

// the status where the words were not gathered: memory was refused, or one of them is no text
fn refusal_status(kind: ErrorKind) -> Status {
    match kind {
        ErrorKind::OutOfMemory => Status::NoMemory,
        _ => Status::Usage,
    }
}

// the status of a run: it picks the most bumped variable, and at restarts by chance and then the last bumped one
fn judge(rt: &HostRuntime, words: &[String]) -> Result<Status, NoMemory> {
    let alloc: Global = rt.alloc();
    // the one that is taken first stands last
    let mut pickers: Vec<Box<dyn Picker>> = Vec::new(alloc);
    pickers.push(Box::new(alloc, LastBumped::new(alloc, PICKER_SIZE)?)?)?;
    pickers.push(Box::new(alloc, Seeded::new(SEED))?)?;
    pickers.push(Box::new(alloc, MostBumped::new(alloc, PICKER_SIZE)?)?)?;
    let ran = check_run(
        alloc,
        words,
        &mut FolderShelf::new(rt),
        &mut OutSink::new(rt),
        pickers,
    );
    Ok(ran.status)
}

fn run(rt: &HostRuntime) -> Status {
    match call_words(rt) {
        Ok(words) => judge(rt, words.as_slice()).unwrap_or(Status::NoMemory),
        Err(error) => refusal_status(error.kind()),
    }
}

// what stands on standard error beside a status; a line that cannot be written changes no status
fn tell(rt: &HostRuntime, status: Status) {
    match status {
        Status::Usage => {
            let _ = eprintln!(rt; "{}", Usage(&check_table()));
        }
        Status::NoMemory => {
            let _ = eprintln!(rt; "{NoMemory}");
        }
        _ => {}
    }
}

fn main(rt: HostRuntime) -> ExitCode {
    let status = run(&rt);
    tell(&rt, status);
    ExitCode::from(status as u8)
}
