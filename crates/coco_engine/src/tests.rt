ghost use Rattle.std.specs.Prelude.{◌≤◌};

use crate::check_run;
use circuit_rows::json;
use coco_base::{List, MemFile, MemShelf, MemSink, NoMemory, Status, Text};
use pickers::{MostBumped, Picker};
use std::alloc::Global;
use std::process::Abort;
use std::test::Fail;

/// The bytes of the files of a call: `n.json`, `l.txt`, and one program both as `p.s` and as `p.hex`.
#[derive(Clone, Copy)]
pub(crate) struct Held<'a> {
    pub netlist: &'a [u8],
    pub labels: &'a [u8],
    pub program: &'a [u8],
}

/// How a shelf answers: in pieces, with calls that fail; and the room of the sink.
#[derive(Clone, Copy)]
pub(crate) struct Outside<'a> {
    pub piece: usize,
    pub fails: &'a [u32],
    pub room: usize,
}

/// A shelf without faults and a sink with room.
pub(crate) const CALM: Outside<'static> = Outside {
    piece: 4096,
    fails: &[],
    room: 65536,
};

/// The rows of a netlist, a label file and a program.
#[derive(Clone, Copy)]
pub(crate) struct Case<'a> {
    pub rows: &'a str,
    pub labels: &'a str,
    pub program: &'a str,
}

fn file(alloc: Global, name: &str, bytes: &[u8]) -> Result<MemFile, NoMemory> {
    Ok(MemFile {
        name: Text::of(alloc, name)?,
        bytes: List::from_vec(bytes.to_vec(alloc)?),
    })
}

fn shelf_of(alloc: Global, held: Held<'_>, outside: Outside<'_>) -> Result<MemShelf, NoMemory>
    requires { 1 ≤ outside.piece }
{
    let mut files = List::new(alloc);
    files.push(file(alloc, "n.json", held.netlist)?)?;
    files.push(file(alloc, "l.txt", held.labels)?)?;
    files.push(file(alloc, "p.s", held.program)?)?;
    files.push(file(alloc, "p.hex", held.program)?)?;
    let fails = List::from_vec(outside.fails.to_vec(alloc)?);
    MemShelf::new(alloc, files, outside.piece, fails)
}

pub(crate) fn strings(alloc: Global, texts: &[&str]) -> Result<Vec<String>, NoMemory> {
    let mut words = Vec::new(alloc);
    for text in texts {
        words.push(String::from_str(alloc, text)?)?;
    }
    Ok(words)
}

/// What a call of these words ends with, and what it writes.
pub(crate) fn call(
    alloc: Global,
    held: Held<'_>,
    outside: Outside<'_>,
    words: &[String],
) -> Result<(Status, MemSink), NoMemory>
    requires { 1 ≤ outside.piece }
{
    let mut shelf = shelf_of(alloc, held, outside)?;
    let mut sink = MemSink::new(alloc, outside.room)?;
    let mut pickers: Vec<Box<dyn Picker>> = Vec::new(alloc);
    pickers.push(Box::new(alloc, MostBumped::new(alloc, 4096)?)?)?;
    let ran = check_run(alloc, words, &mut shelf, &mut sink, pickers);
    Ok((ran.status, sink))
}

/// What a call over these files with further words ends with, and what it writes.
pub(crate) fn call_with(
    alloc: Global,
    held: Held<'_>,
    outside: Outside<'_>,
    more: &[&str],
) -> Result<(Status, MemSink), NoMemory>
    requires { 1 ≤ outside.piece }
{
    let mut words = strings(alloc, &["--netlist", "n.json", "--labels", "l.txt"])?;
    for text in more {
        words.push(String::from_str(alloc, text)?)?;
    }
    call(alloc, held, outside, words.as_slice())
}

/// What a call over a case ends with, and what it writes.
pub(crate) fn run(
    rt: &(impl Abort + AllocGlobal),
    case: Case<'_>,
    more: &[&str],
) -> Result<(Status, MemSink), Fail> {
    let netlist = json(rt.alloc(), case.rows)?;
    let held = Held {
        netlist: netlist.as_slice(),
        labels: case.labels.as_bytes(),
        program: case.program.as_bytes(),
    };
    let ended = call_with(rt.alloc(), held, CALM, more)?;
    Ok(ended)
}

/// Shows that a call over a case ends with this status and writes this text.
pub(crate) fn assert_text(
    rt: &(impl Abort + AllocGlobal),
    case: Case<'_>,
    more: &[&str],
    status: Status,
    text: &str,
) -> Result<(), Fail> {
    let (ended, sink) = run(rt, case, more)?;
    assert_eq!(rt; sink.bytes(), text.as_bytes());
    assert_eq!(rt; ended, status);
    Ok(())
}

/// Shows that a call over a case is rejected with a report of this head and this last line.
pub(crate) fn assert_rejected(
    rt: &(impl Abort + AllocGlobal),
    case: Case<'_>,
    more: &[&str],
    head: &str,
    last: &str,
) -> Result<(), Fail> {
    let (ended, sink) = run(rt, case, more)?;
    assert_eq!(rt; ended, Status::Rejected);
    assert!(rt; sink.bytes().starts_with(head.as_bytes()));
    assert!(rt; sink.bytes().ends_with(last.as_bytes()));
    Ok(())
}

#[test]
fn words_outside_the_grammar_are_no_call(rt: HostRuntime) -> Result<(), Fail> {
    let calls: [&[&str]; 8] = [
        &["--order", "0"],
        &["--window", "0"],
        &["--window", "65"],
        &["--cycles", "65537"],
        &["--restart", "0"],
        &["--order", "1", "--order", "1"],
        &["more"],
        &["--proof=1"],
    ];
    let case = Case {
        rows: "q = FLOP(q)\n",
        labels: "clock clk\n",
        program: "",
    };
    for more in calls {
        assert_text(&rt, case, more, Status::Usage, "")?;
    }
    Ok(())
}

#[test]
fn a_name_alone_is_no_call(rt: HostRuntime) -> Result<(), Fail> {
    let held = Held {
        netlist: b"",
        labels: b"",
        program: b"",
    };
    let words = strings(rt.alloc(), &["--netlist", "n.json"])?;
    let (status, sink) = call(rt.alloc(), held, CALM, words.as_slice())?;
    assert_eq!(rt; status, Status::Usage);
    assert_eq!(rt; sink.bytes(), b"".as_slice());
    Ok(())
}
