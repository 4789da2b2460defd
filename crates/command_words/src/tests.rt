use crate::table::{check_table, made_table, recheck_table};
use crate::{
    CheckRequest, Files, RecheckRequest, Sizes, Usage, read_check, read_made, read_recheck,
};
use std::alloc::Global;
use std::test::Fail;

// words of coco_check, and what they mean: netlist, labels, program, top, order, window, cycles, steps, restart, proof
const CHECKS: &[&str] = &[
    "--netlist n --labels l => n l - - 1 1 1 1000000 1000000000 false",
    "--labels l --netlist n => n l - - 1 1 1 1000000 1000000000 false",
    "--netlist=n --labels=l => n l - - 1 1 1 1000000 1000000000 false",
    "--netlist n --labels=l --program p.s => n l p.s - 1 1 1 1000000 1000000000 false",
    "--top=m --netlist n --program=p --labels l => n l p m 1 1 1 1000000 1000000000 false",
    "--netlist n --labels l --order 2 => n l - - 2 1 1 1000000 1000000000 false",
    "--netlist n --order=64 --labels l => n l - - 64 1 1 1000000 1000000000 false",
    "--netlist n --labels l --order 064 => n l - - 64 1 1 1000000 1000000000 false",
    "--netlist n --labels l --order 0000000003 => n l - - 3 1 1 1000000 1000000000 false",
    "--netlist n --labels l --window 64 => n l - - 1 64 1 1000000 1000000000 false",
    "--netlist n --labels l --cycles 65536 => n l - - 1 1 65536 1000000 1000000000 false",
    "--netlist n --labels l --steps 1000000000 => n l - - 1 1 1 1000000000 1000000000 false",
    "--netlist n --labels l --steps=1 => n l - - 1 1 1 1 1000000000 false",
    "--netlist n --labels l --restart 1 => n l - - 1 1 1 1000000 1 false",
    "--restart=1000000000 --netlist n --labels l => n l - - 1 1 1 1000000 1000000000 false",
    "--netlist n --labels l --proof => n l - - 1 1 1 1000000 1000000000 true",
    "--proof --netlist n --labels l => n l - - 1 1 1 1000000 1000000000 true",
    "--netlist a=b --labels=c=d => a=b c=d - - 1 1 1 1000000 1000000000 false",
    "--netlist = --labels l => = l - - 1 1 1 1000000 1000000000 false",
    "--netlist n --labels l --order 2 --window 3 --cycles 4 --steps 5 --restart 6 --proof => n l - - 2 3 4 5 6 true",
];

// words that are no call of coco_check
const NO_CHECKS: &[&str] = &[
    "",
    "--netlist n",
    "--labels l",
    "--netlist n --labels",
    "--netlist --labels l",
    "--netlist n --labels l --order",
    "--netlist n --netlist n --labels l",
    "--netlist n --labels l --labels=l",
    "--netlist n --labels l --program p --program p",
    "--netlist n --labels l --top m --top m",
    "--netlist n --labels l --order 1 --order 2",
    "--netlist n --labels l --window 1 --window 1",
    "--netlist n --labels l --cycles 1 --cycles 1",
    "--netlist n --labels l --steps 1 --steps 1",
    "--netlist n --labels l --restart 1 --restart 1",
    "--proof --netlist n --labels l --proof",
    "--netlist n --labels l --order 0",
    "--netlist n --labels l --order 65",
    "--netlist n --labels l --order 065",
    "--netlist n --labels l --order 00000000003",
    "--netlist n --labels l --order +4",
    "--netlist n --labels l --order -4",
    "--netlist n --labels l --order=-4",
    "--netlist n --labels l --order 4x",
    "--netlist n --labels l --order ",
    "--netlist n --labels l --order=",
    "--netlist n --labels l --window 0",
    "--netlist n --labels l --window 65",
    "--netlist n --labels l --cycles 0",
    "--netlist n --labels l --cycles 65537",
    "--netlist n --labels l --cycles=",
    "--netlist n --labels l --steps 0",
    "--netlist n --labels l --steps 1000000001",
    "--netlist n --labels l --restart 0",
    "--netlist n --labels l --restart 1000000001",
    "--netlist n --labels l --restart",
    "--netlist n --labels l --proof=",
    "--netlist n --labels l --proof=yes",
    "--netlist n --labels l --proof yes",
    "--netlist  --labels l",
    "--netlist= --labels l",
    "--netlist -n --labels l",
    "--netlist=-n --labels l",
    "--netlist - --labels l",
    "--netlist n --labels l --",
    "-- --netlist n --labels l",
    "--netlist -- --labels l",
    "--net n --labels l",
    "-netlist n --labels l",
    "--=n --netlist n --labels l",
    "-h",
    "--help",
    "--netlist n --labels l more",
];

// words of coco_recheck, and what they mean: netlist, labels, program, top, order, window, cycles, proof
const RECHECKS: &[&str] = &[
    "--netlist n --labels l --proof f => n l - - 1 1 1 f",
    "--proof=f --netlist n --labels l => n l - - 1 1 1 f",
    "--netlist n --labels l --proof f --program p --top m --order 2 --window 3 --cycles 4 => n l p m 2 3 4 f",
];

const NO_RECHECKS: &[&str] = &[
    "--netlist n --labels l",
    "--netlist n --labels l --proof",
    "--netlist n --labels l --proof=",
    "--netlist n --labels l --proof -f",
    "--netlist n --labels l --proof f --proof f",
    "--netlist n --labels l --proof f --steps 1",
    "--netlist n --labels l --proof f --restart 1",
];

// words of coco_made, and the stages that they mean
const MADES: &[&str] = &["1 => 1", "64 => 64", "0007 => 7"];

const NO_MADES: &[&str] = &["0", "65", "", "-1", "1 1", "--stages 1", "--"];

// the words of a line, of which single spaces part one from the next
fn words_of(alloc: Global, line: &str) -> Result<Vec<String>, Fail> {
    let mut words = Vec::new(alloc);
    for word in line.split(' ') {
        words.push(word.to_string(alloc)?)?;
    }
    Ok(words)
}

fn files_text(alloc: Global, files: &Files<'_>, sizes: &Sizes) -> Result<String, Fail> {
    let Files {
        netlist,
        labels,
        program,
        top,
    } = *files;
    let program = program.unwrap_or("-");
    let top = top.unwrap_or("-");
    let Sizes {
        order,
        window,
        cycles,
    } = *sizes;
    Ok(format!(in alloc; "{netlist} {labels} {program} {top} {order} {window} {cycles}")?)
}

fn check_text(alloc: Global, request: CheckRequest<'_>) -> Result<String, Fail> {
    let files = files_text(alloc, &request.files, &request.sizes)?;
    let CheckRequest {
        steps,
        restart,
        proof,
        ..
    } = request;
    Ok(format!(in alloc; "{files} {steps} {restart} {proof}")?)
}

fn recheck_text(alloc: Global, request: RecheckRequest<'_>) -> Result<String, Fail> {
    let files = files_text(alloc, &request.files, &request.sizes)?;
    let proof = request.proof;
    Ok(format!(in alloc; "{files} {proof}")?)
}

// what the words of a program mean, as text, where they are a call
enum Program {
    Check,
    Recheck,
    Made,
}

fn meaning(alloc: Global, program: &Program, line: &str) -> Result<Option<String>, Fail> {
    let words = words_of(alloc, line)?;
    match program {
        Program::Check => match read_check(alloc, words.as_slice())? {
            Some(request) => Ok(Some(check_text(alloc, request)?)),
            None => Ok(None),
        },
        Program::Recheck => match read_recheck(alloc, words.as_slice())? {
            Some(request) => Ok(Some(recheck_text(alloc, request)?)),
            None => Ok(None),
        },
        Program::Made => match read_made(alloc, words.as_slice())? {
            Some(request) => Ok(Some(request.stages.to_string(alloc)?)),
            None => Ok(None),
        },
    }
}

// the first line whose words do not mean what it says behind the arrow
fn first_wrong(
    alloc: Global,
    program: &Program,
    lines: &'static [&'static str],
) -> Result<Option<&'static str>, Fail> {
    for line in lines {
        let (words, wanted) = line.split_once(" => ").ok_or("a line without an arrow")?;
        let Some(text) = meaning(alloc, program, words)? else {
            return Ok(Some(*line));
        };
        if text.as_str() != wanted {
            return Ok(Some(*line));
        }
    }
    Ok(None)
}

// the first line whose words are a call
fn first_call(
    alloc: Global,
    program: &Program,
    lines: &'static [&'static str],
) -> Result<Option<&'static str>, Fail> {
    for line in lines {
        if meaning(alloc, program, *line)?.is_some() {
            return Ok(Some(*line));
        }
    }
    Ok(None)
}

#[test]
fn words_of_coco_check_mean_what_the_table_says(rt: HostRuntime) -> Result<(), Fail> {
    assert_eq!(rt; first_wrong(rt.alloc(), &Program::Check, CHECKS)?, None);
    assert_eq!(rt; first_call(rt.alloc(), &Program::Check, NO_CHECKS)?, None);
    Ok(())
}

#[test]
fn words_of_coco_recheck_mean_what_the_table_says(rt: HostRuntime) -> Result<(), Fail> {
    assert_eq!(rt; first_wrong(rt.alloc(), &Program::Recheck, RECHECKS)?, None);
    assert_eq!(rt;
        first_call(rt.alloc(), &Program::Recheck, NO_RECHECKS)?,
        None
    );
    Ok(())
}

#[test]
fn words_of_coco_made_mean_what_the_table_says(rt: HostRuntime) -> Result<(), Fail> {
    assert_eq!(rt; first_wrong(rt.alloc(), &Program::Made, MADES)?, None);
    assert_eq!(rt; first_call(rt.alloc(), &Program::Made, NO_MADES)?, None);
    Ok(())
}

#[test]
fn no_words_are_no_call(rt: HostRuntime) -> Result<(), Fail> {
    assert!(rt; read_check(rt.alloc(), &[])?.is_none());
    assert!(rt; read_recheck(rt.alloc(), &[])?.is_none());
    assert!(rt; read_made(rt.alloc(), &[])?.is_none());
    Ok(())
}

#[test]
fn usage_lines_name_every_argument(rt: HostRuntime) -> Result<(), Fail> {
    let check = Usage(&check_table()).to_string(rt.alloc())?;
    assert_eq!(rt;
        check.as_str(),
        "coco_check --netlist N --labels L [--program P] [--top M] [--order D] [--window W] [--cycles C] [--steps B] [--restart R] [--proof]"
    );
    let recheck = Usage(&recheck_table()).to_string(rt.alloc())?;
    assert_eq!(rt;
        recheck.as_str(),
        "coco_recheck --netlist N --labels L [--program P] [--top M] [--order D] [--window W] [--cycles C] --proof F"
    );
    let made = Usage(&made_table()).to_string(rt.alloc())?;
    assert_eq!(rt; made.as_str(), "coco_made N");
    Ok(())
}
