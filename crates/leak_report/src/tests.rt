use crate::{Answer, Facts, is_in_range, text_of};
use circuit_rows::netlist;
use clause_store::{Derivation, Line};
use coco_base::{
    Finding, Flat, LabelSet, LabelTable, List, MaskPlan, NoMemory, Probe, SecretPlan, Selection,
    Setup, Text,
};
use gate_graph::{build, can_build};
use std::alloc::Global;
use std::process::Abort;
use std::test::Fail;

// a secret of two bits in two shares, a mask of one bit, and a fresh mask of two bits
fn table(alloc: Global) -> Result<LabelTable, NoMemory> {
    let mut secrets = List::new(alloc);
    secrets.push(SecretPlan {
        name: Text::of(alloc, "a")?,
        width: 2,
        shares: 2,
        first: 0,
    })?;
    let mut masks = List::new(alloc);
    masks.push(MaskPlan {
        name: Text::of(alloc, "m")?,
        width: 1,
        first: 4,
    })?;
    let mut fresh = List::new(alloc);
    fresh.push(MaskPlan {
        name: Text::of(alloc, "r")?,
        width: 2,
        first: 0,
    })?;
    Ok(LabelTable {
        secrets,
        masks,
        fresh,
        declared: 5,
        per_cycle: 2,
    })
}

// the words of the program stand on lines 4 and 7
fn setup(alloc: Global) -> Result<Setup, NoMemory> {
    let mut lines = List::new(alloc);
    lines.push(4)?;
    lines.push(7)?;
    Ok(Setup {
        starts: List::new(alloc),
        inputs: List::new(alloc),
        echoes: List::new(alloc),
        memories: List::new(alloc),
        words: List::new(alloc),
        leaves: List::new(alloc),
        controls: List::new(alloc),
        pc: List::new(alloc),
        lines,
        table: table(alloc)?,
        clock: Some(0),
    })
}

fn facts(alloc: Global, window: u32, pcs: &[u32]) -> Result<Facts, NoMemory> {
    Ok(Facts {
        order: 1,
        window,
        cycles: 3,
        steps: 1_000_000,
        pcs: List::from_vec(pcs.to_vec(alloc)?),
    })
}

fn pairs(alloc: Global, pairs: &[(u32, u32)]) -> Result<List<Probe>, NoMemory> {
    let mut list = List::new(alloc);
    for (bit, cycle) in pairs {
        list.push(Probe {
            bit: *bit,
            cycle: *cycle,
        })?;
    }
    Ok(list)
}

fn rejected(
    alloc: Global,
    probes: &[(u32, u32)],
    seen: &[(u32, u32)],
    labels: &[u32],
) -> Result<Answer, NoMemory> {
    let mut set = LabelSet::empty(alloc);
    for label in labels {
        let one = LabelSet::of(alloc, *label)?;
        set = set.union(alloc, &one)?;
    }
    Ok(Answer::Rejected(Finding {
        probes: pairs(alloc, probes)?,
        seen: pairs(alloc, seen)?,
        selection: Selection {
            choices: List::new(alloc),
        },
        set,
    }))
}

// the report of a run of a circuit is this text
fn check_report(
    rt: &impl Abort,
    alloc: Global,
    answer: &Answer,
    facts: &Facts,
    text: &str,
) -> Result<(), Fail> {
    let rows = "in s\nopen u\nq = FLOP(s)\ny = AND(q, s)\nz = OR(y, u)\n";
    let flat = netlist(alloc, rows)?;
    let setup = setup(alloc)?;
    assert!(rt; can_build(&flat));
    assert!(rt; is_in_range(answer, facts, &flat, &setup));
    let graph = build(alloc, &flat)?;
    let report = text_of(alloc, answer, facts, &flat, &graph, &setup)?;
    assert_eq!(rt; report.as_slice(), text.as_bytes());
    Ok(())
}

#[test]
fn a_window_of_one_cycle_is_not_told(rt: HostRuntime) -> Result<(), Fail> {
    let alloc = rt.alloc();
    let lines = List::new(alloc);
    let accepted = Answer::Accepted(Derivation { lines });
    let one = "accepted\norder 1\ncycles 3\nbits 5\nsecret bits 2\nlabels 11\n";
    let two = "accepted\norder 1\nwindow 2\ncycles 3\nbits 5\nsecret bits 2\nlabels 11\n";
    check_report(&rt, alloc, &accepted, &facts(alloc, 1, &[])?, one)?;
    check_report(&rt, alloc, &accepted, &facts(alloc, 2, &[])?, two)
}

#[test]
fn the_lines_of_a_search_that_was_given_up_are_its_steps(rt: HostRuntime) -> Result<(), Fail> {
    let alloc = rt.alloc();
    let mut lines = List::new(alloc);
    for _ in 0..2 {
        lines.push(Line {
            clause: List::new(alloc),
            first: 0,
            cuts: List::new(alloc),
        })?;
    }
    let text = "undecided\norder 1\ncycles 3\nbits 5\nsecret bits 2\nlabels 11\nsteps 2\n";
    check_report(
        &rt,
        alloc,
        &Answer::Undecided(Derivation { lines }),
        &facts(alloc, 1, &[])?,
        text,
    )
}

#[test]
fn a_finding_has_its_probes_pairs_and_labels(rt: HostRuntime) -> Result<(), Fail> {
    let alloc = rt.alloc();
    let answer = rejected(
        alloc,
        &[(4, 1), (1, 2), (2, 2), (3, 2)],
        &[(1, 0), (2, 1), (3, 1)],
        &[0, 3, 4, 6, 9],
    )?;
    let text = "rejected\norder 1\ncycles 3\nbits 5\nsecret bits 2\nlabels 11\n\
        probe y gate c_y cycle 1 pc 00000006 line 7\n\
        probe s gate input cycle 2 pc 0000abc8 line -\n\
        probe u gate none cycle 2 pc 0000abc8 line -\n\
        probe q gate c_q cycle 2 pc 0000abc8 line -\n\
        sees s cycle 0\nsees u cycle 1\nsees q cycle 1\n\
        set a.0[0] a.1[1] m[0] r@0[1] r@2[0]\n";
    check_report(
        &rt,
        alloc,
        &answer,
        &facts(alloc, 1, &[0, 6, 0xabc8])?,
        text,
    )
}

#[test]
fn a_run_without_a_program_counter_has_no_lines(rt: HostRuntime) -> Result<(), Fail> {
    let alloc = rt.alloc();
    let answer = rejected(alloc, &[(5, 0)], &[(1, 0)], &[1])?;
    let text = "rejected\norder 1\ncycles 3\nbits 5\nsecret bits 2\nlabels 11\n\
        probe z gate c_z cycle 0 pc - line -\nsees s cycle 0\nset a.0[1]\n";
    check_report(&rt, alloc, &answer, &facts(alloc, 1, &[])?, text)
}
