ghost use Rattle.std.specs.Prelude.{◌≡◌};

use crate::{Inputs, Prepared, prepare};
use bind_run::BindFault;
use circuit_rows::json;
use coco_base::Limits;
use gate_graph::GraphFault;
use label_file::LabelFault;
use netlist_json::NetFault;
use refusal_lines::{Refusal, Stop};
use rv_asm::AsmFault;
use std::alloc::Global;
use std::process::Abort;
use std::test::Fail;

/// Two registers and a cell, four bits with the clock.
const ROWS: &str = "q0 = FLOP(q0)\nq1 = FLOP(q1)\ny = XOR(q0, q1)\n";

const LABELS: &str = "version 2\nsecret a 1 2\nclock clk\nreg q0 a.0\nreg q1 a.1\n";

/// What is judged: one probe in one cycle of a netlist of a single module.
fn inputs<'a>(
    netlist: &'a [u8],
    labels: &'a [u8],
    program: Option<&'a [u8]>,
    word_file: bool,
) -> Inputs<'a>
    ensures { result.labels ≡ labels.entry }
{
    Inputs {
        netlist,
        labels,
        program,
        word_file,
        top: None,
        order: 1,
        window: 1,
        cycles: 1,
        steps: 1_000_000,
        restart: 1_000_000_000,
    }
}

/// What the files make, with at most so many bits.
fn made(rt: &impl Abort, alloc: Global, inputs: &Inputs<'_>, bits: u32) -> Result<Prepared, Stop> {
    let limits = Limits {
        bits,
        ..Limits::usual()
    };
    assert!(rt; inputs.labels.len() < 4_000_000_000 && bits <= 1_000_000);
    prepare(alloc, inputs, &limits)
}

/// The run that rows, labels and a program make.
fn run(
    rt: &impl Abort,
    alloc: Global,
    labels: &str,
    program: Option<&[u8]>,
    word_file: bool,
) -> Result<Prepared, Fail> {
    let netlist = json(alloc, ROWS)?;
    let inputs = inputs(netlist.as_slice(), labels.as_bytes(), program, word_file);
    match made(rt, alloc, &inputs, 1_000_000) {
        Ok(run) => Ok(run),
        Err(_) => panic!(rt; "no run"),
    }
}

/// Why a netlist, labels and a program of assembly make no run of at most ten bits.
fn refusal(
    rt: &impl Abort,
    alloc: Global,
    netlist: &[u8],
    labels: &str,
    program: &str,
) -> Result<Refusal, Fail> {
    let inputs = inputs(netlist, labels.as_bytes(), Some(program.as_bytes()), false);
    match made(rt, alloc, &inputs, 10) {
        Err(Stop::Refused(refusal)) => Ok(refusal),
        _ => panic!(rt; "no refusal"),
    }
}

#[test]
fn a_run_without_a_program_has_the_words_of_the_data_alone(rt: HostRuntime) -> Result<(), Fail> {
    let run = run(&rt, rt.alloc(), LABELS, None, false)?;
    assert!(rt; run.flat.bits == 4 && run.graph.clock() == Some(0));
    assert!(rt; run.setup.lines.is_empty());
    assert!(rt; run.setup.words.len() == 1_024);
    Ok(())
}

#[test]
fn a_program_of_words_has_the_lines_that_are_not_empty(rt: HostRuntime) -> Result<(), Fail> {
    let run = run(
        &rt,
        rt.alloc(),
        LABELS,
        Some(b"00000013\n\n00100073\n"),
        true,
    )?;
    assert!(rt; run.setup.lines.as_slice() == [1, 3].as_slice());
    Ok(())
}

#[test]
fn a_program_of_assembly_has_its_lines_and_words(rt: HostRuntime) -> Result<(), Fail> {
    let run = run(&rt, rt.alloc(), LABELS, Some(b"\nnop\nebreak\n"), false)?;
    assert!(rt; run.setup.lines.as_slice() == [2, 3].as_slice());
    assert!(rt; run.setup.words.len() == 1_026);
    Ok(())
}

#[test]
fn a_word_leaf_widens_the_netlist(rt: HostRuntime) -> Result<(), Fail> {
    let labels = format!(in rt.alloc(); "{LABELS}leaf 0x10000\n")?;
    let run = run(&rt, rt.alloc(), &labels, None, false)?;
    assert!(rt; run.flat.bits == 36 && run.graph.bits() == 36);
    assert!(rt; run.setup.leaves.len() == 1);
    Ok(())
}

#[test]
fn a_netlist_that_is_not_read_is_refused_first(rt: HostRuntime) -> Result<(), Fail> {
    let refusal = refusal(&rt, rt.alloc(), b"{", "none", "none")?;
    assert!(rt; matches!(&refusal, Refusal::Net(NetFault::NotJson)));
    Ok(())
}

#[test]
fn a_netlist_without_a_graph_is_refused_second(rt: HostRuntime) -> Result<(), Fail> {
    let netlist = json(rt.alloc(), "y = XOR(y, y)\n")?;
    let refusal = refusal(&rt, rt.alloc(), netlist.as_slice(), "none", "none")?;
    assert!(rt; matches!(&refusal, Refusal::Graph(GraphFault::Loop { .. })));
    Ok(())
}

/// Why labels and a program of assembly make no run of the rows of at most ten bits.
fn refusal_of(
    rt: &impl Abort,
    alloc: Global,
    labels: &str,
    program: &str,
) -> Result<Refusal, Fail> {
    let netlist = json(alloc, ROWS)?;
    refusal(rt, alloc, netlist.as_slice(), labels, program)
}

#[test]
fn a_program_that_is_not_read_is_refused_third(rt: HostRuntime) -> Result<(), Fail> {
    let refusal = refusal_of(&rt, rt.alloc(), "none", "nop\nnone")?;
    assert!(rt; matches!(&refusal, Refusal::Asm(AsmFault::BadLine { line: 2 })));
    Ok(())
}

#[test]
fn labels_that_are_not_read_are_refused_fourth(rt: HostRuntime) -> Result<(), Fail> {
    let refusal = refusal_of(&rt, rt.alloc(), "none", "nop")?;
    assert!(rt; matches!(&refusal, Refusal::Label(LabelFault::BadLine { line: 1 })));
    Ok(())
}

#[test]
fn leaves_of_too_many_bits_are_refused_before_nets(rt: HostRuntime) -> Result<(), Fail> {
    let labels = "version 2\nleaf 0x10000\nreg z 0\n";
    let refusal = refusal_of(&rt, rt.alloc(), labels, "nop")?;
    assert!(rt;
        matches!(
            &refusal,
            Refusal::Bind(BindFault::LeafBits {
                count: 36,
                limit: 10
            })
        )
    );
    Ok(())
}

#[test]
fn a_net_that_is_not_there_is_refused_last(rt: HostRuntime) -> Result<(), Fail> {
    let refusal = refusal_of(&rt, rt.alloc(), "reg z 0\n", "nop")?;
    assert!(rt; matches!(&refusal, Refusal::Bind(BindFault::NoSuchNet { .. })));
    Ok(())
}
