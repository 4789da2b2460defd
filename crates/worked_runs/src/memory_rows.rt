//! The nodes of memory answers and word leaves, and the names of faults.
ghost use Rattle.coco_model.specs.Setups.{IsBoundTo};

use crate::Ready;
use crate::known::run;
use crate::nodes::{copy, label, node, unrolled, unrolled_within};
use coco_base::Node;
use cycle_sim::SimFault;
use std::alloc::Global;
use std::process::Abort;
use std::test::Fail;
use unroll::UnrollFault;

/// A memory port whose value is a flop's bit and 31 zeros: req 1, we 2, be 3 to 6, addr 7 to 38, rdata 39 to 70, q 71.
const PORT: &str =
    "in req\nin we\nin be 4\nin addr 32\nin rdata 32\nq = FLOP(q)\nnet wd = q, 0, 0, 0, 0, 0, 0, 0, 0, \
    0, 0, 0, 0, 0, 0, 0, 0, 0, 0, 0, 0, 0, 0, 0, 0, 0, 0, 0, 0, 0, 0, 0";

const LINES: &str =
    "version 2\nsecret a 1 2\nclock clk\nreg q a.1\ndmem req we be addr wd rdata\ninput be 15\n\
    input addr 0x10000\n";

#[test]
fn an_answer_has_the_label_of_a_word_that_was_not_written(rt: HostRuntime) -> Result<(), Fail> {
    let alloc = rt.alloc();
    let file = format!(in alloc; "{LINES}input req 1 0\ninput we 0\nmem 0x10000 a.0")?;
    let run = unrolled(&rt, alloc, PORT, &file, 3)?;
    assert!(rt; node(&run, 39, 0) == Some(Node::Nothing));
    assert!(rt; node(&run, 39, 1) == label(0));
    assert!(rt; node(&run, 39, 2) == copy(&run, 39, 1));
    assert!(rt; node(&run, 40, 1) == Some(Node::Nothing));
    Ok(())
}

#[test]
fn an_answer_is_a_copy_of_what_was_written(rt: HostRuntime) -> Result<(), Fail> {
    let alloc = rt.alloc();
    let file = format!(in alloc; "{LINES}input req 1\ninput we 1 0\nmem 0x10000 a.0")?;
    let run = unrolled(&rt, alloc, PORT, &file, 4)?;
    assert!(rt; node(&run, 39, 1) == Some(Node::Nothing));
    assert!(rt; node(&run, 39, 2) == copy(&run, 71, 0));
    assert!(rt; node(&run, 39, 3) == copy(&run, 71, 0));
    Ok(())
}

#[test]
fn a_word_leaf_is_a_copy_of_what_was_written(rt: HostRuntime) -> Result<(), Fail> {
    let alloc = rt.alloc();
    // the word leaf has the bits from 72 on
    for (write, source) in [("0", 72usize), ("1", 71)] {
        let file = format!(in alloc;
            "{LINES}input req 1\ninput we {write}\nmem 0x10000 a.1\nleaf 0x10000"
        )?;
        let run = unrolled(&rt, alloc, PORT, &file, 2)?;
        assert!(rt; node(&run, 72, 0) == label(1));
        assert!(rt; node(&run, 72, 1) == copy(&run, source, 0), "{write}");
        assert!(rt; node(&run, 73, 1) == Some(Node::Nothing));
    }
    Ok(())
}

/// A run has no fault in its first cycle, and this one in its second.
fn check_fault(rt: &impl Abort, alloc: Global, run: &Ready, wanted: SimFault, told: &str)
    requires { IsBoundTo run.now.graph.flat run.now.setup }
{
    assert!(rt;
        unrolled_within(rt, alloc, run, 1, 4_000_000).is_ok(),
        "{told}"
    );
    match unrolled_within(rt, alloc, run, 2, 4_000_000) {
        Err(UnrollFault::Sim { fault, name }) => {
            assert!(rt; fault == wanted && name.as_str() == told, "{told}");
        }
        _ => panic!(rt; "no fault"),
    }
}

#[test]
fn a_fault_of_a_port_has_the_name_of_its_control(rt: HostRuntime) -> Result<(), Fail> {
    let head =
        "secret a 32 2\nclock clk\ndmem req we be addr wd rdata\ninput we 0\ninput be 0\ninput req 0 1\n";
    let control = SimFault::ControlDepends {
        control: 6,
        cycle: 1,
    };
    let address = SimFault::AddressOutside {
        cycle: 1,
        address: 0x20000,
    };
    let cases = [
        ("input addr a.0", control, "addr[0]"),
        ("input addr 0x20000", address, ""),
    ];
    for (line, wanted, told) in cases {
        let file = format!(in rt.alloc(); "{head}{line}")?;
        let run = run(&rt, rt.alloc(), PORT, &file)?;
        check_fault(&rt, rt.alloc(), &run, wanted, told);
    }
    Ok(())
}

#[test]
fn an_active_reset_has_the_name_of_its_flop(rt: HostRuntime) -> Result<(), Fail> {
    let rows = "in rst\nq = $_DFF_PN0_(D: q, C: clk, R: rst, Q: q)";
    let reset = SimFault::ResetActive { flop: 0, cycle: 1 };
    let run = run(&rt, rt.alloc(), rows, "clock clk\ninput rst 1 0")?;
    check_fault(&rt, rt.alloc(), &run, reset, "c_q");
    Ok(())
}
