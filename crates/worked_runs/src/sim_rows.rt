//! What is known in whole runs, and their faults.
use crate::known::{fault_in, run, words};
use cycle_sim::SimFault;
use std::alloc::Global;
use std::process::Abort;
use std::test::Fail;
use unroll::pcs_of;

/// A memory port: req 1, we 2, be 3 to 6, addr 7 to 38, wdata 39 to 70, rdata 71 to 102.
const PORT: &str = "in req\nin we\nin be 4\nin addr 32\nin wdata 32\nin rdata 32";

const HEAD: &str = "secret a 32 2\nclock clk\ndmem req we be addr wdata rdata\n";

/// All bits of a word.
const ALL: u32 = 0xffff_ffff;

/// Lines, and which bits of the answer are known in four cycles, and which of them are 1.
type Answers<'a> = (&'a str, [(u32, u32); 4]);

fn check_answers(rt: &impl Abort, alloc: Global, cases: &[Answers<'_>]) -> Result<(), Fail> {
    for (lines, wanted) in cases {
        let file = format!(in alloc; "{HEAD}{lines}")?;
        let run = run(rt, alloc, PORT, &file)?;
        let found = words(rt, alloc, &run, 71, 4)?;
        assert!(rt; found.as_slice() == wanted.as_slice(), "{lines}");
    }
    Ok(())
}

#[test]
fn an_answer_comes_in_the_cycle_after_and_stays(rt: HostRuntime) -> Result<(), Fail> {
    let lines = "input we 0\ninput be 0\ninput wdata 0\nmem 0x10000 0x1234\n";
    let cases = [
        (
            "input req 1\ninput addr 0x10002",
            [0, 0x1234, 0x1234, 0x1234],
        ),
        (
            "input req 1 0\ninput addr 0x10003 0x10004",
            [0, 0x1234, 0x1234, 0x1234],
        ),
        ("input req 1\ninput addr 0x10000 0x10004", [0, 0x1234, 0, 0]),
        ("input req 0 1\ninput addr 0x10000", [0, 0, 0x1234, 0x1234]),
    ];
    for (more, [first, second, third, last]) in cases {
        let file = format!(in rt.alloc(); "{lines}{more}")?;
        let wanted = [(ALL, first), (ALL, second), (ALL, third), (ALL, last)];
        check_answers(&rt, rt.alloc(), &[(file.as_str(), wanted)])?;
    }
    Ok(())
}

#[test]
fn a_write_changes_the_enabled_bytes_of_the_next_cycle(rt: HostRuntime) -> Result<(), Fail> {
    let lines = "input we 1 0\ninput wdata 0xaabbccdd\ninput addr 0x10000\n";
    let known = "mem 0x10000 0x11223344\n";
    let share = "mem 0x10000 a.0\n";
    let cases = [
        (known, "input req 1\ninput be 2", (ALL, 0x1122_cc44)),
        (known, "input req 1\ninput be 13", (ALL, 0xaabb_33dd)),
        (known, "input req 1\ninput be 0", (ALL, 0x1122_3344)),
        (known, "input req 0 1\ninput be 15", (ALL, 0x1122_3344)),
        (share, "input req 1\ninput be 2", (0xff00, 0xcc00)),
        (share, "input req 1\ninput be 15", (ALL, 0xaabb_ccdd)),
    ];
    for (word, more, answer) in cases {
        let file = format!(in rt.alloc(); "{lines}{word}{more}")?;
        let wanted = [(ALL, 0), (ALL, 0), answer, answer];
        check_answers(&rt, rt.alloc(), &[(file.as_str(), wanted)])?;
    }
    Ok(())
}

#[test]
fn an_answer_with_a_share_is_unknown_in_its_bits(rt: HostRuntime) -> Result<(), Fail> {
    let file =
        "secret b 1 2\ninput req 1\ninput we 0\ninput be 0\ninput wdata 0\ninput addr 0x10000 0x10004\n\
        mem 0x10000 b.0\nmem 0x10004 b.1";
    let told = (0xffff_fffe, 0);
    check_answers(&rt, rt.alloc(), &[(file, [(ALL, 0), told, told, told])])
}

#[test]
fn both_ports_are_asked_in_one_cycle(rt: HostRuntime) -> Result<(), Fail> {
    let alloc = rt.alloc();
    let rows = format!(in alloc; "{PORT}\nin ireq\nin iaddr 32\nin irdata 32")?;
    let file = format!(in alloc;
        "{HEAD}imem ireq iaddr irdata\ninput ireq 1\ninput iaddr 4 0\ninput req 1\ninput we 0\ninput be 0\n\
        input wdata 0\ninput addr 0x10000\nmem 0x10000 0x1234"
    )?;
    let run = run(&rt, alloc, &rows, &file)?;
    let data = words(&rt, alloc, &run, 71, 3)?;
    assert!(rt; data.as_slice() == [(ALL, 0), (ALL, 0x1234), (ALL, 0x1234)].as_slice());
    let program = words(&rt, alloc, &run, 136, 3)?;
    assert!(rt; program.as_slice() == [(ALL, 0), (ALL, 0x93), (ALL, 0x13)].as_slice());
    Ok(())
}

/// Rows, lines, a number of cycles, and the fault of the first cycle that has one.
type Faults<'a> = (&'a str, &'a str, u32, Option<SimFault>);

fn check_faults(rt: &impl Abort, alloc: Global, cases: &[Faults<'_>]) -> Result<(), Fail> {
    for (rows, lines, cycles, wanted) in cases {
        let run = run(rt, alloc, rows, lines)?;
        let found = fault_in(rt, alloc, &run, *cycles)?;
        assert!(rt; found == *wanted, "{lines}: {found:?}");
    }
    Ok(())
}

#[test]
fn a_request_has_a_known_address_in_the_memory(rt: HostRuntime) -> Result<(), Fail> {
    let depends = |cycle| Some(SimFault::ControlDepends { control: 6, cycle });
    let outside = |cycle| Some(SimFault::AddressOutside {
        cycle,
        address: 0x20000,
    });
    let cases = [
        ("input req 1\ninput addr a.0", 1, depends(0)),
        ("input req 0\ninput addr a.0", 3, None),
        ("input req 0 1\ninput addr a.0", 2, depends(1)),
        ("input req 1\ninput addr 0x20000", 1, outside(0)),
        ("input req 0 1\ninput addr 0x20000", 2, outside(1)),
        ("input req 0 1\ninput addr 0x20000", 1, None),
    ];
    for (more, cycles, wanted) in cases {
        let file = format!(in rt.alloc(); "{HEAD}input we 0\ninput be 0\ninput wdata 0\n{more}")?;
        check_faults(&rt, rt.alloc(), &[(PORT, file.as_str(), cycles, wanted)])?;
    }
    Ok(())
}

/// A flop whose reset is active at 0: rst 1, c 2, q 3.
const RESET: &str = "in rst\nin c\nq = $_DFF_PN0_(D: c, C: clk, R: rst, Q: q)";

#[test]
fn an_active_reset_comes_after_an_unknown_control(rt: HostRuntime) -> Result<(), Fail> {
    let reset = Some(SimFault::ResetActive { flop: 0, cycle: 1 });
    let control = Some(SimFault::ControlDepends {
        control: 0,
        cycle: 1,
    });
    let head = "secret a 1 2\nclock clk\n";
    let cases = [
        ("input rst 1 0\ninput c 0", 1, None),
        ("input rst 1 0\ninput c 0", 2, reset),
        ("input rst 1 0\ninput c a.0", 2, reset),
        ("input rst 1 0\ncontrol c\ninput c 0 a.0", 2, control),
        ("input rst 1\ninput c 0", 3, None),
    ];
    for (more, cycles, wanted) in cases {
        let file = format!(in rt.alloc(); "{head}{more}")?;
        check_faults(&rt, rt.alloc(), &[(RESET, file.as_str(), cycles, wanted)])?;
    }
    Ok(())
}

#[test]
fn an_active_reset_comes_before_an_address_outside(rt: HostRuntime) -> Result<(), Fail> {
    let alloc = rt.alloc();
    let rows = format!(in alloc; "{PORT}\n{RESET}")?;
    let file = format!(in alloc;
        "{HEAD}input req 1\ninput we 0\ninput be 0\ninput wdata 0\ninput addr 0x20000\ninput rst 0\ninput c 0"
    )?;
    let reset = Some(SimFault::ResetActive { flop: 0, cycle: 0 });
    check_faults(&rt, alloc, &[(rows.as_str(), file.as_str(), 1, reset)])
}

#[test]
fn an_echo_is_its_source_in_the_cycle_before(rt: HostRuntime) -> Result<(), Fail> {
    // bits: clk 0, q 1, p 2, e 3; the two registers change places in each cycle
    let rows = "q = FLOP(p)\np = FLOP(q)\nin e";
    let run = run(
        &rt,
        rt.alloc(),
        rows,
        "clock clk\nreg q 1\nreg p 0\necho e q",
    )?;
    let found = words(&rt, rt.alloc(), &run, 0, 3)?;
    let wanted = [(15, 0b0010), (15, 0b1100), (15, 0b0010)];
    assert!(rt; found.as_slice() == wanted.as_slice());
    Ok(())
}

#[test]
fn the_program_counter_is_the_number_on_its_net(rt: HostRuntime) -> Result<(), Fail> {
    let rows = "p = FLOP(n)\nn = NOT(p)\nnet pc = 0, 0, p";
    let run = run(&rt, rt.alloc(), rows, "clock clk\npc pc")?;
    match pcs_of(rt.alloc(), &run.graph, &run.setup, 3) {
        Ok(pcs) => assert!(rt; pcs.as_slice() == [0, 4, 0].as_slice()),
        Err(_) => panic!(rt; "no numbers"),
    }
    Ok(())
}
