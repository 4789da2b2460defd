//! Binding the label files of small circuits.
ghost use Rattle.label_file.specs.Conditions.{AreLabels};

use crate::{bind, widen};
use coco_base::{ControlPlan, Limits, List, Setup, Start, When, Wire};
use gate_graph::{build, can_build};
use label_file::{Labels, read_labels};
use rv_asm::Image;
use std::alloc::Global;
use std::process::Abort;
use std::test::Fail;

/// The labels of a file without a fault.
fn labels(rt: &impl Abort, alloc: Global, file: &str) -> Labels
    ensures { AreLabels result }
{
    assert!(rt; file.len() < 16_000_000);
    let read = read_labels(alloc, file.as_bytes(), &Limits::usual());
    assert!(rt; read.is_ok());
    read.expect(rt, "labels")
}

/// The setup of a file over the circuit of rows, which is widened before.
fn bound(rt: &impl Abort, alloc: Global, rows: &str, file: &str) -> Result<Setup, Fail> {
    let flat = circuit_rows::netlist(alloc, rows)?;
    let labels = labels(rt, alloc, file);
    let Ok(wide) = widen(alloc, &flat, &labels, &Limits::usual()) else {
        panic!(rt; "not widened");
    };
    assert!(rt; can_build(&wide));
    let Ok(graph) = build(alloc, &wide) else {
        panic!(rt; "no graph");
    };
    let image = Image {
        text: List::new(alloc),
        values: List::new(alloc),
        lines: List::new(alloc),
    };
    match bind(alloc, &graph, &wide, &image, &labels) {
        Ok(setup) => Ok(setup),
        Err(_) => panic!(rt; "not bound"),
    }
}

/// What a bit starts at.
fn start(setup: &Setup, bit: usize) -> Option<Start> {
    setup.starts.as_slice().get(bit).copied()
}

/// The values of the input of a bit.
fn values(setup: &Setup, bit: u32) -> &[Start] {
    for input in setup.inputs.as_slice() {
        if input.bit == bit {
            return input.values.as_slice();
        }
    }
    &[]
}

/// The wires of controls, and when they apply.
fn is_control(control: Option<&ControlPlan>, name: &str, bit: u32, when: When) -> bool {
    match control {
        Some(plan) => plan.name.as_str() == name
            && plan.wire == Wire::Bit(bit)
            && plan.when == when,
        None => false,
    }
}

/// A memory port: req 1, we 2, be 3 to 6, addr 7 to 38, wdata 39 to 70, rdata 71 to 102.
const PORT: &str = "in req\nin we\nin be 4\nin addr 32\nin wdata 32\nin rdata 32";

#[test]
fn the_wires_of_a_memory_port_stand_in_their_order(rt: HostRuntime) -> Result<(), Fail> {
    let file =
        "secret a 32 2\nclock clk\ndmem req we be addr wdata rdata\ninput req 1\ninput we 0\ninput be 0\n\
        input wdata 0\ninput addr a.0";
    let setup = bound(&rt, rt.alloc(), PORT, file)?;
    assert!(rt; setup.starts.len() == 103 && setup.clock == Some(0));
    assert!(rt;
        start(&setup, 7) == Some(Start::Label(0))
            && start(&setup, 15) == Some(Start::Label(8))
            && start(&setup, 38) == Some(Start::Label(31))
    );
    let [memory] = setup.memories.as_slice() else {
        panic!(rt; "one port");
    };
    assert!(rt; memory.request == Wire::Bit(1) && memory.write == Some(Wire::Bit(2)));
    assert!(rt;
        memory.enables.as_slice()
            == [Wire::Bit(3), Wire::Bit(4), Wire::Bit(5), Wire::Bit(6)].as_slice()
    );
    assert!(rt; memory.address.as_slice().first().copied() == Some(Wire::Bit(7)));
    assert!(rt; memory.address.as_slice().get(31).copied() == Some(Wire::Bit(38)));
    assert!(rt; memory.value.as_slice().get(31).copied() == Some(Wire::Bit(70)));
    assert!(rt; memory.answer.as_slice().first().copied() == Some(71));
    Ok(())
}

#[test]
fn controls_stand_in_the_order_of_the_nets(rt: HostRuntime) -> Result<(), Fail> {
    let file =
        "clock clk\ndmem req we be addr wdata rdata\ninput req 0\ninput we 0\ninput be 0\ninput wdata 0\n\
        input addr 0x20000\ncontrol be[3]";
    let setup = bound(&rt, rt.alloc(), PORT, file)?;
    let controls = setup.controls.as_slice();
    assert_eq!(rt; controls.len(), 39);
    assert!(rt; is_control(controls.get(0), "req", 1, When::Always));
    assert!(rt; is_control(controls.get(1), "we", 2, When::Requested(0)));
    assert!(rt; is_control(controls.get(2), "be[0]", 3, When::Written(0)));
    assert!(rt; is_control(controls.get(5), "be[3]", 6, When::Written(0)));
    assert!(rt; is_control(controls.get(6), "addr[0]", 7, When::Requested(0)));
    assert!(rt; is_control(controls.get(37), "addr[31]", 38, When::Requested(0)));
    assert!(rt; is_control(controls.get(38), "be[3]", 6, When::Always));
    Ok(())
}

#[test]
fn a_word_starts_as_its_line_says(rt: HostRuntime) -> Result<(), Fail> {
    let file =
        "secret a 1 2\nclock clk\ndmem req we be addr wdata rdata\ninput req 1\ninput we 0\ninput be 0\n\
        input wdata 0\ninput addr 0x10000 0x10004\nmem 0x10004 a.1\nmem 0x10000 a.0";
    let setup = bound(&rt, rt.alloc(), PORT, file)?;
    let words = setup.words.as_slice();
    assert_eq!(rt; words.len(), 1024);
    assert!(rt;
        words[0].address == 65536 && words[1].address == 65540 && words[1023].address == 69628
    );
    assert!(rt; words[0].bits.as_slice().first().copied() == Some(Start::Label(0)));
    assert!(rt; words[1].bits.as_slice().first().copied() == Some(Start::Label(1)));
    assert!(rt; words[1].bits.as_slice().get(1).copied() == Some(Start::Public(false)));
    assert!(rt; values(&setup, 9) == [Start::Public(false), Start::Public(true)].as_slice());
    assert!(rt; values(&setup, 23) == [Start::Public(true), Start::Public(true)].as_slice());
    assert!(rt; start(&setup, 71) == Some(Start::Public(false)));
    Ok(())
}

#[test]
fn flops_and_inputs_start_at_shares(rt: HostRuntime) -> Result<(), Fail> {
    let rows =
        "in rst_n\nin en\nin d\nq = $_DFF_PN0_(D: e, C: clk, R: rst_n, Q: q)\ne = MUX(q, d, en)";
    let file = "secret a 1 2\nclock clk\ninput rst_n 1\ninput en 0 1\ninput d a.1\nreg q a.0";
    let setup = bound(&rt, rt.alloc(), rows, file)?;
    let starts = [
        Start::Public(false),
        Start::Public(true),
        Start::Public(false),
        Start::Label(1),
        Start::Label(0),
        Start::Public(false),
    ];
    assert!(rt; setup.starts.as_slice() == starts.as_slice());
    assert!(rt; values(&setup, 2) == [Start::Public(false), Start::Public(true)].as_slice());
    assert!(rt; values(&setup, 3) == [Start::Label(1)].as_slice());
    let [control] = setup.controls.as_slice() else {
        panic!(rt; "one control");
    };
    assert!(rt; is_control(Some(control), "rst_n", 1, When::Always));
    Ok(())
}

#[test]
fn an_echo_starts_at_0_and_names_its_source(rt: HostRuntime) -> Result<(), Fail> {
    let rows = "q0 = FLOP(q0)\nq1 = FLOP(q1)\nin e\ny = XOR(e, q1)";
    let file = "secret a 1 2\nclock clk\nreg q0 a.0\nreg q1 a.1\necho e q0";
    let setup = bound(&rt, rt.alloc(), rows, file)?;
    let [echo] = setup.echoes.as_slice() else {
        panic!(rt; "one echo");
    };
    assert!(rt; echo.bit == 3 && echo.source == Wire::Bit(1));
    assert!(rt; start(&setup, 3) == Some(Start::Public(false)));
    assert!(rt; setup.inputs.is_empty() && setup.controls.is_empty());
    Ok(())
}

#[test]
fn a_reset_is_a_control_of_its_input(rt: HostRuntime) -> Result<(), Fail> {
    let rows = "in rst\nq = $_DFF_PN0_(D: q, C: clk, R: rst, Q: q)";
    let setup = bound(&rt, rt.alloc(), rows, "clock clk\ninput rst 1 0")?;
    assert!(rt; values(&setup, 1) == [Start::Public(true), Start::Public(false)].as_slice());
    let [control] = setup.controls.as_slice() else {
        panic!(rt; "one control");
    };
    assert!(rt; is_control(Some(control), "rst", 1, When::Always));
    Ok(())
}

#[test]
fn fresh_labels_are_counted_within_a_cycle(rt: HostRuntime) -> Result<(), Fail> {
    let file = "mask m 1\nclock clk\nfresh f x\nfresh g y\ninput h m 0";
    let setup = bound(&rt, rt.alloc(), "in f 2\nin g\nin h", file)?;
    assert!(rt;
        start(&setup, 1) == Some(Start::Fresh(0))
            && start(&setup, 2) == Some(Start::Fresh(1))
            && start(&setup, 3) == Some(Start::Fresh(2))
    );
    assert!(rt; values(&setup, 3) == [Start::Fresh(2)].as_slice());
    assert!(rt; values(&setup, 4) == [Start::Label(0), Start::Public(false)].as_slice());
    assert!(rt; setup.table.per_cycle == 3 && setup.table.declared == 1);
    let [first, second] = setup.table.fresh.as_slice() else {
        panic!(rt; "two fresh masks");
    };
    assert!(rt; first.first == 0 && first.width == 2 && second.first == 2 && second.width == 1);
    Ok(())
}

/// A memory port whose value is a flop's bit and 31 zeros: req 1, we 2, be 3 to 6, addr 7 to 38, rdata 39 to 70, q 71.
const LEAVES: &str =
    "in req\nin we\nin be 4\nin addr 32\nin rdata 32\nq = FLOP(q)\nnet wd = q, 0, 0, 0, 0, 0, 0, 0, 0, \
    0, 0, 0, 0, 0, 0, 0, 0, 0, 0, 0, 0, 0, 0, 0, 0, 0, 0, 0, 0, 0, 0, 0";

const LEAF_LINES: &str =
    "version 2\nsecret a 1 2\nclock clk\nreg q a.1\ndmem req we be addr wd rdata\ninput req 1\n\
    input we 1\ninput be 15\ninput addr 0x10000\nmem 0x10000 a.0";

#[test]
fn without_leaf_lines_no_word_is_a_leaf(rt: HostRuntime) -> Result<(), Fail> {
    let setup = bound(&rt, rt.alloc(), LEAVES, LEAF_LINES)?;
    assert!(rt; setup.leaves.is_empty() && setup.starts.len() == 72);
    let [memory] = setup.memories.as_slice() else {
        panic!(rt; "one port");
    };
    assert!(rt; memory.value.as_slice().first().copied() == Some(Wire::Bit(71)));
    assert!(rt; memory.value.as_slice().get(31).copied() == Some(Wire::Const(false)));
    Ok(())
}

#[test]
fn a_word_leaf_starts_as_its_word(rt: HostRuntime) -> Result<(), Fail> {
    let alloc = rt.alloc();
    let file = format!(in alloc; "{LEAF_LINES}\nleaf 0x10004\nleaf 0x10000")?;
    let setup = bound(&rt, alloc, LEAVES, &file)?;
    assert_eq!(rt; setup.starts.len(), 136);
    let [first, second] = setup.leaves.as_slice() else {
        panic!(rt; "two leaves");
    };
    assert!(rt; first.address == 65540 && first.bits.as_slice().first().copied() == Some(72));
    assert!(rt; second.address == 65536 && second.bits.as_slice().first().copied() == Some(104));
    assert!(rt; second.bits.as_slice().get(31).copied() == Some(135));
    assert!(rt;
        start(&setup, 72) == Some(Start::Public(false))
            && start(&setup, 104) == Some(Start::Label(0))
    );
    assert!(rt; start(&setup, 105) == Some(Start::Public(false)));
    Ok(())
}

#[test]
fn a_word_leaf_is_bound_whatever_the_write_is(rt: HostRuntime) -> Result<(), Fail> {
    let alloc = rt.alloc();
    let lines =
        "version 2\nsecret a 1 2\nclock clk\nreg q a.1\ndmem req we be addr wd rdata\ninput req 1\n\
        input we 0\ninput be 15\ninput addr 0x10000\nmem 0x10000 a.0\nleaf 0x10000";
    let setup = bound(&rt, alloc, LEAVES, lines)?;
    assert!(rt; setup.starts.len() == 104 && setup.leaves.len() == 1);
    assert!(rt; values(&setup, 2) == [Start::Public(false)].as_slice());
    assert!(rt; start(&setup, 72) == Some(Start::Label(0)));
    Ok(())
}
