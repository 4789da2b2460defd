//! Binding label files to a small circuit.
ghost use Rattle.label_file.specs.Conditions.{AreLabels};

use crate::{BindFault, bind, widen};
use coco_base::{
    Flat, FlatFlop, FlatNet, FlatPort, Limits, List, NoMemory, Setup, Start, Text, When, Wire,
};
use gate_graph::{build, can_build};
use label_file::{Labels, read_labels};
use rv_asm::Image;
use std::alloc::{AllocError, Global};
use std::process::Abort;
use std::test::Fail;

/// So many wires from a bit on.
fn wires(alloc: Global, first: u32, width: u32) -> Result<List<Wire>, NoMemory> {
    let mut wires = List::new(alloc);
    for place in 0..width {
        wires.push(Wire::Bit(first.saturating_add(place)))?;
    }
    Ok(wires)
}

fn ports(alloc: Global, rows: &[(&str, u32, u32)]) -> Result<List<FlatPort>, NoMemory> {
    let mut ports = List::new(alloc);
    for (name, first, width) in rows {
        ports.push(FlatPort {
            name: Text::of(alloc, name)?,
            input: true,
            wires: wires(alloc, *first, *width)?,
        })?;
    }
    Ok(ports)
}

fn nets(alloc: Global, rows: &[(&str, u32, u32)]) -> Result<List<FlatNet>, NoMemory> {
    let mut nets = List::new(alloc);
    for (name, first, width) in rows {
        nets.push(FlatNet {
            name: Text::of(alloc, name)?,
            wires: wires(alloc, *first, *width)?,
        })?;
    }
    Ok(nets)
}

/// Flops on the clock 0, the first of which has the reset given.
fn flops(
    alloc: Global,
    rows: &[(&str, u32)],
    reset: Option<Wire>,
) -> Result<List<FlatFlop>, NoMemory> {
    let mut flops = List::new(alloc);
    for (name, output) in rows {
        flops.push(FlatFlop {
            name: Text::of(alloc, name)?,
            clock: Wire::Bit(0),
            next: Wire::Bit(*output),
            output: *output,
            reset,
            level: false,
        })?;
    }
    Ok(flops)
}

const PORTS: [(&str, u32, u32); 9] = [
    ("addr", 11, 32),
    ("be", 7, 4),
    ("clk", 0, 1),
    ("rdata", 43, 32),
    ("req", 5, 1),
    ("rst", 2, 1),
    ("s", 1, 1),
    ("spare", 3, 2),
    ("we", 6, 1),
];

const NETS: [(&str, u32, u32); 8] = [
    ("hi", 4, 1),
    ("lo", 3, 1),
    ("none", 0, 0),
    ("q", 75, 3),
    ("q0", 75, 1),
    ("s[0]", 2, 1),
    ("spare", 76, 1),
    ("wdata", 78, 32),
];

/// A clock, inputs, a memory port, and three flops with a reset. A flop's bit and a port share the name `spare`, and a
/// net is called `s[0]`.
fn circuit(alloc: Global) -> Result<Flat, NoMemory> {
    Ok(Flat {
        bits: 110,
        ports: ports(alloc, &PORTS)?,
        cells: List::new(alloc),
        flops: flops(
            alloc,
            &[("f0", 75), ("f1", 76), ("f2", 77)],
            Some(Wire::Bit(2)),
        )?,
        nets: nets(alloc, &NETS)?,
    })
}

fn image(alloc: Global) -> Result<Image, AllocError> {
    Ok(Image {
        text: List::from_vec(vec![in alloc; 0x13, 0x93]?),
        values: List::from_vec(vec![in alloc; 5, 6]?),
        lines: List::from_vec(vec![in alloc; 1, 3]?),
    })
}

fn labels(rt: &impl Abort, alloc: Global, file: &[u8]) -> Labels
    ensures { AreLabels result }
{
    assert!(rt; file.len() < 16_000_000);
    let read = read_labels(alloc, file, &Limits::usual());
    assert!(rt; read.is_ok());
    read.expect(rt, "labels")
}

fn bound(rt: &impl Abort, alloc: Global, file: &[u8]) -> Result<Result<Setup, BindFault>, Fail> {
    let flat = circuit(alloc)?;
    assert!(rt; can_build(&flat));
    let Ok(graph) = build(alloc, &flat) else {
        panic!(rt; "no graph");
    };
    let labels = labels(rt, alloc, file);
    Ok(bind(alloc, &graph, &flat, &image(alloc)?, &labels))
}

/// A refusal's kind and the name in it.
fn shown(fault: &BindFault) -> (&str, &str) {
    match fault {
        BindFault::NoSuchNet { name } => ("no net", name.as_str()),
        BindFault::Width { name } => ("width", name.as_str()),
        BindFault::WrongDriver { name } => ("driver", name.as_str()),
        BindFault::ClockMismatch { name } => ("clock", name.as_str()),
        BindFault::BoundTwice { name } => ("twice", name.as_str()),
        BindFault::InputUnbound { name } => ("unbound", name.as_str()),
        BindFault::NameTaken { name } => ("taken", name.as_str()),
        BindFault::LeafBits { .. } => ("bits", ""),
        BindFault::Memory => ("memory", ""),
    }
}

/// Each file meets its refusal.
fn check_rows(rt: &impl Abort, alloc: Global, rows: &[(&str, &str, &str)]) -> Result<(), Fail> {
    for (file, kind, name) in rows {
        match bound(rt, alloc, file.as_bytes())? {
            Ok(_) => assert!(rt; *kind == "bound", "{file} is bound"),
            Err(fault) => {
                let (found, named) = shown(&fault);
                assert!(rt; found == *kind && named == *name, "{file}: {found} {named}");
            }
        }
    }
    Ok(())
}

#[test]
fn the_first_fault_of_a_line_is_answered(rt: HostRuntime) -> Result<(), Fail> {
    let rows = [
        ("reg nosuch 0", "no net", "nosuch"),
        ("reg nosuch[7] 0", "no net", "nosuch[7]"),
        ("reg q[3] 0", "width", "q[3]"),
        (
            "reg q[99999999999999999999] 0",
            "width",
            "q[99999999999999999999]",
        ),
        ("reg q 8", "width", "q"),
        ("reg s 2", "width", "s"),
        ("reg s 1", "driver", "s"),
        ("input q0 1", "driver", "q0"),
        ("input spare 1", "driver", "spare"),
        ("reg clk 0", "driver", "clk"),
        ("input clk 0", "clock", "clk"),
        ("clock clk\ninput clk 0", "clock", "clk"),
        ("clock rst", "clock", "rst"),
        ("clock lo\ninput rst 1", "unbound", "clk"),
        ("input rst 1\ninput s[0] 1", "twice", "s[0]"),
        ("reg q[0] 1\nreg q0[0] 1", "twice", "q0[0]"),
    ];
    check_rows(&rt, rt.alloc(), &rows)
}

#[test]
fn each_form_of_line_has_its_faults(rt: HostRuntime) -> Result<(), Fail> {
    let rows = [
        ("echo s q", "width", "q"),
        ("echo q0 s", "driver", "q0"),
        ("echo s q0\ninput s 0", "twice", "s"),
        ("echo nosuch nosuch", "no net", "nosuch"),
        ("imem req addr s", "width", "s"),
        ("dmem req we s addr wdata rdata", "width", "s"),
        ("dmem req we be none wdata rdata", "width", "none"),
        ("pc none", "width", "none"),
        ("control nosuch", "no net", "nosuch"),
        ("input none 0\ncontrol none\nfresh none f", "unbound", "clk"),
        (
            "clock clk\ninput s 0\ninput rst 1\ninput lo 0",
            "unbound",
            "hi",
        ),
        ("", "unbound", "clk"),
    ];
    check_rows(&rt, rt.alloc(), &rows)
}

const LINES: &[u8] = b"secret a 3 2\nclock clk\nfresh s r\ninput rst 1 0\ninput lo 0\nfresh hi t\n\
    dmem req we be addr wdata rdata\ninput req 1\ninput we 0\ninput be 15\ninput addr 0x10000\nreg q a.1\n\
    mem 0x10004 a.0\npc q\n";

#[test]
fn a_file_is_bound(rt: HostRuntime) -> Result<(), Fail> {
    let Ok(setup) = bound(&rt, rt.alloc(), LINES)? else {
        panic!(rt; "a fault");
    };
    let starts = setup.starts.as_slice();
    assert_eq!(rt; starts.len(), 110);
    assert!(rt; starts[75] == Start::Label(3) && starts[77] == Start::Label(5));
    assert!(rt; starts[1] == Start::Fresh(0) && starts[4] == Start::Fresh(1));
    assert!(rt; starts[2] == Start::Public(true) && starts[27] == Start::Public(true));
    assert!(rt; starts[43] == Start::Public(false));
    assert!(rt; setup.clock == Some(0) && setup.table.per_cycle == 2);
    assert_eq!(rt; setup.pc.len(), 3);
    assert_eq!(rt; setup.inputs.len(), 42);
    Ok(())
}

#[test]
fn a_memory_and_its_words_are_bound(rt: HostRuntime) -> Result<(), Fail> {
    let Ok(setup) = bound(&rt, rt.alloc(), LINES)? else {
        panic!(rt; "a fault");
    };
    let words = setup.words.as_slice();
    assert_eq!(rt; words.len(), 1026);
    assert!(rt; words[1].address == 4 && words[2].address == 65536 && words[3].address == 65540);
    assert!(rt; words[3].bits.as_slice().first().copied() == Some(Start::Label(0)));
    let [memory] = setup.memories.as_slice() else {
        panic!(rt; "one port");
    };
    assert!(rt; memory.request == Wire::Bit(5) && memory.write == Some(Wire::Bit(6)));
    assert!(rt; memory.address.as_slice().first().copied() == Some(Wire::Bit(11)));
    let controls = setup.controls.as_slice();
    assert_eq!(rt; controls.len(), 44);
    assert!(rt; controls[1].name.as_str() == "we" && controls[1].when == When::Requested(0));
    assert!(rt; controls[2].name.as_str() == "be[0]" && controls[2].when == When::Written(0));
    assert!(rt; controls[6].name.as_str() == "addr[0]" && controls[41].name.as_str() == "rst");
    Ok(())
}

/// A netlist with the ports of two words, where it may have so many bits.
fn widened(rt: &impl Abort, alloc: Global, flat: &Flat, bits: u32) -> Result<Flat, BindFault> {
    let labels = labels(rt, alloc, b"version 2\nleaf 0x10000\nleaf 0x2c\n");
    let mut limits = Limits::usual();
    limits.bits = bits;
    widen(alloc, flat, &labels, &limits)
}

#[test]
fn leaf_lines_widen_a_netlist(rt: HostRuntime) -> Result<(), Fail> {
    let flat = circuit(rt.alloc())?;
    let Ok(wide) = widened(&rt, rt.alloc(), &flat, 174) else {
        panic!(rt; "a fault");
    };
    assert_eq!(rt; wide.bits, 174);
    let ports = wide.ports.as_slice();
    assert_eq!(rt; ports.len(), 11);
    assert!(rt;
        ports[3].name.as_str() == "mem@0000002c" && ports[4].name.as_str() == "mem@00010000"
    );
    assert!(rt; ports[3].wires.as_slice().first().copied() == Some(Wire::Bit(142)));
    assert!(rt; ports[4].wires.as_slice().first().copied() == Some(Wire::Bit(110)));
    Ok(())
}

#[test]
fn bits_above_the_limit_are_refused(rt: HostRuntime) -> Result<(), Fail> {
    let flat = circuit(rt.alloc())?;
    let Err(fault) = widened(&rt, rt.alloc(), &flat, 173) else {
        panic!(rt; "within the limit");
    };
    assert!(rt; shown(&fault) == ("bits", ""));
    Ok(())
}

#[test]
fn a_name_that_is_taken_is_refused_first(rt: HostRuntime) -> Result<(), Fail> {
    let flat = circuit(rt.alloc())?;
    let Ok(wide) = widened(&rt, rt.alloc(), &flat, 174) else {
        panic!(rt; "a fault");
    };
    let Err(fault) = widened(&rt, rt.alloc(), &wide, 174) else {
        panic!(rt; "widened twice");
    };
    assert!(rt; shown(&fault) == ("taken", "mem@00010000"));
    Ok(())
}
