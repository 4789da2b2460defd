use crate::{Refusal, refusal_line};
use bind_run::BindFault;
use coco_base::{List, NoMemory, Text};
use cycle_sim::SimFault;
use derivation_check::ProofFault;
use gate_graph::GraphFault;
use label_cone::ConeFault;
use label_file::LabelFault;
use netlist_json::NetFault;
use rv_asm::AsmFault;
use std::alloc::Global;
use std::process::Abort;
use std::test::Fail;
use unroll::UnrollFault;

/// A name with a line feed and a delete character, which is printed as `a?b?`.
fn name(alloc: Global) -> Result<Text, NoMemory> {
    Text::of(alloc, "a\nb\u{7f}")
}

/// The line of a refusal is this text after `refused `, and a line feed.
fn check_line(rt: &impl Abort, alloc: Global, refusal: &Refusal, text: &str) -> Result<(), Fail> {
    let line = refusal_line(alloc, refusal)?;
    let wanted = format!(in alloc; "refused {text}\n")?;
    assert_eq!(rt; line.as_slice(), wanted.as_bytes(), "{text}");
    Ok(())
}

fn check_net(rt: &impl Abort, alloc: Global, fault: NetFault, text: &str) -> Result<(), Fail> {
    check_line(rt, alloc, &Refusal::Net(fault), text)
}

fn check_bind(rt: &impl Abort, alloc: Global, fault: BindFault, text: &str) -> Result<(), Fail> {
    check_line(rt, alloc, &Refusal::Bind(fault), text)
}

fn check_sim(rt: &impl Abort, alloc: Global, fault: SimFault, text: &str) -> Result<(), Fail> {
    let fault = UnrollFault::Sim {
        fault,
        name: name(alloc)?,
    };
    check_line(rt, alloc, &Refusal::Unroll(fault), text)
}

#[test]
fn a_netlist_that_is_not_read_has_the_lines_from_101_on(rt: HostRuntime) -> Result<(), Fail> {
    let alloc = rt.alloc();
    check_net(&rt, alloc, NetFault::NotJson, "101 not JSON")?;
    check_net(&rt, alloc, NetFault::NoTop, "102 no top module")?;
    check_net(&rt, alloc, NetFault::ManyTops, "103 several modules")?;
    let path = name(alloc)?;
    check_net(&rt, alloc, NetFault::Shape { path }, "104 shape a?b?")?;
    let (cell, kind) = (name(alloc)?, Text::of(alloc, "$_DFF_N_")?);
    let unknown = NetFault::UnknownCell { cell, kind };
    check_net(&rt, alloc, unknown, "105 cell a?b? type $_DFF_N_")?;
    let (cell, port) = (name(alloc)?, Text::of(alloc, "Y")?);
    let bad = NetFault::BadConnection { cell, port };
    check_net(&rt, alloc, bad, "106 cell a?b? port Y")?;
    let port = name(alloc)?;
    check_net(&rt, alloc, NetFault::Inout { port }, "107 inout port a?b?")?;
    let (count, limit) = (1_000_001, 1_000_000);
    let many = NetFault::TooMany { count, limit };
    check_net(&rt, alloc, many, "108 bits 1000001 limit 1000000")
}

#[test]
fn a_netlist_without_a_graph_has_the_lines_from_111_on(rt: HostRuntime) -> Result<(), Fail> {
    let alloc = rt.alloc();
    let (bit, first, second) = (
        name(alloc)?,
        Text::of(alloc, "c_y")?,
        Text::of(alloc, "c_z")?,
    );
    let twice = Refusal::Graph(GraphFault::TwoDrivers { bit, first, second });
    check_line(&rt, alloc, &twice, "111 bit a?b? drivers c_y c_z")?;
    let mut cells = List::new(alloc);
    cells.push(Text::of(alloc, "c_y")?)?;
    cells.push(name(alloc)?)?;
    let cycle = Refusal::Graph(GraphFault::Loop { cells });
    check_line(&rt, alloc, &cycle, "112 loop c_y a?b?")?;
    let cell = name(alloc)?;
    let clock = Refusal::Graph(GraphFault::SecondClock { cell });
    check_line(&rt, alloc, &clock, "113 clock of cell a?b?")
}

#[test]
fn a_program_that_is_not_read_has_the_lines_from_201_on(rt: HostRuntime) -> Result<(), Fail> {
    let line = 12;
    for (fault, text) in [
        (AsmFault::BadLine { line }, "201 bad program line 12"),
        (AsmFault::UnknownName { line }, "202 unknown name line 12"),
        (AsmFault::Range { line }, "203 range line 12"),
        (AsmFault::Twice { line }, "204 defined twice line 12"),
    ] {
        check_line(&rt, rt.alloc(), &Refusal::Asm(fault), text)?;
    }
    Ok(())
}

#[test]
fn a_label_file_that_is_not_read_has_the_lines_from_301_on(rt: HostRuntime) -> Result<(), Fail> {
    let line = 7;
    let (count, limit) = (4_097, 4_096);
    for (fault, text) in [
        (LabelFault::BadLine { line }, "301 bad label line 7"),
        (LabelFault::Twice { line }, "302 twice line 7"),
        (
            LabelFault::UnknownSecret { line },
            "303 unknown label line 7",
        ),
        (LabelFault::ShareRange { line }, "304 share range line 7"),
        (
            LabelFault::TooMany { count, limit },
            "305 labels 4097 limit 4096",
        ),
    ] {
        check_line(&rt, rt.alloc(), &Refusal::Label(fault), text)?;
    }
    Ok(())
}

#[test]
fn a_label_file_that_does_not_fit_has_the_lines_from_311_on(rt: HostRuntime) -> Result<(), Fail> {
    let alloc = rt.alloc();
    let net = BindFault::NoSuchNet { name: name(alloc)? };
    check_bind(&rt, alloc, net, "311 no net a?b?")?;
    let width = BindFault::Width { name: name(alloc)? };
    check_bind(&rt, alloc, width, "312 width of a?b?")?;
    let twice = BindFault::BoundTwice { name: name(alloc)? };
    check_bind(&rt, alloc, twice, "313 bound twice a?b?")?;
    let unbound = BindFault::InputUnbound { name: name(alloc)? };
    check_bind(&rt, alloc, unbound, "314 input unbound a?b?")?;
    let clock = BindFault::ClockMismatch { name: name(alloc)? };
    check_bind(&rt, alloc, clock, "315 clock a?b?")?;
    let driver = BindFault::WrongDriver { name: name(alloc)? };
    check_bind(&rt, alloc, driver, "316 driver of a?b?")?;
    let taken = BindFault::NameTaken { name: name(alloc)? };
    check_bind(&rt, alloc, taken, "317 name taken a?b?")?;
    let (count, limit) = (1_000_010, 1_000_000);
    let wide = BindFault::LeafBits { count, limit };
    check_bind(&rt, alloc, wide, "318 bits 1000010 limit 1000000")
}

#[test]
fn a_run_that_is_not_unrolled_has_the_lines_from_401_on(rt: HostRuntime) -> Result<(), Fail> {
    let alloc = rt.alloc();
    let (control, flop, cycle) = (0, 1, 3);
    let depends = SimFault::ControlDepends { control, cycle };
    check_sim(&rt, alloc, depends, "401 control a?b? cycle 3")?;
    let address = 0x2_abcd;
    let outside = SimFault::AddressOutside { cycle, address };
    check_sim(&rt, alloc, outside, "402 address 0002abcd cycle 3")?;
    let active = SimFault::ResetActive { flop, cycle };
    check_sim(&rt, alloc, active, "403 reset of cell a?b? cycle 3")?;
    let (count, limit) = (4_000_001, 4_000_000);
    let many = Refusal::Unroll(UnrollFault::TooManyNodes { count, limit });
    check_line(&rt, alloc, &many, "411 nodes 4000001 limit 4000000")
}

#[test]
fn a_file_that_is_too_long_has_the_line_100(rt: HostRuntime) -> Result<(), Fail> {
    let alloc = rt.alloc();
    let long = Refusal::Long { name: name(alloc)? };
    check_line(&rt, alloc, &long, "100 file a?b? longer than 134217728")
}

#[test]
fn cones_that_are_too_large_have_the_line_421(rt: HostRuntime) -> Result<(), Fail> {
    let (count, limit) = (16_000_003, 16_000_000);
    let large = Refusal::Cone(ConeFault::TooLarge { count, limit });
    check_line(
        &rt,
        rt.alloc(),
        &large,
        "421 weight 16000003 limit 16000000",
    )
}

#[test]
fn a_proof_line_that_is_wrong_has_the_line_501(rt: HostRuntime) -> Result<(), Fail> {
    let bad = Refusal::Proof(ProofFault::BadLine { line: 9 });
    check_line(&rt, rt.alloc(), &bad, "501 proof line 9")
}

#[test]
fn a_proof_that_is_another_has_the_line_502(rt: HostRuntime) -> Result<(), Fail> {
    let other = Refusal::Other { line: 1 };
    check_line(&rt, rt.alloc(), &other, "502 proof line 1 differs")
}
