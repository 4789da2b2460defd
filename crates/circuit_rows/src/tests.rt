use crate::{RowFault, json, netlist};
use coco_base::{Kind, Wire};
use std::alloc::Global;
use std::test::Fail;

fn joined(alloc: Global, pieces: &[&str]) -> Result<String, Fail> {
    let mut text = String::new(alloc);
    for piece in pieces {
        text.push_str(piece)?;
    }
    Ok(text)
}

#[test]
fn rows_have_their_json(rt: HostRuntime) -> Result<(), Fail> {
    let want = joined(
        rt.alloc(),
        &[
            r#"{"modules":{"t":{"ports":{"clk":{"direction":"input","bits":[2]}},"cells":{"#,
            r#""c_q0":{"type":"$_DFF_P_","connections":{"C":[2],"D":[3],"Q":[3]}},"#,
            r#""c_q1":{"type":"$_DFF_P_","connections":{"C":[2],"D":[4],"Q":[4]}},"#,
            r#""c_y":{"type":"$_XOR_","connections":{"A":[3],"B":[4],"Y":[5]}}},"#,
            r#""netnames":{"clk":{"bits":[2]},"q0":{"bits":[3]},"q1":{"bits":[4]},"y":{"bits":[5]}}}}}"#,
        ],
    )?;
    let text = json(
        rt.alloc(),
        "q0 = FLOP(q0)\nq1 = FLOP(q1)\ny = XOR(q0, q1)\n",
    )?;
    assert_eq!(rt; text.as_slice(), want.as_bytes());
    Ok(())
}

#[test]
fn nets_of_several_bits_and_constants_have_their_json(rt: HostRuntime) -> Result<(), Fail> {
    let want = joined(
        rt.alloc(),
        &[
            r#"{"modules":{"t":{"ports":{"clk":{"direction":"input","bits":[2]},"#,
            r#""s":{"direction":"input","bits":[4,5]}},"cells":{"#,
            r#""c_p":{"type":"$_DLATCH_P_","connections":{"E":[5],"D":["1"],"Q":[3]}}},"netnames":{"#,
            r#""clk":{"bits":[2]},"p":{"bits":[3]},"pc":{"bits":["0","0",3]},"s":{"bits":[4,5]}}}}}"#,
        ],
    )?;
    let rows = "p = $_DLATCH_P_(E: s[1], D: 1, Q: p)\n\nin s 2\nnet pc = 0, 0, p";
    let text = json(rt.alloc(), rows)?;
    assert_eq!(rt; text.as_slice(), want.as_bytes());
    Ok(())
}

#[test]
fn a_flat_netlist_stands_in_the_order_of_names(rt: HostRuntime) -> Result<(), Fail> {
    let rows = "y = XOR(q, s)\nq = FLOP(y)\nin s\nopen loose\n";
    let flat = netlist(rt.alloc(), rows)?;
    assert_eq!(rt; flat.bits, 5);
    for (port, want) in flat.ports.iter().zip(["clk", "s"]) {
        assert_eq!(rt; port.name.as_str(), want);
    }
    for (net, want) in flat.nets.iter().zip(["clk", "loose", "q", "s", "y"]) {
        assert_eq!(rt; net.name.as_str(), want);
    }
    for cell in flat.cells.iter() {
        assert_eq!(rt; cell.name.as_str(), "c_y");
        assert_eq!(rt; cell.output, 1);
    }
    for flop in flat.flops.iter() {
        assert_eq!(rt; flop.clock, Wire::Bit(0));
        assert_eq!(rt; flop.next, Wire::Bit(1));
        assert_eq!(rt; flop.output, 2);
    }
    assert_eq!(rt; flat.ports.len() + flat.cells.len() + flat.flops.len(), 4);
    Ok(())
}

#[test]
fn each_gate_has_its_kind_and_inputs(rt: HostRuntime) -> Result<(), Fail> {
    let gates = [
        ("BUF(0)", Kind::Buf, 1),
        ("NOT(0)", Kind::Not, 1),
        ("AND(0, 0)", Kind::And, 2),
        ("NAND(0, 0)", Kind::Nand, 2),
        ("OR(0, 0)", Kind::Or, 2),
        ("NOR(0, 0)", Kind::Nor, 2),
        ("XOR(0, 0)", Kind::Xor, 2),
        ("XNOR(0, 0)", Kind::Xnor, 2),
        ("ANDNOT(0, 0)", Kind::AndNot, 2),
        ("ORNOT(0, 0)", Kind::OrNot, 2),
        ("MUX(0, 0, 0)", Kind::Mux, 3),
        ("NMUX(0, 0, 0)", Kind::Nmux, 3),
        ("AOI3(0, 0, 0)", Kind::Aoi3, 3),
        ("OAI3(0, 0, 0)", Kind::Oai3, 3),
        ("AOI4(0, 0, 0, 0)", Kind::Aoi4, 4),
        ("OAI4(0, 0, 0, 0)", Kind::Oai4, 4),
    ];
    for (gate, kind, inputs) in gates {
        let ones = format!(in rt.alloc(); "y = {gate}")?;
        let flat = netlist(rt.alloc(), ones.as_str())?;
        for cell in flat.cells.iter() {
            assert_eq!(rt; cell.kind, kind);
        }
        assert_eq!(rt; flat.cells.len(), 1);
        let more = format!(in rt.alloc(); "y = {gate} 0")?;
        assert_eq!(rt; json(rt.alloc(), more.as_str()).is_err(), inputs > 0);
    }
    Ok(())
}

#[test]
fn flops_with_a_reset_are_flat(rt: HostRuntime) -> Result<(), Fail> {
    for (kind, level) in [
        ("$_DFF_PN0_", false),
        ("$_DFF_PN1_", false),
        ("$_DFF_PP0_", true),
        ("$_DFF_PP1_", true),
    ] {
        let rows = format!(in rt.alloc(); "in rst\nq = {kind}(C: clk, D: q, R: rst, Q: q)")?;
        let flat = netlist(rt.alloc(), rows.as_str())?;
        for flop in flat.flops.iter() {
            assert_eq!(rt; flop.reset, Some(Wire::Bit(1)));
            assert_eq!(rt; flop.level, level);
        }
        assert_eq!(rt; flat.flops.len(), 1);
    }
    Ok(())
}

#[test]
fn texts_outside_are_answered_with_their_line(rt: HostRuntime) {
    for (rows, line) in [
        ("q", 1),
        ("in s 2 3", 1),
        ("in s wide", 1),
        ("y = FOO(clk)", 1),
        ("y = AND(clk)", 1),
        ("y = NOT(clk, clk)", 1),
        ("y = $_NOT_(A: clk, Y)", 1),
        ("in s\nin s", 2),
        ("in clk", 1),
        ("\ny = NOT(x)", 2),
        ("y = NOT(clk)\nnet z = s[0]", 2),
        ("in \"", 1),
        ("y = NOT(x)\nq", 2),
    ] {
        assert_eq!(rt;
            json(rt.alloc(), rows).err(),
            Some(RowFault::Outside { line }),
            "{rows}"
        );
    }
}

#[test]
fn a_cell_of_another_type_is_not_flat(rt: HostRuntime) {
    let rows = "in e\np = $_DLATCH_P_(E: e, D: 1, Q: p)";
    assert!(rt; json(rt.alloc(), rows).is_ok());
    match netlist(rt.alloc(), rows) {
        Ok(_) => panic!(rt; "a latch is no flop"),
        Err(fault) => assert_eq!(rt; fault, RowFault::Outside { line: 2 }),
    }
}
