//! The nodes of whole runs.
use crate::nodes::{copy, is_gate, label, node, number, unrolled};
use coco_base::{Kind, Node, Part};
use std::test::Fail;

/// bits: clk 0, q0 1, q1 2, n 3, w 4, r 5, y 6
const FIVE: &str =
    "q0 = FLOP(q0)\nq1 = FLOP(q1)\nn = FLOP(n)\nw = XOR(q0, n)\nr = FLOP(w)\ny = XOR(r, q1)";

const FIVE_LABELS: &str = "secret a 1 2\nmask m 1\nclock clk\nreg q0 a.0\nreg q1 a.1\nreg n m";

#[test]
fn a_register_is_its_label_and_then_a_copy(rt: HostRuntime) -> Result<(), Fail> {
    let run = unrolled(&rt, rt.alloc(), FIVE, FIVE_LABELS, 2)?;
    let firsts = [
        (0, Some(Node::Nothing)),
        (1, label(0)),
        (2, label(1)),
        (3, label(2)),
        (5, Some(Node::Nothing)),
    ];
    for (bit, first) in firsts {
        assert!(rt; node(&run, bit, 0) == first, "{bit}");
    }
    for bit in 1..5usize {
        assert!(rt; node(&run, bit, 1) == copy(&run, bit, 0), "{bit}");
    }
    assert!(rt; node(&run, 5, 1) == copy(&run, 4, 0));
    Ok(())
}

#[test]
fn a_cell_is_a_gate_where_an_input_has_another_root(rt: HostRuntime) -> Result<(), Fail> {
    let run = unrolled(&rt, rt.alloc(), FIVE, FIVE_LABELS, 2)?;
    let second = Node::Gate {
        kind: Kind::Xor,
        parts: [Part::Vary, Part::Vary, Part::Zero, Part::Zero],
        operands: [number(&run, 5, 1), number(&run, 2, 1), 0, 0],
    };
    assert!(rt; node(&run, 6, 1) == Some(second));
    let first = Node::Gate {
        kind: Kind::Xor,
        parts: [Part::Zero, Part::Vary, Part::Zero, Part::Zero],
        operands: [0, number(&run, 2, 0), 0, 0],
    };
    assert!(rt; node(&run, 6, 0) == Some(first));
    Ok(())
}

/// bits: clk 0, s 1, q0 2, q1 3, y 4
const SELECT: &str = "in s\nq0 = FLOP(q0)\nq1 = FLOP(q1)\ny = MUX(q0, q1, s)";

#[test]
fn a_cell_is_kept_only_where_all_inputs_stay(rt: HostRuntime) -> Result<(), Fail> {
    let alloc = rt.alloc();
    let head = "secret a 1 2\nclock clk\nreg q0 a.0\nreg q1 a.1\n";
    let cases = [
        ("input s 0", true),
        ("input s 0 1", false),
        ("input s a.0", true),
        ("input s a.0 a.1", false),
        ("input s a.0 0", false),
    ];
    for (line, kept) in cases {
        let file = format!(in alloc; "{head}{line}")?;
        let run = unrolled(&rt, alloc, SELECT, &file, 2)?;
        assert!(rt; is_gate(node(&run, 4, 0)));
        assert!(rt; (node(&run, 4, 1) == copy(&run, 4, 0)) == kept, "{line}");
        assert!(rt; is_gate(node(&run, 4, 1)) != kept, "{line}");
    }
    Ok(())
}

#[test]
fn equal_values_of_other_roots_keep_no_cell(rt: HostRuntime) -> Result<(), Fail> {
    // bits: clk 0, q 1, p 2, b 3, r 4, y 5; r has b's output in the cycle before, which is q
    let rows = "q = FLOP(q)\np = FLOP(p)\nb = BUF(q)\nr = FLOP(b)\ny = XOR(r, p)";
    let file = "secret a 1 2\nclock clk\nreg q a.0\nreg p a.1\nreg r a.0";
    let run = unrolled(&rt, rt.alloc(), rows, file, 3)?;
    assert!(rt; node(&run, 4, 0) == label(0));
    assert!(rt; node(&run, 4, 1) == copy(&run, 3, 0));
    assert!(rt; is_gate(node(&run, 5, 1)));
    assert!(rt; node(&run, 4, 2) == copy(&run, 3, 1));
    assert!(rt; node(&run, 5, 2) == copy(&run, 5, 1));
    Ok(())
}

#[test]
fn a_fresh_mask_has_a_label_in_each_cycle(rt: HostRuntime) -> Result<(), Fail> {
    // bits: clk 0, x 1 and 2, q 3, y 4
    let rows = "in x 2\nq = FLOP(q)\ny = XOR(x[1], q)";
    let file = "secret a 1 2\nclock clk\nfresh x f\nreg q a.0";
    let run = unrolled(&rt, rt.alloc(), rows, file, 3)?;
    for cycle in 0..3u32 {
        assert!(rt; node(&run, 1, cycle) == label(2 + 2 * cycle));
        assert!(rt; node(&run, 2, cycle) == label(3 + 2 * cycle));
        assert!(rt; is_gate(node(&run, 4, cycle)));
    }
    Ok(())
}

#[test]
fn nodes_stand_in_the_order_of_time_over_400_cycles(rt: HostRuntime) -> Result<(), Fail> {
    // bits: clk 0, q 1, p 2, y 3; the two registers change places in each cycle
    let rows = "q = FLOP(p)\np = FLOP(q)\ny = AND(q, p)";
    let file = "secret a 1 2\nclock clk\nreg q a.0\nreg p a.1";
    let run = unrolled(&rt, rt.alloc(), rows, file, 400)?;
    assert!(rt; run.cycles == 400 && run.nodes.len() == 1600);
    for (bit, other) in [(1usize, 2usize), (2, 1)] {
        assert!(rt; node(&run, bit, 1) == copy(&run, other, 0));
        assert!(rt; node(&run, bit, 398) == copy(&run, other, 397));
        assert!(rt; node(&run, bit, 399) == copy(&run, other, 398));
    }
    for cycle in 0..400u32 {
        assert!(rt; node(&run, 0, cycle) == Some(Node::Nothing) && is_gate(node(&run, 3, cycle)));
    }
    Ok(())
}
