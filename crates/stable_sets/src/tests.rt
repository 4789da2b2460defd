mod cases;
mod circuits;
mod runs;
mod selections;

use cases::{Case, Claim, tells};
use coco_base::{Kind, Node};
use runs::{NOTHING, both};
use std::alloc::Global;
use std::test::Fail;

// bits clk, q0, q1, y of two registers and their exclusive or
fn two_registers(alloc: Global, order: u32, window: u32, claim: Claim) -> Result<bool, Fail> {
    let case = Case {
        circuit: "q0 = FLOP(q0)\nq1 = FLOP(q1)\ny = XOR(q0, q1)",
        known: "0vvv",
        cycles: 1,
        nodes: &[
            NOTHING,
            Node::Label(0),
            Node::Label(1),
            both(Kind::Xor, 1, 2),
        ],
        chosen: &[(3, 3)],
    };
    tells(alloc, case, order, window, claim)
}

#[test]
fn both_shares_at_one_probe_are_a_finding(rt: HostRuntime) -> Result<(), Fail> {
    let good = Claim {
        probes: &[(3, 0)],
        pairs: &[(1, 0), (2, 0)],
        labels: &[0, 1],
    };
    for window in [1, 2, 64] {
        assert!(rt; two_registers(rt.alloc(), 1, window, good)?);
    }
    assert!(rt; !two_registers(rt.alloc(), 1, 0, good)?);
    assert!(rt; !two_registers(rt.alloc(), 0, 1, good)?);
    Ok(())
}

#[test]
fn probes_are_some_and_few_ascend_and_are_of_the_run(rt: HostRuntime) -> Result<(), Fail> {
    for (probes, first, second) in [
        (&[][..], false, false),
        (&[(3, 0)], true, true),
        (&[(1, 0), (3, 0)], false, true),
        (&[(3, 0), (1, 0)], false, false),
        (&[(3, 0), (3, 0)], false, false),
        (&[(1, 0), (2, 0)], false, true),
        (&[(0, 0), (3, 0)], false, false),
        (&[(3, 0), (4, 0)], false, false),
        (&[(3, 0), (3, 1)], false, false),
        (&[(1, 0)], false, false),
        (&[(1, 0), (2, 0), (3, 0)], false, false),
    ] {
        let claim = Claim {
            probes,
            pairs: &[(1, 0), (2, 0)],
            labels: &[0, 1],
        };
        assert_eq!(rt; two_registers(rt.alloc(), 1, 1, claim)?, first);
        assert_eq!(rt; two_registers(rt.alloc(), 2, 1, claim)?, second);
    }
    Ok(())
}

#[test]
fn pairs_ascend_are_shown_and_give_the_set(rt: HostRuntime) -> Result<(), Fail> {
    for (pairs, labels) in [
        (&[(1, 0)][..], &[0, 1][..]),
        (&[(1, 0)], &[0]),
        (&[(2, 0), (1, 0)], &[0, 1]),
        (&[(1, 0), (1, 0)], &[]),
        (&[], &[]),
        (&[(1, 0), (2, 0)], &[0]),
        (&[(1, 0), (2, 0)], &[0, 1, 4]),
        (&[(0, 0), (1, 0), (2, 0)], &[0, 1]),
        (&[(3, 0)], &[0, 1]),
        (&[(1, 0), (2, 0), (4, 0)], &[0, 1]),
        (&[(1, 0), (2, 0), (1, 1)], &[0, 1]),
        (&[(1, 0), (2, 0), (1, u32::MAX)], &[0, 1]),
    ] {
        let claim = Claim {
            probes: &[(3, 0)],
            pairs,
            labels,
        };
        assert!(rt; !two_registers(rt.alloc(), 1, 1, claim)?);
    }
    Ok(())
}

#[test]
fn the_old_value_of_a_register_is_shown(rt: HostRuntime) -> Result<(), Fail> {
    let case = Case {
        circuit: "f = FLOP(g)\ng = FLOP(g)",
        known: "0vv 0vv",
        cycles: 2,
        nodes: &[
            NOTHING,
            Node::Label(0),
            Node::Label(1),
            NOTHING,
            Node::Copy(2),
            Node::Copy(2),
        ],
        chosen: &[],
    };
    let late = Claim {
        probes: &[(1, 1)],
        pairs: &[(1, 0), (1, 1)],
        labels: &[0, 1],
    };
    assert!(rt; tells(rt.alloc(), case, 1, 1, late)?);
    let early = Claim {
        probes: &[(1, 0)],
        ..late
    };
    assert!(rt; !tells(rt.alloc(), case, 1, 1, early)?);
    assert!(rt; tells(rt.alloc(), case, 1, 2, early)?);
    Ok(())
}

// bits clk, q0, q1, n, w, y: two shares and a label, all of which y reaches
fn three_registers(alloc: Global, label: u32, claim: Claim) -> Result<bool, Fail> {
    let case = Case {
        circuit: "q0 = FLOP(q0)\nq1 = FLOP(q1)\nn = FLOP(n)\nw = XOR(q0, n)\ny = XOR(w, q1)",
        known: "0vvvvv",
        cycles: 1,
        nodes: &[
            NOTHING,
            Node::Label(0),
            Node::Label(1),
            Node::Label(label),
            both(Kind::Xor, 1, 3),
            both(Kind::Xor, 4, 2),
        ],
        chosen: &[(4, 3), (5, 3)],
    };
    tells(alloc, case, 1, 1, claim)
}

#[test]
fn a_set_with_a_mask_or_a_fresh_label_shows_no_leak(rt: HostRuntime) -> Result<(), Fail> {
    for label in [2, 3, 4, 5] {
        let with = Claim {
            probes: &[(5, 0)],
            pairs: &[(1, 0), (2, 0), (3, 0)],
            labels: &[0, 1, label],
        };
        assert!(rt; !three_registers(rt.alloc(), label, with)?);
        let without = Claim {
            pairs: &[(1, 0), (2, 0)],
            labels: &[0, 1],
            ..with
        };
        assert!(rt; three_registers(rt.alloc(), label, without)?);
    }
    Ok(())
}
