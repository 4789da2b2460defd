//! Findings of circuits over several cycles.
use super::cases::{Case, Claim, tells};
use super::runs::{NOTHING, ONE, VARY, ZERO, both, gate};
use coco_base::{Kind, NoMemory, Node};
use std::alloc::Global;
use std::test::Fail;

const FALSE_ALARM: &str =
    "q0 = FLOP(q0)\nq1 = FLOP(q1)\nn = FLOP(n)\nrp = FLOP(p)\nro = FLOP(o)\nz = FLOP(v)
p = AND(q0, n)\no = OR(q0, n)\nv = XOR(rp, ro)\ny = XOR(z, q1)";

fn add_copies(nodes: &mut Vec<Node>, origins: &[u32]) -> Result<(), NoMemory> {
    for origin in origins {
        nodes.push(Node::Copy(*origin))?;
    }
    Ok(())
}

// three cycles of clk, q0, q1, n, rp, ro, z, p, o, v, y: z is masked in truth, since q0 AND n and q0 OR n differ by
// q0 XOR n
fn false_alarm_nodes(alloc: Global) -> Result<Vec<Node>, NoMemory> {
    let first = [
        NOTHING,
        Node::Label(0),
        Node::Label(1),
        Node::Label(4),
        NOTHING,
        NOTHING,
        NOTHING,
        both(Kind::And, 1, 3),
        both(Kind::Or, 1, 3),
        NOTHING,
        gate(Kind::Xor, ZERO, VARY, [0, 2]),
    ];
    let mut nodes = Vec::from_slice(alloc, &first)?;
    nodes.push(NOTHING)?;
    add_copies(&mut nodes, &[1, 2, 3, 7, 8])?;
    nodes.push(NOTHING)?;
    add_copies(&mut nodes, &[7, 8])?;
    nodes.push(both(Kind::Xor, 15, 16))?;
    add_copies(&mut nodes, &[10])?;
    nodes.push(NOTHING)?;
    add_copies(&mut nodes, &[12, 13, 14, 18, 19, 20, 18, 19, 20])?;
    nodes.push(both(Kind::Xor, 28, 24))?;
    Ok(nodes)
}

fn false_alarm(alloc: Global, chosen: &[(usize, u8)], claim: Claim) -> Result<bool, Fail> {
    let nodes = false_alarm_nodes(alloc)?;
    let case = Case {
        circuit: FALSE_ALARM,
        known: "0vvv000vv0v 0vvvvv0vvvv 0vvvvvvvvvv",
        cycles: 3,
        nodes: nodes.as_slice(),
        chosen,
    };
    tells(alloc, case, 1, 1, claim)
}

#[test]
fn a_masked_register_is_a_finding_by_one_input_of_each_gate(rt: HostRuntime) -> Result<(), Fail> {
    let claim = Claim {
        probes: &[(10, 2)],
        pairs: &[(2, 2), (6, 2)],
        labels: &[0, 1],
    };
    for (and, or, told) in [
        (1, 0, true),
        (0, 1, true),
        (3, 2, true),
        (1, 1, false),
        (3, 0, false),
        (3, 3, false),
    ] {
        let chosen = [(7, and), (8, or), (10, 2), (20, 3), (32, 3)];
        assert_eq!(rt; false_alarm(rt.alloc(), &chosen, claim)?, told);
    }
    let chosen = [(7, 1), (8, 0), (10, 2), (20, 3), (32, 3)];
    let early = Claim {
        probes: &[(10, 1)],
        ..claim
    };
    assert!(rt; !false_alarm(rt.alloc(), &chosen, early)?);
    Ok(())
}

const TWO_SECRETS: &str =
    "a0 = FLOP(a0)\na1 = FLOP(a1)\nb0 = FLOP(b0)\nb1 = FLOP(b1)\nr = FLOP(v)\ns = FLOP(w)
v = XOR(a0, b0)\nw = XOR(a1, b1)\ny = XOR(r, s)";

// two cycles of clk, a0, a1, b0, b1, r, s, v, w, y
fn two_secrets(alloc: Global, claim: Claim) -> Result<bool, Fail> {
    let first = [
        NOTHING,
        Node::Label(0),
        Node::Label(1),
        Node::Label(2),
        Node::Label(3),
        NOTHING,
        NOTHING,
        both(Kind::Xor, 1, 3),
        both(Kind::Xor, 2, 4),
        NOTHING,
        NOTHING,
    ];
    let mut nodes = Vec::from_slice(alloc, &first)?;
    add_copies(&mut nodes, &[1, 2, 3, 4, 7, 8, 7, 8])?;
    nodes.push(both(Kind::Xor, 15, 16))?;
    let case = Case {
        circuit: TWO_SECRETS,
        known: "0vvvv00vv0 0vvvvvvvvv",
        cycles: 2,
        nodes: nodes.as_slice(),
        chosen: &[(7, 3), (8, 3), (19, 3)],
    };
    tells(alloc, case, 1, 1, claim)
}

#[test]
fn two_secrets_at_once_are_a_finding(rt: HostRuntime) -> Result<(), Fail> {
    for (pairs, labels, told) in [
        (&[(5, 1), (6, 1)][..], &[0, 1, 2, 3][..], true),
        (&[(5, 1), (6, 1)], &[0, 1], false),
        (&[(5, 1)], &[0, 2], false),
        (&[(5, 0), (5, 1), (6, 1)], &[0, 1, 2, 3], false),
    ] {
        let claim = Claim {
            probes: &[(9, 1)],
            pairs,
            labels,
        };
        assert_eq!(rt; two_secrets(rt.alloc(), claim)?, told);
    }
    Ok(())
}

const TWO_SELECTS: &str = "in s0\nin s1\nq0 = FLOP(q0)\nq1 = FLOP(q1)
g0 = AND(q0, s0)\ng1 = AND(q1, s1)\ny = OR(g0, g1)";

// bits clk, s0, s1, q0, q1, g0, g1, y: s0 is 1, 0, 0 and s1 is 0, 0, 1
fn two_selects(alloc: Global, window: u32, claim: Claim) -> Result<bool, Fail> {
    let mut nodes = [NOTHING; 24];
    nodes[3] = Node::Label(0);
    nodes[4] = Node::Label(1);
    nodes[5] = gate(Kind::And, VARY, ONE, [3, 0]);
    nodes[7] = gate(Kind::Or, VARY, ZERO, [5, 0]);
    nodes[11] = Node::Copy(3);
    nodes[12] = Node::Copy(4);
    nodes[19] = Node::Copy(11);
    nodes[20] = Node::Copy(12);
    nodes[22] = gate(Kind::And, VARY, ONE, [20, 0]);
    nodes[23] = gate(Kind::Or, ZERO, VARY, [0, 22]);
    let case = Case {
        circuit: TWO_SELECTS,
        known: "010vvv0v 000vv000 001vv0vv",
        cycles: 3,
        nodes: &nodes,
        chosen: &[(5, 1), (7, 1), (22, 1), (23, 2)],
    };
    tells(alloc, case, 1, window, claim)
}

#[test]
fn a_window_shows_pairs_of_its_second_cycle(rt: HostRuntime) -> Result<(), Fail> {
    for (cycle, pairs, one, two, more) in [
        (1, &[(3, 1), (4, 1)][..], false, true, true),
        (1, &[(3, 0), (4, 2)], false, true, true),
        (0, &[(3, 0), (4, 2)], false, false, true),
        (1, &[(3, 1), (4, 0)], false, false, false),
        (2, &[(3, 1), (4, 2)], false, false, false),
    ] {
        let claim = Claim {
            probes: &[(7, cycle)],
            pairs,
            labels: &[0, 1],
        };
        assert_eq!(rt; two_selects(rt.alloc(), 1, claim)?, one);
        assert_eq!(rt; two_selects(rt.alloc(), 2, claim)?, two);
        assert_eq!(rt; two_selects(rt.alloc(), 64, claim)?, more);
    }
    Ok(())
}
