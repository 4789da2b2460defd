//! The sizes of whole runs: their nodes, and the weight and need of their cones.
ghost use Rattle.std.specs.Prelude.{◌≡◌, length, IfOk};

use crate::known::run;
use crate::nodes::{number, unrolled, unrolled_within};
use coco_base::{Limits, Unrolled};
use label_cone::{ConeFault, Cones, cone_of, is_ordered_run};
use std::alloc::Global;
use std::process::Abort;
use std::test::Fail;
use unroll::UnrollFault;

/// bits: clk 0, q0 1, q1 2, y 3
const TWO: &str = "q0 = FLOP(q0)\nq1 = FLOP(q1)\ny = XOR(q0, q1)";

const TWO_LABELS: &str = "secret a 1 2\nclock clk\nreg q0 a.0\nreg q1 a.1";

/// bits: clk 0, q0 1, q1 2, n 3, w 4, r 5, y 6
const FIVE: &str =
    "q0 = FLOP(q0)\nq1 = FLOP(q1)\nn = FLOP(n)\nw = XOR(q0, n)\nr = FLOP(w)\ny = XOR(r, q1)";

const FIVE_LABELS: &str = "secret a 1 2\nmask m 1\nclock clk\nreg q0 a.0\nreg q1 a.1\nreg n m";

/// The cones of a run of so many nodes at order 1, of at most this weight.
fn cones_within(
    rt: &impl Abort,
    alloc: Global,
    run: &Unrolled,
    nodes: usize,
    weight: u64,
) -> Result<Cones, ConeFault>
    ensures { IfOk result (λ c. length c.matters ≡ nodes) }
{
    assert!(rt; is_ordered_run(run) && run.nodes.len() == nodes && weight <= 16_000_000);
    let mut limits = Limits::usual();
    limits.weight = weight;
    cone_of(alloc, run, 1, &limits)
}

/// Whether the node of a bit in a cycle matters, of 14 nodes.
fn matters(run: &Unrolled, cones: &Cones, bit: usize, cycle: u32) -> Option<bool>
    requires { length cones.now.matters ≡ 14 }
{
    let node = number(run, bit, cycle);
    if node < 14 {
        Some(cones.matters(node))
    } else {
        None
    }
}

#[test]
fn four_nodes_are_within_a_limit_of_4(rt: HostRuntime) -> Result<(), Fail> {
    let alloc = rt.alloc();
    let run = run(&rt, alloc, TWO, TWO_LABELS)?;
    match unrolled_within(&rt, alloc, &run, 1, 4) {
        Ok(run) => assert!(rt; run.nodes.len() == 4),
        Err(_) => panic!(rt; "not unrolled"),
    }
    match unrolled_within(&rt, alloc, &run, 1, 3) {
        Err(UnrollFault::TooManyNodes { count, limit }) => assert!(rt; count == 4 && limit == 3),
        _ => panic!(rt; "unrolled"),
    }
    Ok(())
}

#[test]
fn the_first_sum_above_the_limit_of_weight_is_told(rt: HostRuntime) -> Result<(), Fail> {
    let two = unrolled(&rt, rt.alloc(), TWO, TWO_LABELS, 1)?;
    let five = unrolled(&rt, rt.alloc(), FIVE, FIVE_LABELS, 2)?;
    let cases = [
        (&two, 4usize, 11, 12),
        (&two, 4, 9, 10),
        (&two, 4, 7, 8),
        (&five, 14, 36, 37),
        (&five, 14, 27, 28),
    ];
    for (run, nodes, limit, count) in cases {
        let fault = cones_within(&rt, rt.alloc(), run, nodes, limit).err();
        assert!(rt;
            fault == Some(ConeFault::TooLarge { count, limit }),
            "{limit}"
        );
    }
    assert!(rt; cones_within(&rt, rt.alloc(), &two, 4, 12).is_ok());
    assert!(rt; cones_within(&rt, rt.alloc(), &five, 14, 37).is_ok());
    Ok(())
}

#[test]
fn five_registers_need_33_for_one_gate_that_matters(rt: HostRuntime) -> Result<(), Fail> {
    let run = unrolled(&rt, rt.alloc(), FIVE, FIVE_LABELS, 2)?;
    let Ok(cones) = cones_within(&rt, rt.alloc(), &run, 14, 37) else {
        panic!(rt; "no cones");
    };
    assert!(rt; cones.need() == 33);
    assert!(rt; matters(&run, &cones, 4, 0) == Some(true)); // the exclusive or that r stores
    assert!(rt; matters(&run, &cones, 4, 1) == Some(false)); // a copy of it
    assert!(rt; matters(&run, &cones, 6, 0) == Some(false)); // y, which nothing reads
    assert!(rt; matters(&run, &cones, 6, 1) == Some(false));
    assert!(rt; matters(&run, &cones, 1, 0) == Some(true)); // a label
    Ok(())
}
