use crate::tests::{Case, assert_rejected, assert_text, run};
use coco_base::Status;
use std::process::Abort;
use std::test::Fail;

const MASKED: &str = "clock clk\nsecret a 1 2\nmask m 1\nreg q0 a.0\nreg q1 a.1\nreg n m\n";

// the registers of two shares and a mask, and further rows
macro_rules! masked {
    ($rows:expr) => {
        Case {
            rows: concat!("q0 = FLOP(q0)\nq1 = FLOP(q1)\nn = FLOP(n)\n", $rows),
            labels: MASKED,
            program: "",
        }
    };
}

// the registers of two shares, and further rows
macro_rules! shared {
    ($rows:expr, $labels:expr) => {
        Case {
            rows: concat!("q0 = FLOP(q0)\nq1 = FLOP(q1)\n", $rows),
            labels: concat!("clock clk\nsecret a 1 2\nreg q0 a.0\nreg q1 a.1\n", $labels),
            program: "",
        }
    };
}

// the report of an accepted run
macro_rules! accepted {
    ($cycles:expr, $bits:expr, $secrets:expr, $labels:expr) => {
        concat!(
            "accepted\norder 1\ncycles ", $cycles, "\nbits ", $bits, "\nsecret bits ", $secrets,
            "\nlabels ", $labels, "\n"
        )
    };
}

#[test]
fn a_share_in_one_register_is_accepted(rt: HostRuntime) -> Result<(), Fail> {
    let case = Case {
        rows: "q = FLOP(q)\n",
        labels: "clock clk\nsecret a 1 2\nreg q a.0\n",
        program: "",
    };
    assert_text(
        &rt,
        case,
        &[],
        Status::Accepted,
        accepted!("1", "1", "1", "2"),
    )?;
    let wide = "accepted\norder 1\nwindow 64\ncycles 1\nbits 1\nsecret bits 1\nlabels 2\n";
    assert_text(&rt, case, &["--window", "64"], Status::Accepted, wide)?;
    let many = "accepted\norder 64\ncycles 1\nbits 1\nsecret bits 1\nlabels 2\n";
    assert_text(&rt, case, &["--order", "64"], Status::Accepted, many)
}

#[test]
fn a_proof_follows_an_accepted_report(rt: HostRuntime) -> Result<(), Fail> {
    let case = shared!("", "");
    let (status, sink) = run(&rt, case, &["--proof"])?;
    assert_eq!(rt; status, Status::Accepted);
    let head = "accepted\norder 1\ncycles 1\nbits 2\nsecret bits 1\nlabels 2\np cnf ";
    assert!(rt; sink.bytes().starts_with(head.as_bytes()));
    assert!(rt; sink.bytes().ends_with(b" 0\n") || sink.bytes().ends_with(b"proof 0\n"));
    Ok(())
}

#[test]
fn a_gate_over_both_shares_is_rejected(rt: HostRuntime) -> Result<(), Fail> {
    let report = "rejected\norder 1\ncycles 1\nbits 3\nsecret bits 1\nlabels 2\n\
        probe y gate c_y cycle 0 pc - line -\n\
        sees q0 cycle 0\nsees q1 cycle 0\nset a.0[0] a.1[0]\n";
    let case = shared!("y = XOR(q0, q1)\n", "");
    assert_text(&rt, case, &[], Status::Rejected, report)?;
    assert_text(&rt, case, &["--proof"], Status::Rejected, report)?;
    let many = "rejected\norder 64\ncycles 1\nbits 3\nsecret bits 1\nlabels 2\n";
    assert_rejected(&rt, case, &["--order", "64"], many, "set a.0[0] a.1[0]\n")
}

#[test]
fn a_gate_over_a_share_and_a_mask_is_accepted(rt: HostRuntime) -> Result<(), Fail> {
    let case = masked!("y = XOR(q0, n)\n");
    assert_text(
        &rt,
        case,
        &[],
        Status::Accepted,
        accepted!("1", "4", "1", "3"),
    )
}

#[test]
fn glitches_show_what_a_gate_reaches(rt: HostRuntime) -> Result<(), Fail> {
    let case = masked!("w = XOR(q0, n)\ny = XOR(w, q1)\n");
    let head = "rejected\norder 1\ncycles 1\nbits 5\nsecret bits 1\nlabels 3\n\
        probe y gate c_y cycle 0 pc - line -\n";
    assert_rejected(&rt, case, &[], head, "set a.0[0] a.1[0]\n")?;
    let kept = masked!("w = XOR(q0, n)\nr = FLOP(w)\ny = XOR(r, q1)\n");
    assert_text(
        &rt,
        kept,
        &["--cycles", "2"],
        Status::Accepted,
        accepted!("2", "6", "1", "3"),
    )
}

#[test]
fn a_register_that_takes_the_other_share_is_rejected(rt: HostRuntime) -> Result<(), Fail> {
    let case = Case {
        rows: "f = FLOP(g)\ng = FLOP(g)\np = FLOP(n)\nn = NOT(p)\nnet pc = 0, 0, p\n",
        labels: "clock clk\nsecret a 1 2\nreg f a.0\nreg g a.1\npc pc\n",
        program: "nop\nnop\n",
    };
    let report = "rejected\norder 1\ncycles 2\nbits 4\nsecret bits 1\nlabels 2\n\
        probe f gate c_f cycle 1 pc 00000004 line 2\n\
        sees f cycle 0\nsees f cycle 1\nset a.0[0] a.1[0]\n";
    let two: [&str; 4] = ["--program", "p.s", "--cycles", "2"];
    assert_text(&rt, case, &two, Status::Rejected, report)?;
    let words = Case {
        program: "00000013\n00000013\n",
        ..case
    };
    let hex: [&str; 4] = ["--program", "p.hex", "--cycles", "2"];
    assert_text(&rt, words, &hex, Status::Rejected, report)?;
    let one: [&str; 4] = ["--program", "p.s", "--window", "2"];
    let wide = "accepted\norder 1\nwindow 2\ncycles 1\nbits 4\nsecret bits 1\nlabels 2\n";
    assert_text(&rt, case, &one, Status::Accepted, wide)
}

#[test]
fn a_select_that_is_known_and_stays_blocks(rt: HostRuntime) -> Result<(), Fail> {
    let still = shared!("in s\ny = MUX(q0, q1, s)\n", "input s 0\n");
    assert_text(
        &rt,
        still,
        &["--cycles", "2"],
        Status::Accepted,
        accepted!("2", "4", "1", "2"),
    )?;
    let moved = shared!("in s\ny = MUX(q0, q1, s)\n", "input s 0 1\n");
    let head = "rejected\norder 1\ncycles 3\nbits 4\nsecret bits 1\nlabels 2\n\
        probe y gate c_y cycle 1 pc - line -\n";
    assert_rejected(&rt, moved, &["--cycles", "3"], head, "set a.0[0] a.1[0]\n")
}

// the products of two masked bits
macro_rules! products {
    ($rows:expr) => {
        Case {
            rows: concat!(
                "a0 = FLOP(a0)\na1 = FLOP(a1)\nb0 = FLOP(b0)\nb1 = FLOP(b1)\nn = FLOP(n)\n\
                t0 = AND(a0, b0)\nt1 = AND(a1, b1)\nu0 = AND(a0, b1)\nu1 = AND(a1, b0)\n\
                x0 = XOR(u0, n)\nx1 = XOR(u1, n)\n",
                $rows
            ),
            labels: "clock clk\nsecret a 1 2\nsecret b 1 2\nmask m 1\nreg a0 a.0\nreg a1 a.1\n\
                reg b0 b.0\nreg b1 b.1\nreg n m\n",
            program: "",
        }
    };
}

#[test]
fn a_masked_product_needs_registers(rt: HostRuntime) -> Result<(), Fail> {
    let kept = products!("r0 = FLOP(x0)\nr1 = FLOP(x1)\ny0 = XOR(t0, r0)\ny1 = XOR(t1, r1)\n");
    let report = accepted!("3", "15", "2", "5");
    assert_text(&rt, kept, &["--cycles", "3"], Status::Accepted, report)?;
    let bare = products!("y0 = XOR(t0, x0)\ny1 = XOR(t1, x1)\n");
    let head = "rejected\norder 1\ncycles 1\nbits 13\nsecret bits 2\nlabels 5\nprobe y";
    assert_rejected(&rt, bare, &[], head, "set b.0[0] b.1[0]\n")
}

#[test]
fn equal_counts_may_be_a_false_alarm(rt: HostRuntime) -> Result<(), Fail> {
    let case = masked!(
        "p = AND(q0, n)\no = OR(q0, n)\nrp = FLOP(p)\nro = FLOP(o)\nv = XOR(rp, ro)\nz = FLOP(v)\n\
        y = XOR(z, q1)\n"
    );
    let head = "rejected\norder 1\ncycles 3\nbits 10\nsecret bits 1\nlabels 3\n\
        probe y gate c_y cycle 2 pc - line -\n";
    assert_rejected(&rt, case, &["--cycles", "3"], head, "set a.0[0] a.1[0]\n")?;
    assert_text(
        &rt,
        case,
        &["--cycles", "2"],
        Status::Accepted,
        accepted!("2", "10", "1", "3"),
    )
}

const THREE: Case<'static> = Case {
    rows: "f0 = FLOP(f0)\nf1 = FLOP(f1)\nf2 = FLOP(f2)\n",
    labels: "clock clk\nsecret a 1 3\nreg f0 a.0\nreg f1 a.1\nreg f2 a.2\n",
    program: "",
};

#[test]
fn an_order_of_as_many_probes_as_shares_is_rejected(rt: HostRuntime) -> Result<(), Fail> {
    let two = "accepted\norder 2\ncycles 1\nbits 3\nsecret bits 1\nlabels 3\n";
    assert_text(&rt, THREE, &["--order", "2"], Status::Accepted, two)?;
    let three = "rejected\norder 3\ncycles 1\nbits 3\nsecret bits 1\nlabels 3\n\
        probe f0 gate c_f0 cycle 0 pc - line -\nprobe f1 gate c_f1 cycle 0 pc - line -\n\
        probe f2 gate c_f2 cycle 0 pc - line -\n";
    let set = "set a.0[0] a.1[0] a.2[0]\n";
    assert_rejected(&rt, THREE, &["--order", "3"], three, set)?;
    let case = Case {
        rows: "f0 = FLOP(f0)\nf1 = FLOP(f1)\nf2 = FLOP(f2)\ng = XOR(f0, f1)\n",
        ..THREE
    };
    let pair = "rejected\norder 2\ncycles 1\nbits 4\nsecret bits 1\nlabels 3\n\
        probe f2 gate c_f2 cycle 0 pc - line -\nprobe g gate c_g cycle 0 pc - line -\n";
    assert_rejected(&rt, case, &["--order", "2"], pair, set)
}

#[test]
fn gates_that_close_in_turn_are_seen_by_a_window(rt: HostRuntime) -> Result<(), Fail> {
    let next = shared!(
        "in s0\nin s1\ng0 = AND(q0, s0)\ng1 = AND(q1, s1)\ny = OR(g0, g1)\n",
        "input s0 1 0\ninput s1 0 1\n"
    );
    let head = "rejected\norder 1\ncycles 2\nbits 7\nsecret bits 1\nlabels 2\n\
        probe y gate c_y cycle 1 pc - line -\n";
    assert_rejected(&rt, next, &["--cycles", "2"], head, "set a.0[0] a.1[0]\n")?;
    let later = shared!(
        "in s0\nin s1\ng0 = AND(q0, s0)\ng1 = AND(q1, s1)\ny = OR(g0, g1)\n",
        "input s0 1 0 0\ninput s1 0 0 1\n"
    );
    assert_text(
        &rt,
        later,
        &["--cycles", "3"],
        Status::Accepted,
        accepted!("3", "7", "1", "2"),
    )?;
    let wide = "rejected\norder 1\nwindow 2\ncycles 3\nbits 7\nsecret bits 1\nlabels 2\n\
        probe y gate c_y cycle 1 pc - line -\n";
    let more: [&str; 4] = ["--cycles", "3", "--window", "2"];
    assert_rejected(&rt, later, &more, wide, "set a.0[0] a.1[0]\n")
}

#[test]
fn two_secrets_are_whole_only_together(rt: HostRuntime) -> Result<(), Fail> {
    let case = Case {
        rows: "a0 = FLOP(a0)\na1 = FLOP(a1)\nb0 = FLOP(b0)\nb1 = FLOP(b1)\nv = XOR(a0, b0)\n\
            w = XOR(a1, b1)\nr = FLOP(v)\ns = FLOP(w)\ny = XOR(r, s)\n",
        labels: "clock clk\nsecret a 1 2\nsecret b 1 2\nreg a0 a.0\nreg a1 a.1\nreg b0 b.0\n\
            reg b1 b.1\n",
        program: "",
    };
    let report = "rejected\norder 1\ncycles 2\nbits 9\nsecret bits 2\nlabels 4\n\
        probe y gate c_y cycle 1 pc - line -\n\
        sees r cycle 1\nsees s cycle 1\nset a.0[0] a.1[0] b.0[0] b.1[0]\n";
    assert_text(&rt, case, &["--cycles", "2"], Status::Rejected, report)
}

#[test]
fn an_echo_brings_a_share_a_cycle_later(rt: HostRuntime) -> Result<(), Fail> {
    let case = shared!("in e\ny = XOR(e, q1)\n", "echo e q0\n");
    assert_text(
        &rt,
        case,
        &[],
        Status::Accepted,
        accepted!("1", "4", "1", "2"),
    )?;
    let head = "rejected\norder 1\ncycles 2\nbits 4\nsecret bits 1\nlabels 2\n\
        probe y gate c_y cycle 1 pc - line -\n";
    assert_rejected(&rt, case, &["--cycles", "2"], head, "set a.0[0] a.1[0]\n")
}

#[test]
fn a_secret_of_one_share_is_seen_at_once(rt: HostRuntime) -> Result<(), Fail> {
    let bare = Case {
        rows: "q = FLOP(q)\n",
        labels: "clock clk\n",
        program: "",
    };
    assert_text(
        &rt,
        bare,
        &["--steps", "1"],
        Status::Accepted,
        accepted!("1", "1", "0", "0"),
    )?;
    let case = Case {
        labels: "clock clk\nsecret a 1 1\nreg q a.0\n",
        ..bare
    };
    let head = "rejected\norder 1\ncycles 1\nbits 1\nsecret bits 1\nlabels 1\n\
        probe q gate c_q cycle 0 pc - line -\n";
    assert_rejected(&rt, case, &[], head, "set a.0[0]\n")
}

#[test]
fn the_steps_may_be_spent(rt: HostRuntime) -> Result<(), Fail> {
    let kept = products!("r0 = FLOP(x0)\nr1 = FLOP(x1)\ny0 = XOR(t0, r0)\ny1 = XOR(t1, r1)\n");
    let (status, sink) = run(&rt, kept, &["--cycles", "3", "--steps", "1"])?;
    if status == Status::Undecided {
        let report = "undecided\norder 1\ncycles 3\nbits 15\nsecret bits 2\nlabels 5\nsteps 1\n";
        assert_eq!(rt; sink.bytes(), report.as_bytes());
    } else {
        assert_eq!(rt; status, Status::Accepted);
    }
    Ok(())
}
