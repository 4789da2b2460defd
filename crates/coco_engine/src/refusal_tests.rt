use crate::tests::{CALM, Case, Held, assert_rejected, assert_text, call_with};
use circuit_rows::json;
use coco_base::Status;
use std::process::Abort;
use std::test::Fail;

const KEEP: Case<'static> = Case {
    rows: "q = FLOP(q)\n",
    labels: "clock clk\n",
    program: "",
};

#[test]
fn the_first_fault_of_a_netlist_is_answered(rt: HostRuntime) -> Result<(), Fail> {
    let looped = Case {
        rows: "y = AND(z, q)\nz = OR(y, q)\nq = FLOP(q)\n",
        ..KEEP
    };
    assert_text(
        &rt,
        looped,
        &[],
        Status::Refused,
        "refused 112 loop c_y c_z\n",
    )?;
    let latch = Case {
        rows: "q = FLOP(q)\nl = $_DLATCH_P_(D: q, E: q, Q: l)\n",
        ..KEEP
    };
    let line = "refused 105 cell c_l type $_DLATCH_P_\n";
    assert_text(&rt, latch, &[], Status::Refused, line)
}

#[test]
fn the_top_module_is_taken_by_its_name(rt: HostRuntime) -> Result<(), Fail> {
    let report = "accepted\norder 1\ncycles 1\nbits 1\nsecret bits 0\nlabels 0\n";
    assert_text(&rt, KEEP, &["--top", "t"], Status::Accepted, report)?;
    assert_text(
        &rt,
        KEEP,
        &["--top", "u"],
        Status::Refused,
        "refused 102 no top module\n",
    )
}

#[test]
fn a_program_is_read_where_one_is_named(rt: HostRuntime) -> Result<(), Fail> {
    let case = Case {
        program: "frob x1\n",
        ..KEEP
    };
    let report = "accepted\norder 1\ncycles 1\nbits 1\nsecret bits 0\nlabels 0\n";
    assert_text(&rt, case, &[], Status::Accepted, report)?;
    let line = "refused 201 bad program line 1\n";
    assert_text(&rt, case, &["--program", "p.s"], Status::Refused, line)?;
    let fault = "read fault p.txt\n";
    assert_text(&rt, case, &["--program", "p.txt"], Status::ReadFault, fault)
}

#[test]
fn a_reset_stays_inactive(rt: HostRuntime) -> Result<(), Fail> {
    let case = Case {
        rows: "in rst\nq = $_DFF_PN0_(C: clk, D: q, R: rst, Q: q)\n",
        labels: "clock clk\ninput rst 1 0\n",
        program: "",
    };
    let line = "refused 403 reset of cell c_q cycle 1\n";
    assert_text(&rt, case, &["--cycles", "2"], Status::Refused, line)
}

#[test]
fn at_most_4096_labels_are_taken(rt: HostRuntime) -> Result<(), Fail> {
    let mut labels = String::from_str(rt.alloc(), "clock clk\n")?;
    for secret in 0..64 {
        labels.push_str(format!(in rt.alloc(); "secret s{secret} 32 2\n")?.as_str())?;
    }
    let report = "accepted\norder 1\ncycles 1\nbits 1\nsecret bits 2048\nlabels 4096\n";
    let most = Case {
        labels: labels.as_str(),
        ..KEEP
    };
    assert_text(&rt, most, &[], Status::Accepted, report)?;
    labels.push_str("mask m 1\n")?;
    let beyond = Case {
        labels: labels.as_str(),
        ..KEEP
    };
    let line = "refused 305 labels 4097 limit 4096\n";
    assert_text(&rt, beyond, &[], Status::Refused, line)
}

// a netlist as Yosys writes it: a flop with an enable and a reset
const YOSYS: &str =
    "{\"creator\":\"Yosys\",\"modules\":{\"top\":{\"attributes\":{\"top\":\"00000000000000000000000000000001\"},
\"ports\":{\"clk\":{\"direction\":\"input\",\"bits\":[2]},\"rst_n\":{\"direction\":\"input\",\"bits\":[3]},\"en\":{\"direction\":\"input\",\"bits\":[4]},\"d\":{\"direction\":\"input\",\"bits\":[5]},\"q\":{\"direction\":\"output\",\"bits\":[6]},\"u\":{\"direction\":\"output\",\"bits\":[\"x\"]}},
\"cells\":{\"core\":{\"hide_name\":0,\"type\":\"$scopeinfo\",\"parameters\":{\"TYPE\":\"module\"},\"attributes\":{},\"connections\":{}},
\"ff\":{\"hide_name\":0,\"type\":\"$_DFFE_PN0P_\",\"parameters\":{},\"attributes\":{\"src\":\"t.v:3.1\"},\"connections\":{\"C\":[2],\"D\":[5],\"E\":[4],\"Q\":[6],\"R\":[3]}}},
\"netnames\":{\"clk\":{\"hide_name\":0,\"bits\":[2],\"attributes\":{}},\"rst_n\":{\"hide_name\":0,\"bits\":[3],\"attributes\":{}},\"en\":{\"hide_name\":0,\"bits\":[4],\"attributes\":{}},\"d\":{\"hide_name\":0,\"bits\":[5],\"attributes\":{}},\"q\":{\"hide_name\":0,\"bits\":[6],\"attributes\":{}},\"loose\":{\"hide_name\":0,\"bits\":[7],\"attributes\":{}}}}}}\n";

#[test]
fn an_enable_is_a_gate_that_is_probed(rt: HostRuntime) -> Result<(), Fail> {
    let held = Held {
        netlist: YOSYS.as_bytes(),
        labels: b"secret a 1 2\nclock clk\ninput rst_n 1\ninput en 0 1\ninput d a.1\nreg q a.0\n",
        program: b"",
    };
    let (one, sink) = call_with(rt.alloc(), held, CALM, &[])?;
    assert_eq!(rt; one, Status::Accepted);
    let report = b"accepted\norder 1\ncycles 1\nbits 6\nsecret bits 1\nlabels 2\n";
    assert_eq!(rt; sink.bytes(), report.as_slice());
    let (two, sink) = call_with(rt.alloc(), held, CALM, &["--cycles", "2"])?;
    assert_eq!(rt; two, Status::Rejected);
    let head = b"rejected\norder 1\ncycles 2\nbits 6\nsecret bits 1\nlabels 2\n\
        probe ff.e gate ff.e cycle 1 pc - line -\n";
    assert!(rt; sink.bytes().starts_with(head));
    assert!(rt; sink.bytes().ends_with(b"set a.0[0] a.1[0]\n"));
    Ok(())
}
