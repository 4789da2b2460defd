ghost use Rattle.std.specs.Prelude.{◌≤◌};

use crate::tests::{CALM, Held, Outside, call_with};
use crate::writing::write_whole;
use circuit_rows::json;
use coco_base::{List, MemSink, Status};
use std::process::Abort;
use std::test::Fail;

const LABELS: &[u8] = b"clock clk\nsecret a 1 2\nreg q0 a.0\nreg q1 a.1\n";

const REPORT: &[u8] = b"rejected\norder 1\ncycles 1\nbits 3\nsecret bits 1\nlabels 2\n\
    probe y gate c_y cycle 0 pc - line -\n\
    sees q0 cycle 0\nsees q1 cycle 0\nset a.0[0] a.1[0]\n";

fn netlist(rt: &(impl Abort + AllocGlobal)) -> Result<List<u8>, Fail> {
    let netlist = json(
        rt.alloc(),
        "q0 = FLOP(q0)\nq1 = FLOP(q1)\ny = XOR(q0, q1)\n",
    )?;
    Ok(netlist)
}

// how many calls read so many bytes in pieces of 7, the last of which meets the end
fn calls(bytes: usize) -> usize {
    bytes / 7 + if bytes % 7 == 0 { 1 } else { 2 }
}

// shows what a call over the two registers ends with and writes
fn assert_call(
    rt: &(impl Abort + AllocGlobal),
    held: Held<'_>,
    outside: Outside<'_>,
    status: Status,
    text: &[u8],
) -> Result<(), Fail>
    requires { 1 ≤ outside.piece }
{
    let (ended, sink) = call_with(rt.alloc(), held, outside, &[])?;
    assert_eq!(rt; sink.bytes(), text);
    assert_eq!(rt; ended, status);
    Ok(())
}

// the files of the two registers
fn held_with<'a>(netlist: &'a List<u8>, labels: &'a [u8]) -> Held<'a> {
    Held {
        netlist: netlist.as_slice(),
        labels,
        program: b"",
    }
}

#[test]
fn each_call_that_fails_is_a_read_fault_of_its_file(rt: HostRuntime) -> Result<(), Fail> {
    let netlist = netlist(&rt)?;
    let held = held_with(&netlist, LABELS);
    let first = calls(netlist.len());
    let second = calls(LABELS.len());
    // (53 calls read the netlist, 8 the labels)
    for k in 0..63 {
        let outside = Outside {
            piece: 7,
            fails: &[k],
            ..CALM
        };
        let at = k as usize;
        let (status, text) = if at < first {
            (Status::ReadFault, b"read fault n.json\n".as_slice())
        } else if at - first < second {
            (Status::ReadFault, b"read fault l.txt\n".as_slice())
        } else {
            (Status::Rejected, REPORT)
        };
        assert_call(&rt, held, outside, status, text)?;
    }
    Ok(())
}

// shows that so many bytes are the front of the report
fn assert_front(rt: &(impl Abort + AllocGlobal), bytes: &[u8], count: usize) -> Result<(), Fail> {
    assert!(rt; REPORT.starts_with(bytes));
    assert_eq!(rt; bytes.len(), count);
    Ok(())
}

#[test]
fn a_sink_that_is_full_has_the_front_of_the_report(rt: HostRuntime) -> Result<(), Fail> {
    let netlist = netlist(&rt)?;
    let held = held_with(&netlist, LABELS);
    for room in [0, 1, 142] {
        let outside = Outside { room, ..CALM };
        let (status, sink) = call_with(rt.alloc(), held, outside, &[])?;
        assert_eq!(rt; status, Status::WriteFault);
        assert_front(&rt, sink.bytes(), room)?;
    }
    let outside = Outside { room: 143, ..CALM };
    assert_call(&rt, held, outside, Status::Rejected, REPORT)
}

#[test]
fn each_room_of_a_sink_has_the_front_of_a_text(rt: HostRuntime) -> Result<(), Fail> {
    for room in 0..144 {
        let mut sink = MemSink::new(rt.alloc(), room)?;
        let ended = write_whole(&mut sink, REPORT);
        assert_eq!(rt; ended.is_ok(), room == 143);
        assert_front(&rt, sink.bytes(), room)?;
    }
    Ok(())
}

#[test]
fn a_netlist_that_is_cut_is_refused(rt: HostRuntime) -> Result<(), Fail> {
    let netlist = netlist(&rt)?;
    for length in 0..netlist.len() {
        let held = Held {
            netlist: &netlist.as_slice()[..length],
            labels: LABELS,
            program: b"",
        };
        assert_call(&rt, held, CALM, Status::Refused, b"refused 101 not JSON\n")?;
    }
    Ok(())
}

#[test]
fn a_label_file_that_is_cut_says_less(rt: HostRuntime) -> Result<(), Fail> {
    let netlist = netlist(&rt)?;
    let none = b"accepted\norder 1\ncycles 1\nbits 3\nsecret bits 0\nlabels 0\n".as_slice();
    let some = b"accepted\norder 1\ncycles 1\nbits 3\nsecret bits 1\nlabels 2\n".as_slice();
    let cases: [(&[u8], Status, &[u8]); 4] = [
        (b"", Status::Refused, b"refused 314 input unbound clk\n"),
        (b"clock clk\n", Status::Accepted, none),
        (b"clock clk\nsecret a 1 2\n", Status::Accepted, some),
        (
            b"clock clk\nsecret a 1 2\nreg q0 a.0\n",
            Status::Accepted,
            some,
        ),
    ];
    for (labels, status, text) in cases {
        let held = held_with(&netlist, labels);
        assert_call(&rt, held, CALM, status, text)?;
    }
    Ok(())
}

#[test]
fn bytes_that_are_no_text_are_no_label_line(rt: HostRuntime) -> Result<(), Fail> {
    let netlist = netlist(&rt)?;
    let labels = b"\xfflock clk\nsecret a 1 2\nreg q0 a.0\nreg q1 a.1\n";
    let held = held_with(&netlist, labels);
    assert_call(
        &rt,
        held,
        CALM,
        Status::Refused,
        b"refused 301 bad label line 1\n",
    )
}
