use crate::tests::{Case, assert_rejected, assert_text};
use coco_base::Status;
use std::process::Abort;
use std::test::Fail;

// a memory that is read at public addresses
const READS: Case<'static> = Case {
    rows: "in req\nin we\nin be 4\nin addr 32\nin wdata 32\nin rdata 32\n",
    labels: "",
    program: "",
};

macro_rules! reads {
    ($labels:expr) => {
        Case {
            labels: concat!(
                "clock clk\ndmem req we be addr wdata rdata\ninput we 0\ninput be 0\n\
                input wdata 0\n",
                $labels
            ),
            ..READS
        }
    };
}

#[test]
fn an_address_is_known_where_a_request_is(rt: HostRuntime) -> Result<(), Fail> {
    let shared = reads!("input req 1\nsecret a 32 2\ninput addr a.0\n");
    let control = "refused 401 control addr[0] cycle 0\n";
    assert_text(&rt, shared, &[], Status::Refused, control)?;
    let unasked = reads!("input req 0\nsecret a 32 2\ninput addr a.0\n");
    let report = "accepted\norder 1\ncycles 1\nbits 102\nsecret bits 32\nlabels 64\n";
    assert_text(&rt, unasked, &[], Status::Accepted, report)?;
    let outside = reads!("input req 1\ninput addr 0x20000\n");
    let address = "refused 402 address 00020000 cycle 0\n";
    assert_text(&rt, outside, &[], Status::Refused, address)
}

#[test]
fn an_answer_that_changes_shows_both_words(rt: HostRuntime) -> Result<(), Fail> {
    let case = reads!(
        "input req 1\nsecret a 1 2\ninput addr 0x10000 0x10004\nmem 0x10000 a.0\nmem 0x10004 a.1\n"
    );
    let two = "accepted\norder 1\ncycles 2\nbits 102\nsecret bits 1\nlabels 2\n";
    assert_text(&rt, case, &["--cycles", "2"], Status::Accepted, two)?;
    let three = "rejected\norder 1\ncycles 3\nbits 102\nsecret bits 1\nlabels 2\n\
        probe rdata[0] gate input cycle 2 pc - line -\n\
        sees rdata[0] cycle 1\nsees rdata[0] cycle 2\nset a.0[0] a.1[0]\n";
    assert_text(&rt, case, &["--cycles", "3"], Status::Rejected, three)
}

// a memory whose word of one share is overwritten with the other share
const WRITES: Case<'static> = Case {
    rows: "in req\nin we\nin be 4\nin addr 32\nin rdata 32\nq = FLOP(q)\n\
        net wd = q, 0, 0, 0, 0, 0, 0, 0, 0, 0, 0, 0, 0, 0, 0, 0, 0, 0, 0, 0, 0, 0, 0, 0, 0, 0, 0, 0, \
        0, 0, 0, 0\n",
    labels: "",
    program: "",
};

macro_rules! writes {
    ($version:expr, $write:expr, $leaf:expr) => {
        Case {
            labels: concat!(
                $version,
                "secret a 1 2\nclock clk\nreg q a.1\ndmem req we be addr wd rdata\ninput req 1\n",
                $write,
                "input be 15\ninput addr 0x10000\nmem 0x10000 a.0\n",
                $leaf
            ),
            ..WRITES
        }
    };
}

#[test]
fn a_word_that_is_no_leaf_is_not_seen(rt: HostRuntime) -> Result<(), Fail> {
    let case = writes!("version 2\n", "input we 1\n", "");
    let report = "accepted\norder 1\ncycles 2\nbits 71\nsecret bits 1\nlabels 2\n";
    assert_text(&rt, case, &["--cycles", "2"], Status::Accepted, report)?;
    let first = writes!("version 1\n", "input we 1\n", "leaf 0x10000\n");
    let line = "refused 301 bad label line 11\n";
    assert_text(&rt, first, &["--cycles", "2"], Status::Refused, line)
}

#[test]
fn a_word_that_is_a_leaf_is_seen_where_it_is_overwritten(rt: HostRuntime) -> Result<(), Fail> {
    let case = writes!("version 2\n", "input we 1\n", "leaf 0x10000\n");
    let report = "rejected\norder 1\ncycles 2\nbits 103\nsecret bits 1\nlabels 2\n\
        probe mem@00010000[0] gate input cycle 1 pc - line -\n\
        sees mem@00010000[0] cycle 0\nsees mem@00010000[0] cycle 1\nset a.0[0] a.1[0]\n";
    assert_text(&rt, case, &["--cycles", "2"], Status::Rejected, report)?;
    let one = "accepted\norder 1\ncycles 1\nbits 103\nsecret bits 1\nlabels 2\n";
    assert_text(&rt, case, &[], Status::Accepted, one)?;
    let kept = writes!("version 2\n", "input we 0\n", "leaf 0x10000\n");
    let two = "accepted\norder 1\ncycles 2\nbits 103\nsecret bits 1\nlabels 2\n";
    assert_text(&rt, kept, &["--cycles", "2"], Status::Accepted, two)
}
