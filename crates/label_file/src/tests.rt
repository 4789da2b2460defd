//! Label files: what they declare, and how they are refused.
use crate::LabelFault::{BadLine, ShareRange, Twice, UnknownSecret};
use crate::{LabelFault, LabelLine, LabelValue, Labels, read_labels};
use coco_base::Limits;
use std::alloc::{AllocError, Global};
use std::process::Abort;
use std::test::Fail;

/// The labels of a file that is not too long for a test.
fn read(rt: &impl Abort, alloc: Global, file: &[u8]) -> Result<Labels, LabelFault> {
    assert!(rt; file.len() < 16_000_000);
    read_labels(alloc, file, &Limits::usual())
}

pub(crate) fn labels(rt: &impl Abort, alloc: Global, file: &[u8]) -> Labels {
    match read(rt, alloc, file) {
        Ok(labels) => labels,
        Err(fault) => panic!(rt; "{fault:?}"),
    }
}

pub(crate) fn check_fault(rt: &impl Abort, alloc: Global, file: &[u8], fault: LabelFault) {
    match read(rt, alloc, file) {
        Ok(_) => panic!(rt; "read without {fault:?}"),
        Err(found) => assert!(rt; found == fault, "{found:?} and not {fault:?}"),
    }
}

/// Each of these lines behind `before` has this fault.
fn check_lines(
    rt: &impl Abort,
    alloc: Global,
    before: &str,
    cases: &str,
    fault: LabelFault,
) -> Result<(), AllocError> {
    for line in cases.lines() {
        let file = format!(in alloc; "{before}{line}\nclock later\n")?;
        match read(rt, alloc, file.as_bytes()) {
            Ok(_) => panic!(rt; "{line} is read"),
            Err(found) => assert!(rt; found == fault, "{line}: {found:?}"),
        }
    }
    Ok(())
}

/// The values of `reg` and `mem` lines.
fn values(alloc: Global, labels: &Labels) -> Result<Vec<LabelValue>, AllocError> {
    let mut all = Vec::new(alloc);
    for line in labels.lines.iter() {
        if let LabelLine::Reg { value, .. } | LabelLine::Mem { value, .. } = line {
            all.push(*value)?;
        }
    }
    Ok(all)
}

const NAMES: &str = "secret a 4 3\nmask m 2\nfresh in f\n";

#[test]
fn labels_are_numbered_share_by_share_and_bit_by_bit(rt: HostRuntime) -> Result<(), Fail> {
    let alloc = rt.alloc();
    let file = b"secret a 4 3\nmask m 2\nsecret b 1 1\nreg q a.2[3]\nreg q a.1\nreg q m[1]\n\
        reg q m\nreg q b.0[0]\nmem 0 a.00[000]\nreg q 0x00ff\nreg q 4294967295\n";
    let labels = labels(&rt, alloc, file);
    let expected = [
        LabelValue::Bits {
            first: 11,
            width: 1,
        },
        LabelValue::Bits { first: 4, width: 4 },
        LabelValue::Bits {
            first: 13,
            width: 1,
        },
        LabelValue::Bits {
            first: 12,
            width: 2,
        },
        LabelValue::Bits {
            first: 14,
            width: 1,
        },
        LabelValue::Bits { first: 0, width: 1 },
        LabelValue::Number(255),
        LabelValue::Number(4_294_967_295),
    ];
    assert!(rt; values(alloc, &labels)?.as_slice() == expected.as_slice());
    assert_eq!(rt; labels.table.declared, 15);
    assert_eq!(rt; labels.table.per_cycle, 0);
    let [a, b] = labels.table.secrets.as_slice() else {
        panic!(rt; "two secrets");
    };
    assert!(rt; a.name.as_str() == "a" && a.first == 0 && a.width == 4 && a.shares == 3);
    assert!(rt; b.name.as_str() == "b" && b.first == 14 && b.width == 1 && b.shares == 1);
    Ok(())
}

// a file with a line of each form
const FORMS: &[u8] =
    b"version 2\r\n\r\n # a comment\nsecret\ta 1  2 #two\nmask m 1\nfresh in f\nreg q m\n\
    input s 0 1 a.1 # \xc3\xa9\nmem 0x10ffc 7\nleaf 0\nleaf 69628\necho e q[0]\nclock clk\nimem r a d\n\
    dmem r w b a v d\ncontrol c#\npc p\r";

#[test]
fn lines_that_declare_labels_are_read(rt: HostRuntime) -> Result<(), Fail> {
    let labels = labels(&rt, rt.alloc(), FORMS);
    let lines = labels.lines.as_slice();
    assert_eq!(rt; lines.len(), 15);
    assert!(rt; matches!(lines[0], LabelLine::Version { number: 2 }));
    assert!(rt;
        matches!(
            lines[1],
            LabelLine::Secret {
                width: 1,
                shares: 2,
                ..
            }
        )
    );
    assert!(rt; matches!(lines[2], LabelLine::Mask { width: 1, .. }));
    assert!(rt;
        matches!(&lines[3], LabelLine::Fresh { net, name } if net.as_str() == "in" && name.as_str() == "f")
    );
    Ok(())
}

#[test]
fn lines_that_give_values_and_name_nets_are_read(rt: HostRuntime) -> Result<(), Fail> {
    let labels = labels(&rt, rt.alloc(), FORMS);
    let lines = labels.lines.as_slice();
    assert_eq!(rt; lines.len(), 15);
    assert!(rt; matches!(&lines[5], LabelLine::Input { values, .. } if values.len() == 3));
    assert!(rt;
        matches!(
            lines[6],
            LabelLine::Mem {
                address: 0x10ffc,
                value: LabelValue::Number(7)
            }
        )
    );
    assert!(rt; matches!(lines[8], LabelLine::Leaf { address: 0x10ffc }));
    assert!(rt;
        matches!(&lines[9], LabelLine::Echo { net, source } if net.as_str() == "e" && source.as_str() == "q[0]")
    );
    assert!(rt; matches!(&lines[13], LabelLine::Control { net } if net.as_str() == "c#"));
    assert!(rt; matches!(&lines[14], LabelLine::Pc { net } if net.as_str() == "p\r"));
    Ok(())
}

#[test]
fn a_line_outside_the_language_is_bad(rt: HostRuntime) -> Result<(), Fail> {
    let cases =
        "frob x\nSecret b 1 1\nsecret b 1\nsecret b 1 1 1\nsecret 1b 1 1\nsecret b# 1 1\nsecret b- 1 1\n\
        secret b 0x1 1\nsecret b 1 +1\nsecret _b 1 1\nmask n\nmask n -1\nmask n 1 1\nfresh in\n\
        fresh in 9\nreg q\nreg q a.\nreg q .0\nreg q a.0[\nreg q a.0[]\nreg q a.0[0\nreg q a.0[0]x\n\
        reg q a[0].0\nreg q a.0.0\nreg q a.x\nreg q m[x]\nreg q m[]\nreg q 0x\nreg q 4294967296\n\
        reg q 0x100000000\nreg q -1\nreg q 1a\nreg q 0 0\ninput s\ninput s 0 1 x.\nmem 0\nmem 1 0\n\
        mem 2 0\nmem 0x4000 0\nmem 0xfffc 0\nmem 0x11000 0\nmem x 0\nmem 4294967296 0\nleaf 0\necho e\n\
        echo e f g\nclock\nclock a b\nimem r a\nimem r a d d\ndmem r w b a v\ndmem r w b a v d d\n\
        control\ncontrol c c\npc\npc p p\nversion 1\nversion 2\n";
    check_lines(&rt, rt.alloc(), NAMES, cases, BadLine { line: 4 })?;
    Ok(())
}

#[test]
fn a_version_stands_first_and_says_whether_leaves_are_taken(rt: HostRuntime) -> Result<(), Fail> {
    let alloc = rt.alloc();
    for file in [
        "# first\n\nversion 1\npc p",
        "version 2\nleaf 4\nmem 4 0",
        "version 2\nleaf 4\nleaf 8",
        "",
    ] {
        assert!(rt; read(&rt, alloc, file.as_bytes()).is_ok());
    }
    check_lines(
        &rt,
        alloc,
        "",
        "version\nversion 01\nversion 3\nversion 1 1\nleaf 4",
        BadLine { line: 1 },
    )?;
    check_lines(
        &rt,
        alloc,
        "version 2\n",
        "version 2\nversion 1\nleaf 5\nleaf",
        BadLine { line: 2 },
    )?;
    check_lines(
        &rt,
        alloc,
        "version 1\n",
        "leaf 4\nversion 1",
        BadLine { line: 2 },
    )?;
    check_lines(
        &rt,
        alloc,
        "version 2\nleaf 0x10\n",
        "leaf 16",
        Twice { line: 3 },
    )?;
    Ok(())
}

#[test]
fn a_name_or_a_line_that_stands_once_is_not_taken_twice(rt: HostRuntime) -> Result<(), Fail> {
    let alloc = rt.alloc();
    let names = "secret m 1 1\nsecret f 99 99\nmask a 1\nmask f 0\nfresh x a\nfresh x m\n";
    check_lines(&rt, alloc, NAMES, names, Twice { line: 4 })?;
    let before = "clock c\nimem r a d\ndmem r w b a v d\npc p\nmem 4 0\n";
    let lines = "clock d\nimem x y z\ndmem x w b a v d\npc q\nmem 0x4 1\nmem 4 nobody.1\n";
    check_lines(&rt, alloc, before, lines, Twice { line: 6 })?;
    Ok(())
}

#[test]
fn labels_are_named_as_they_were_declared_and_within_their_ranges(
    rt: HostRuntime,
) -> Result<(), Fail> {
    let alloc = rt.alloc();
    let unknown =
        "reg q b.0\nreg q n\nreg q a\nreg q a[0]\nreg q m.0\nreg q f\nmem 0 f[0]\ninput s a.9 n\n\
        input s 0 m[2] m.0\n";
    check_lines(&rt, alloc, NAMES, unknown, UnknownSecret { line: 4 })?;
    let outside =
        "reg q a.3\nreg q a.0[4]\nreg q m[2]\nreg q a.4294967296\nreg q m[99999999999999999999]\n\
        input s 0 a.3\nsecret b 0 1\nsecret b 33 1\nsecret b 1 0\nsecret b 1 17\nmask n 0\nmask n 33\n\
        mask n 99999999999999999999\n";
    check_lines(&rt, alloc, NAMES, outside, ShareRange { line: 4 })?;
    check_fault(
        &rt,
        alloc,
        b"reg q a.0\nsecret a 1 1\n",
        UnknownSecret { line: 1 },
    );
    Ok(())
}

#[test]
fn the_least_line_at_fault_is_answered(rt: HostRuntime) {
    let alloc = rt.alloc();
    check_fault(&rt, alloc, b"mask m 33\nfrob\n", ShareRange { line: 1 });
    check_fault(&rt, alloc, b"pc p\n\n#\npc p\nfrob", Twice { line: 4 });
    check_fault(&rt, alloc, b"pc p\r\npc\r\n", BadLine { line: 2 });
}

#[test]
fn a_line_is_text_in_utf8(rt: HostRuntime) -> Result<(), Fail> {
    let alloc = rt.alloc();
    let file = b"clock clk\nsecret a 1 2\n# \xc3\xa9\nreg q a.0\n";
    for place in 0..file.len() {
        let mut bytes = file.to_vec(alloc)?;
        let mut line = 1;
        for (at, byte) in bytes.as_mut_slice().iter_mut().enumerate() {
            if at == place {
                *byte = 0xff;
            } else if at < place && *byte == b'\n' && line < 9 {
                line += 1;
            }
        }
        check_fault(&rt, alloc, bytes.as_slice(), BadLine { line });
    }
    Ok(())
}

#[test]
fn a_file_cut_behind_a_line_is_a_file(rt: HostRuntime) {
    let alloc = rt.alloc();
    let cut = [
        b"".as_slice(),
        b"clock clk\n",
        b"clock clk\nsecret a 1 2\n",
        b"clock clk\nsecret a 1 2\nreg q0 a.0\n",
        b"clock clk\nsecret a 1 2\nreg q0 a.0\nreg q1 a.1\n",
    ];
    for (count, file) in cut.iter().enumerate() {
        let labels = labels(&rt, alloc, file);
        assert_eq!(rt; labels.lines.len(), count);
        assert_eq!(rt; labels.table.declared, if count < 2 { 0 } else { 2 });
    }
}
