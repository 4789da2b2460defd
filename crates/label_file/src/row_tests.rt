//! The label files of whole runs.
use crate::LabelFault::TooMany;
use crate::tests::{check_fault, labels};
use crate::{LabelLine, LabelValue, Labels};
use std::alloc::Global;
use std::test::Fail;

// label files, how many lines and labels they have, and their values: numbers, or labels as FIRST+WIDTH
const ROWS: &[(&str, usize, u32, &str)] = &[
    ("clock clk\nsecret a 1 2\nreg q a.0\n", 3, 2, "0+1"),
    (
        "clock clk\nsecret a 1 2\nreg q0 a.0\nreg q1 a.1\n",
        4,
        2,
        "0+1 1+1",
    ),
    (
        "clock clk\nsecret a 1 2\nmask m 1\nreg q0 a.0\nreg q1 a.1\nreg n m\n",
        6,
        3,
        "0+1 1+1 2+1",
    ),
    ("clock clk\n", 1, 0, ""),
    (
        "clock clk\nsecret a 1 2\nreg f a.0\nreg g a.1\npc pc\n",
        5,
        2,
        "0+1 1+1",
    ),
    (
        "clock clk\nsecret a 1 2\nreg q0 a.0\nreg q1 a.1\ninput s 0\n",
        5,
        2,
        "0+1 1+1 0",
    ),
    (
        "clock clk\nsecret a 1 2\nreg q0 a.0\nreg q1 a.1\ninput s 0 1\n",
        5,
        2,
        "0+1 1+1 0 1",
    ),
    (
        "clock clk\nsecret a 1 2\nsecret b 1 2\nmask m 1\nreg a0 a.0\nreg a1 a.1\nreg b0 b.0\nreg b1 b.1\nreg n m\n",
        9,
        5,
        "0+1 1+1 2+1 3+1 4+1",
    ),
    (
        "clock clk\nsecret a 1 3\nreg f0 a.0\nreg f1 a.1\nreg f2 a.2\n",
        5,
        3,
        "0+1 1+1 2+1",
    ),
    (
        "clock clk\ndmem req we be addr wdata rdata\ninput we 0\ninput be 0\ninput wdata 0\ninput req 1\nsecret a 32 2\ninput addr a.0\n",
        8,
        64,
        "0 0 0 1 0+32",
    ),
    (
        "clock clk\ndmem req we be addr wdata rdata\ninput we 0\ninput be 0\ninput wdata 0\ninput req 1\ninput addr 0x20000\n",
        7,
        0,
        "0 0 0 1 131072",
    ),
    (
        "clock clk\nsecret a 1 2\nreg q0 a.0\nreg q1 a.1\ninput s0 1 0\ninput s1 0 1\n",
        6,
        2,
        "0+1 1+1 1 0 0 1",
    ),
    (
        "clock clk\nsecret a 1 2\nreg q0 a.0\nreg q1 a.1\ninput s0 1 0 0\ninput s1 0 0 1\n",
        6,
        2,
        "0+1 1+1 1 0 0 0 0 1",
    ),
    (
        "secret a 1 2\nclock clk\ninput rst_n 1\ninput en 0 1\ninput d a.1\nreg q a.0\n",
        6,
        2,
        "1 0 1 1+1 0+1",
    ),
    (
        "clock clk\ndmem req we be addr wdata rdata\ninput we 0\ninput be 0\ninput wdata 0\ninput req 1\nsecret a 1 2\ninput addr 0x10000 0x10004\nmem 0x10000 a.0\nmem 0x10004 a.1\n",
        10,
        2,
        "0 0 0 1 65536 65540 0+1 1+1",
    ),
    (
        "clock clk\nsecret a 1 2\nsecret b 1 2\nreg a0 a.0\nreg a1 a.1\nreg b0 b.0\nreg b1 b.1\n",
        7,
        4,
        "0+1 1+1 2+1 3+1",
    ),
    (
        "clock clk\nsecret a 1 2\nreg q0 a.0\nreg q1 a.1\necho e q0\n",
        5,
        2,
        "0+1 1+1",
    ),
    ("clock clk\ninput rst 1 0\n", 2, 0, "1 0"),
    ("clock clk\nsecret a 1 1\nreg q a.0\n", 3, 1, "0+1"),
    (
        "clock clk\nimem req addr rdata\ninput addr 0x0\ninput exp 0 0xa12623\n",
        4,
        0,
        "0 0 10561059",
    ),
    (
        "clock clk\nimem req addr rdata\ninput addr 0x0 0x4\ninput exp 0 0x123452b7 0x67828293\n",
        4,
        0,
        "0 4 0 305418935 1736606355",
    ),
    (
        "version 2\nsecret a 1 2\nclock clk\nreg q a.1\ndmem req we be addr wd rdata\ninput req 1\ninput we 1\ninput be 15\ninput addr 0x10000\nmem 0x10000 a.0\n",
        10,
        2,
        "1+1 1 1 15 65536 0+1",
    ),
    (
        "version 2\nsecret a 1 2\nclock clk\nreg q a.1\ndmem req we be addr wd rdata\ninput req 1\ninput we 1\ninput be 15\ninput addr 0x10000\nmem 0x10000 a.0\nleaf 0x10000\n",
        11,
        2,
        "1+1 1 1 15 65536 0+1",
    ),
    (
        "version 2\nsecret a 1 2\nclock clk\nreg q a.1\ndmem req we be addr wd rdata\ninput req 1\ninput we 0\ninput be 15\ninput addr 0x10000\nmem 0x10000 a.0\nleaf 0x10000\n",
        11,
        2,
        "1+1 1 0 15 65536 0+1",
    ),
    (
        "clock clk\ndmem req we be addr wdata rdata\ninput we 0\ninput be 0\ninput wdata 0\ninput req 1\ninput addr 0x10002\nmem 0x10000 0x1234\n",
        8,
        0,
        "0 0 0 1 65538 4660",
    ),
];

fn add_value(alloc: Global, text: &mut String, value: LabelValue) -> Result<(), Fail> {
    if !text.is_empty() {
        text.push_str(" ")?;
    }
    let shown = match value {
        LabelValue::Number(number) => format!(in alloc; "{number}")?,
        LabelValue::Bits { first, width } => format!(in alloc; "{first}+{width}")?,
    };
    text.push_str(shown.as_str())?;
    Ok(())
}

// the values of all lines in order
fn values_text(alloc: Global, labels: &Labels) -> Result<String, Fail> {
    let mut text = String::new(alloc);
    for line in labels.lines.iter() {
        match line {
            LabelLine::Reg { value, .. } | LabelLine::Mem { value, .. } => {
                add_value(alloc, &mut text, *value)?;
            }
            LabelLine::Input { values, .. } => {
                for value in values.iter() {
                    add_value(alloc, &mut text, *value)?;
                }
            }
            _ => {}
        }
    }
    Ok(text)
}

#[test]
fn label_files_of_runs_are_read_with_these_values(rt: HostRuntime) -> Result<(), Fail> {
    let alloc = rt.alloc();
    for (file, lines, declared, values) in ROWS {
        let labels = labels(&rt, alloc, file.as_bytes());
        assert_eq!(rt; labels.lines.len(), *lines, "{file}");
        assert_eq!(rt; labels.table.declared, *declared, "{file}");
        assert_eq!(rt; values_text(alloc, &labels)?.as_str(), *values, "{file}");
    }
    Ok(())
}

#[test]
fn as_many_labels_as_the_limit_are_read_and_one_more_is_refused(
    rt: HostRuntime,
) -> Result<(), Fail> {
    let alloc = rt.alloc();
    let mut file = String::new(alloc);
    for number in 0..64 {
        file.push_str(format!(in alloc; "secret s{number} 32 2\n")?.as_str())?;
    }
    assert_eq!(rt; labels(&rt, alloc, file.as_bytes()).table.declared, 4096);
    file.push_str("mask m 1\n")?;
    check_fault(
        &rt,
        alloc,
        file.as_bytes(),
        TooMany {
            count: 4097,
            limit: 4096,
        },
    );
    file.push_str("frob\n")?;
    check_fault(
        &rt,
        alloc,
        file.as_bytes(),
        TooMany {
            count: 4097,
            limit: 4096,
        },
    );
    Ok(())
}
