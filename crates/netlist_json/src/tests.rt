use crate::{NetFault, read_netlist};
use coco_base::{Limits, NoMemory};
use std::alloc::Global;

pub(crate) fn fault_text(alloc: Global, fault: &NetFault) -> Result<String, NoMemory> {
    let text = match fault {
        NetFault::NotJson => "not JSON".to_string(alloc)?,
        NetFault::NoTop => "no top module".to_string(alloc)?,
        NetFault::ManyTops => "several modules".to_string(alloc)?,
        NetFault::Memory => "no memory".to_string(alloc)?,
        NetFault::Shape { path } => two(alloc, "shape", path.as_str())?,
        NetFault::Inout { port } => two(alloc, "inout", port.as_str())?,
        NetFault::UnknownCell { cell, kind } => three(alloc, cell.as_str(), "type", kind.as_str())?,
        NetFault::BadConnection { cell, port } => {
            three(alloc, cell.as_str(), "port", port.as_str())?
        }
        NetFault::TooMany { count, limit } => format!(in alloc; "bits {count} limit {limit}")?,
    };
    Ok(text)
}

fn two(alloc: Global, a: &str, b: &str) -> Result<String, NoMemory> {
    Ok(format!(in alloc; "{a} {b}")?)
}

fn three(alloc: Global, a: &str, b: &str, c: &str) -> Result<String, NoMemory> {
    Ok(format!(in alloc; "{a} {b} {c}")?)
}

// what is read of a file: the number of bits, or the fault
fn told(alloc: Global, file: &str, top: Option<&str>, bits: u32) -> Result<String, NoMemory> {
    let limits = Limits {
        bits,
        ..Limits::usual()
    };
    match read_netlist(alloc, file.as_bytes(), top, &limits) {
        Ok(flat) => {
            let bits = flat.bits;
            Ok(format!(in alloc; "{bits} bits")?)
        }
        Err(fault) => fault_text(alloc, &fault),
    }
}

// files, and what is read of each
const FAULTS: [(&str, &str); 29] = [
    (r#"{"modules":{}"#, "not JSON"),
    ("[]", "shape ."),
    ("{}", "shape modules"),
    (r#"{"modules":{}}"#, "no top module"),
    (r#"{"modules":{"s":1,"t":{}}}"#, "several modules"),
    (r#"{"modules":{"t":1}}"#, "shape modules/t"),
    (r#"{"modules":{"t":{"ports":null}}}"#, "shape ports"),
    (r#"{"modules":{"t":{"ports":{"p":[]}}}}"#, "shape ports/p"),
    (
        r#"{"modules":{"t":{"ports":{"p":{"direction":"in"}}}}}"#,
        "shape ports/p/direction",
    ),
    (
        r#"{"modules":{"t":{"ports":{"p":{"direction":"output"}}}}}"#,
        "shape ports/p/bits",
    ),
    (
        r#"{"modules":{"t":{"ports":{"p":{"direction":"input","bits":["0"]}}}}}"#,
        "shape ports/p/bits",
    ),
    (r#"{"modules":{"t":{"cells":[]}}}"#, "shape cells"),
    (r#"{"modules":{"t":{"cells":{"c":1}}}}"#, "shape cells/c"),
    (
        r#"{"modules":{"t":{"cells":{"c":{}}}}}"#,
        "shape cells/c/type",
    ),
    (
        r#"{"modules":{"t":{"cells":{"c":{"type":"x"}}}}}"#,
        "shape cells/c/connections",
    ),
    (
        r#"{"modules":{"t":{"cells":{"c":{"type":"x","connections":{"A":1}}}}}}"#,
        "shape cells/c/connections/A",
    ),
    (r#"{"modules":{"t":{"netnames":""}}}"#, "shape netnames"),
    (
        r#"{"modules":{"t":{"netnames":{"n":1}}}}"#,
        "shape netnames/n",
    ),
    (
        r#"{"modules":{"t":{"netnames":{"n":{"bits":[2.0]}}}}}"#,
        "shape netnames/n/bits",
    ),
    (
        r#"{"modules":{"t":{"netnames":{"n":{"bits":[2147483648]}}}}}"#,
        "shape netnames/n/bits",
    ),
    (
        r#"{"modules":{"t":{"ports":{"p":{"direction":"inout","bits":[]}},"netnames":{"n":1}}}}"#,
        "shape netnames/n",
    ),
    (
        r#"{"modules":{"t":{"ports":{"p":{"direction":"inout","bits":[]}},"cells":{"c":{"type":"x","connections":{}}}}}}"#,
        "inout p",
    ),
    (
        r#"{"modules":{"t":{"cells":{"c":{"type":"$_DLATCH_P_","connections":{}}}}}}"#,
        "c type $_DLATCH_P_",
    ),
    (
        r#"{"modules":{"t":{"cells":{"c":{"type":"$_NOT_","connections":{"X":[1],"Y":[2]}}}}}}"#,
        "c port A",
    ),
    (
        r#"{"modules":{"t":{"cells":{"c":{"type":"$_NOT_","connections":{"A":[1,1],"Y":[2]}}}}}}"#,
        "c port A",
    ),
    (
        r#"{"modules":{"t":{"cells":{"c":{"type":"$_NOT_","connections":{"A":["x"],"X":[1],"Y":["x"]}}}}}}"#,
        "c port Y",
    ),
    (
        r#"{"modules":{"t":{"cells":{"c":{"type":"$_NOT_","connections":{"A":["x"],"X":[1],"Y":[1]}}}}}}"#,
        "c port X",
    ),
    (
        r#"{"modules":{"t":{"cells":{"b":{"type":"$_NOT_","connections":{}},"a":{"type":"y","connections":{}}}}}}"#,
        "a type y",
    ),
    (
        r#"{"modules":{"t":{"cells":{"c":{"type":"$scopeinfo","connections":{"A":[7]}}},"netnames":{"n":{"bits":["z",7]}}}}}"#,
        "1 bits",
    ),
];

#[test]
fn each_fault_is_named_in_its_order(rt: HostRuntime) -> Result<(), NoMemory> {
    for (file, answer) in FAULTS {
        let told = told(rt.alloc(), file, None, 1_000_000)?;
        assert_eq!(rt; told.as_str(), answer);
    }
    Ok(())
}

#[test]
fn a_module_is_taken_by_its_name(rt: HostRuntime) -> Result<(), NoMemory> {
    let file = r#"{"modules":{"s":{"netnames":{"n":{"bits":[5,3]}}},"t":{}}}"#;
    for (top, answer) in [("s", "2 bits"), ("t", "0 bits"), ("u", "no top module")] {
        let told = told(rt.alloc(), file, Some(top), 1_000_000)?;
        assert_eq!(rt; told.as_str(), answer);
    }
    Ok(())
}

// arrays nested so deep
fn nested(alloc: Global, depth: usize) -> Result<String, NoMemory> {
    let mut file = String::new(alloc);
    for _level in 0..depth {
        file.push('[')?;
    }
    for _level in 0..depth {
        file.push(']')?;
    }
    Ok(file)
}

#[test]
fn a_file_nests_at_most_127_deep(rt: HostRuntime) -> Result<(), NoMemory> {
    for (depth, answer) in [(127, "shape ."), (128, "not JSON")] {
        let file = nested(rt.alloc(), depth)?;
        let told = told(rt.alloc(), file.as_str(), None, 1_000_000)?;
        assert_eq!(rt; told.as_str(), answer);
    }
    Ok(())
}

const YOSYS: &str =
    r#"{"creator":"Yosys","modules":{"top":{"attributes":{"top":"00000000000000000000000000000001"},
"ports":{"clk":{"direction":"input","bits":[2]},"rst_n":{"direction":"input","bits":[3]},"en":{"direction":"input","bits":[4]},"d":{"direction":"input","bits":[5]},"q":{"direction":"output","bits":[6]},"u":{"direction":"output","bits":["x"]}},
"cells":{"core":{"hide_name":0,"type":"$scopeinfo","parameters":{"TYPE":"module"},"attributes":{},"connections":{}},
"ff":{"hide_name":0,"type":"$_DFFE_PN0P_","parameters":{},"attributes":{"src":"t.v:3.1"},"connections":{"C":[2],"D":[5],"E":[4],"Q":[6],"R":[3]}}},
"netnames":{"clk":{"hide_name":0,"bits":[2],"attributes":{}},"q":{"hide_name":0,"bits":[6],"attributes":{}},"loose":{"hide_name":0,"bits":[7],"attributes":{}}}}}}"#;

#[test]
fn an_enable_is_a_bit_more_which_counts_against_the_limit(rt: HostRuntime) -> Result<(), NoMemory> {
    for (bits, answer) in [(7, "7 bits"), (6, "bits 7 limit 6")] {
        let told = told(rt.alloc(), YOSYS, None, bits)?;
        assert_eq!(rt; told.as_str(), answer);
    }
    Ok(())
}
