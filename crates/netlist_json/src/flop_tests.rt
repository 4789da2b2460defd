use crate::read_netlist;
use crate::tests::fault_text;
use coco_base::{Flat, FlatCell, FlatFlop, Limits, NoMemory, Wire};
use std::alloc::Global;
use std::process::Abort;

fn wire_text(alloc: Global, wire: Wire) -> Result<String, NoMemory> {
    match wire {
        Wire::Const(value) => {
            let value = u8::from(value);
            Ok(format!(in alloc; "c{value}")?)
        }
        Wire::Bit(bit) => Ok(format!(in alloc; "b{bit}")?),
    }
}

fn cell_text(alloc: Global, cell: &FlatCell) -> Result<String, NoMemory> {
    let name = cell.name.as_str();
    let [a, b, s, _unused] = cell.inputs;
    let a = wire_text(alloc, a)?;
    let b = wire_text(alloc, b)?;
    let s = wire_text(alloc, s)?;
    Ok(format!(in alloc; "{name} {a} {b} {s}, ")?)
}

fn flop_text(alloc: Global, flop: &FlatFlop) -> Result<String, NoMemory> {
    let next = wire_text(alloc, flop.next)?;
    let Some(reset) = flop.reset else {
        return Ok(format!(in alloc; "next {next} reset none")?);
    };
    let reset = wire_text(alloc, reset)?;
    let level = if flop.level { "high" } else { "low" };
    Ok(format!(in alloc; "next {next} reset {reset} {level}")?)
}

fn parts_text(alloc: Global, flat: &Flat) -> Result<String, NoMemory> {
    let mut text = String::new(alloc);
    for cell in flat.cells.as_slice() {
        text.push_str(cell_text(alloc, cell)?.as_str())?;
    }
    for flop in flat.flops.as_slice() {
        text.push_str(flop_text(alloc, flop)?.as_str())?;
    }
    Ok(text)
}

// a type, its connections beside C, D and Q, and what it becomes
const FLOPS: [(&str, &str, &str); 35] = [
    ("$_DFF_P_", r#""#, "next b1 reset none"),
    (
        "$_DFFE_PP_",
        r#","E":[4]"#,
        "f.e b4 b1 b2, next b5 reset none",
    ),
    (
        "$_DFFE_PN_",
        r#","E":[4]"#,
        "f.e b1 b4 b2, next b5 reset none",
    ),
    ("$_DFF_PP0_", r#","R":[5]"#, "next b1 reset b3 high"),
    ("$_DFF_PP1_", r#","R":[5]"#, "next b1 reset b3 high"),
    ("$_DFF_PN0_", r#","R":[5]"#, "next b1 reset b3 low"),
    ("$_DFF_PN1_", r#","R":[5]"#, "next b1 reset b3 low"),
    (
        "$_DFFE_PP0P_",
        r#","E":[4],"R":[5]"#,
        "f.e b4 b1 b2, next b5 reset b3 high",
    ),
    (
        "$_DFFE_PP0N_",
        r#","E":[4],"R":[5]"#,
        "f.e b1 b4 b2, next b5 reset b3 high",
    ),
    (
        "$_DFFE_PP1P_",
        r#","E":[4],"R":[5]"#,
        "f.e b4 b1 b2, next b5 reset b3 high",
    ),
    (
        "$_DFFE_PP1N_",
        r#","E":[4],"R":[5]"#,
        "f.e b1 b4 b2, next b5 reset b3 high",
    ),
    (
        "$_DFFE_PN0P_",
        r#","E":[4],"R":[5]"#,
        "f.e b4 b1 b2, next b5 reset b3 low",
    ),
    (
        "$_DFFE_PN0N_",
        r#","E":[4],"R":[5]"#,
        "f.e b1 b4 b2, next b5 reset b3 low",
    ),
    (
        "$_DFFE_PN1P_",
        r#","E":[4],"R":[5]"#,
        "f.e b4 b1 b2, next b5 reset b3 low",
    ),
    (
        "$_DFFE_PN1N_",
        r#","E":[4],"R":[5]"#,
        "f.e b1 b4 b2, next b5 reset b3 low",
    ),
    (
        "$_SDFF_PP0_",
        r#","R":[5]"#,
        "f.r b1 c0 b3, next b5 reset none",
    ),
    (
        "$_SDFF_PP1_",
        r#","R":[5]"#,
        "f.r b1 c1 b3, next b5 reset none",
    ),
    (
        "$_SDFF_PN0_",
        r#","R":[5]"#,
        "f.r c0 b1 b3, next b5 reset none",
    ),
    (
        "$_SDFF_PN1_",
        r#","R":[5]"#,
        "f.r c1 b1 b3, next b5 reset none",
    ),
    (
        "$_SDFFE_PP0P_",
        r#","E":[4],"R":[5]"#,
        "f.e b4 b1 b2, f.r b5 c0 b3, next b6 reset none",
    ),
    (
        "$_SDFFE_PP0N_",
        r#","E":[4],"R":[5]"#,
        "f.e b1 b4 b2, f.r b5 c0 b3, next b6 reset none",
    ),
    (
        "$_SDFFE_PP1P_",
        r#","E":[4],"R":[5]"#,
        "f.e b4 b1 b2, f.r b5 c1 b3, next b6 reset none",
    ),
    (
        "$_SDFFE_PP1N_",
        r#","E":[4],"R":[5]"#,
        "f.e b1 b4 b2, f.r b5 c1 b3, next b6 reset none",
    ),
    (
        "$_SDFFE_PN0P_",
        r#","E":[4],"R":[5]"#,
        "f.e b4 b1 b2, f.r c0 b5 b3, next b6 reset none",
    ),
    (
        "$_SDFFE_PN0N_",
        r#","E":[4],"R":[5]"#,
        "f.e b1 b4 b2, f.r c0 b5 b3, next b6 reset none",
    ),
    (
        "$_SDFFE_PN1P_",
        r#","E":[4],"R":[5]"#,
        "f.e b4 b1 b2, f.r c1 b5 b3, next b6 reset none",
    ),
    (
        "$_SDFFE_PN1N_",
        r#","E":[4],"R":[5]"#,
        "f.e b1 b4 b2, f.r c1 b5 b3, next b6 reset none",
    ),
    (
        "$_SDFFCE_PP0P_",
        r#","E":[4],"R":[5]"#,
        "f.e b4 b5 b2, f.r b1 c0 b3, next b6 reset none",
    ),
    (
        "$_SDFFCE_PP0N_",
        r#","E":[4],"R":[5]"#,
        "f.e b5 b4 b2, f.r b1 c0 b3, next b6 reset none",
    ),
    (
        "$_SDFFCE_PP1P_",
        r#","E":[4],"R":[5]"#,
        "f.e b4 b5 b2, f.r b1 c1 b3, next b6 reset none",
    ),
    (
        "$_SDFFCE_PP1N_",
        r#","E":[4],"R":[5]"#,
        "f.e b5 b4 b2, f.r b1 c1 b3, next b6 reset none",
    ),
    (
        "$_SDFFCE_PN0P_",
        r#","E":[4],"R":[5]"#,
        "f.e b4 b5 b2, f.r c0 b1 b3, next b6 reset none",
    ),
    (
        "$_SDFFCE_PN0N_",
        r#","E":[4],"R":[5]"#,
        "f.e b5 b4 b2, f.r c0 b1 b3, next b6 reset none",
    ),
    (
        "$_SDFFCE_PN1P_",
        r#","E":[4],"R":[5]"#,
        "f.e b4 b5 b2, f.r c1 b1 b3, next b6 reset none",
    ),
    (
        "$_SDFFCE_PN1N_",
        r#","E":[4],"R":[5]"#,
        "f.e b5 b4 b2, f.r c1 b1 b3, next b6 reset none",
    ),
];

// a flop `f` of a type, with d, e, r and q as bits 1 to 4
fn flop_file(alloc: Global, kind: &str, more: &str) -> Result<String, NoMemory> {
    let cell = format!(in alloc;
        r#"{{"type":"{kind}","connections":{{"C":[2],"D":[3],"Q":[6]{more}}}}}"#
    )?;
    let cell = cell.as_str();
    Ok(format!(in alloc;
        r#"{{"modules":{{"t":{{"cells":{{"f":{cell}}},"netnames":{{"n":{{"bits":[4,5]}}}}}}}}}}"#
    )?)
}

// each file of the rows is read as its row says
fn check_flops(
    rt: &impl Abort,
    alloc: Global,
    flops: &[(&str, &str, &str)],
) -> Result<(), NoMemory> {
    for (kind, more, answer) in flops {
        let file = flop_file(alloc, kind, more)?;
        let text = match read_netlist(alloc, file.as_bytes(), None, &Limits::usual()) {
            Ok(flat) => parts_text(alloc, &flat)?,
            Err(fault) => fault_text(alloc, &fault)?,
        };
        assert_eq!(rt; text.as_str(), *answer);
    }
    Ok(())
}

#[test]
fn each_type_of_flop_becomes_its_multiplexers(rt: HostRuntime) -> Result<(), NoMemory> {
    check_flops(&rt, rt.alloc(), &FLOPS)
}
