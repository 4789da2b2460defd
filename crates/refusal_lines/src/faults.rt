// The faults of the layers as texts, each with the refusal's number.
ghost use Rattle.std.specs.Prelude.{◌≡◌, ◌++◌, [], OnOk, codes, flat_map};
ghost use Rattle.cycle_sim.specs.declared.fault.SimFault.TheVariants.{AddressOutside};
ghost use Rattle.refusal_lines.specs.Refusals.{asm_text, beyond, bind_text, cone_text, graph_text, label_text, named, net_text, numbered, proof_text, sim_text, unroll_text};

use bind_run::BindFault;
use coco_base::{NoMemory, Text};
use cycle_sim::SimFault;
use derivation_check::ProofFault;
use gate_graph::GraphFault;
use label_cone::ConeFault;
use label_file::LabelFault;
use leak_report::text::{add, add_hex, add_name, add_number};
use netlist_json::NetFault;
use rv_asm::AsmFault;
use std::alloc::Global;
use unroll::UnrollFault;

/// Adds words and a name.
pub(crate) fn add_named(
    text: &mut Vec<u8>,
    alloc: Global,
    words: &[u8],
    name: &Text,
) -> Result<(), NoMemory>
    ensures { OnOk result (text.new.items ≡ text.old.items ++ named words.now name.now) }
{
    add(text, words)?;
    add_name(text, alloc, name.as_bytes())
}

/// Adds words and a number.
pub(crate) fn add_numbered(
    text: &mut Vec<u8>,
    alloc: Global,
    words: &[u8],
    number: u64,
) -> Result<(), NoMemory>
    ensures { OnOk result (text.new.items ≡ text.old.items ++ numbered words.now number) }
{
    add(text, words)?;
    add_number(text, alloc, u128::from(number))
}

fn add_line(text: &mut Vec<u8>, alloc: Global, words: &[u8], line: u32) -> Result<(), NoMemory>
    ensures { OnOk result (text.new.items ≡ text.old.items ++ numbered words.now line) }
{
    add_numbered(text, alloc, words, u64::from(line))
}

fn add_beyond(
    text: &mut Vec<u8>,
    alloc: Global,
    words: &[u8],
    count: u64,
    limit: u64,
) -> Result<(), NoMemory>
    ensures { OnOk result (text.new.items ≡ text.old.items ++ beyond words.now count limit) }
{
    add_numbered(text, alloc, words, count)?;
    add_numbered(text, alloc, b" limit ", limit)
}

fn add_two_named(
    text: &mut Vec<u8>,
    alloc: Global,
    first: (&[u8], &Text),
    second: (&[u8], &Text),
) -> Result<(), NoMemory>
    ensures { OnOk result (text.new.items ≡ text.old.items ++ named first.entry.0.now first.entry.1.now
        ++ named second.entry.0.now second.entry.1.now) }
{
    add_named(text, alloc, first.0, first.1)?;
    add_named(text, alloc, second.0, second.1)
}

/// Adds why a netlist is not read.
pub(crate) fn add_net(text: &mut Vec<u8>, alloc: Global, fault: &NetFault) -> Result<(), NoMemory>
    ensures { OnOk result (text.new.items ≡ text.old.items ++ net_text fault.now) }
{
    match fault {
        NetFault::NotJson => add(text, b"101 not JSON"),
        NetFault::NoTop => add(text, b"102 no top module"),
        NetFault::ManyTops => add(text, b"103 several modules"),
        NetFault::Shape { path } => add_named(text, alloc, b"104 shape ", path),
        NetFault::UnknownCell { cell, kind } => {
            add_two_named(text, alloc, (b"105 cell ", cell), (b" type ", kind))
        }
        NetFault::BadConnection { cell, port } => {
            add_two_named(text, alloc, (b"106 cell ", cell), (b" port ", port))
        }
        NetFault::Inout { port } => add_named(text, alloc, b"107 inout port ", port),
        NetFault::TooMany { count, limit } => add_beyond(text, alloc, b"108 bits ", *count, *limit),
        NetFault::Memory => Ok(()),
    }
}

fn add_cells(text: &mut Vec<u8>, alloc: Global, cells: &[Text]) -> Result<(), NoMemory>
    ensures { OnOk result (text.new.items ≡ text.old.items ++ flat_map (named (codes " ")) cells.now) }
{
    'cells: for cell in cells {
        add_named(text, alloc, b" ", cell)?;
    }
    Ok(())
}

fn add_loop(text: &mut Vec<u8>, alloc: Global, cells: &[Text]) -> Result<(), NoMemory>
    ensures { OnOk result (text.new.items ≡ text.old.items ++ codes "112 loop"
        ++ flat_map (named (codes " ")) cells.now) }
{
    add(text, b"112 loop")?;
    add_cells(text, alloc, cells)
}

fn add_drivers(
    text: &mut Vec<u8>,
    alloc: Global,
    bit: &Text,
    first: &Text,
    second: &Text,
) -> Result<(), NoMemory>
    ensures { OnOk result (text.new.items ≡ text.old.items ++ named (codes "111 bit ") bit.now
        ++ named (codes " drivers ") first.now ++ named (codes " ") second.now) }
{
    add_named(text, alloc, b"111 bit ", bit)?;
    add_two_named(text, alloc, (b" drivers ", first), (b" ", second))
}

/// Adds why a netlist has no graph.
pub(crate) fn add_graph(
    text: &mut Vec<u8>,
    alloc: Global,
    fault: &GraphFault,
) -> Result<(), NoMemory>
    ensures { OnOk result (text.new.items ≡ text.old.items ++ graph_text fault.now) }
{
    match fault {
        GraphFault::TwoDrivers { bit, first, second } => {
            add_drivers(text, alloc, bit, first, second)
        }
        GraphFault::Loop { cells } => add_loop(text, alloc, cells.as_slice()),
        GraphFault::SecondClock { cell } => add_named(text, alloc, b"113 clock of cell ", cell),
        GraphFault::Memory => Ok(()),
    }
}

/// Adds why a program is not read.
pub(crate) fn add_asm(text: &mut Vec<u8>, alloc: Global, fault: AsmFault) -> Result<(), NoMemory>
    ensures { OnOk result (text.new.items ≡ text.old.items ++ asm_text fault) }
{
    match fault {
        AsmFault::BadLine { line } => add_line(text, alloc, b"201 bad program line ", line),
        AsmFault::UnknownName { line } => add_line(text, alloc, b"202 unknown name line ", line),
        AsmFault::Range { line } => add_line(text, alloc, b"203 range line ", line),
        AsmFault::Twice { line } => add_line(text, alloc, b"204 defined twice line ", line),
        AsmFault::Memory => Ok(()),
    }
}

/// Adds why a label file is not read.
pub(crate) fn add_label(
    text: &mut Vec<u8>,
    alloc: Global,
    fault: LabelFault,
) -> Result<(), NoMemory>
    ensures { OnOk result (text.new.items ≡ text.old.items ++ label_text fault) }
{
    match fault {
        LabelFault::BadLine { line } => add_line(text, alloc, b"301 bad label line ", line),
        LabelFault::Twice { line } => add_line(text, alloc, b"302 twice line ", line),
        LabelFault::UnknownSecret { line } => {
            add_line(text, alloc, b"303 unknown label line ", line)
        }
        LabelFault::ShareRange { line } => add_line(text, alloc, b"304 share range line ", line),
        LabelFault::TooMany { count, limit } => {
            add_beyond(text, alloc, b"305 labels ", count, limit)
        }
        LabelFault::Memory => Ok(()),
    }
}

/// Adds why a label file does not fit a netlist.
pub(crate) fn add_bind(text: &mut Vec<u8>, alloc: Global, fault: &BindFault) -> Result<(), NoMemory>
    ensures { OnOk result (text.new.items ≡ text.old.items ++ bind_text fault.now) }
{
    match fault {
        BindFault::NoSuchNet { name } => add_named(text, alloc, b"311 no net ", name),
        BindFault::Width { name } => add_named(text, alloc, b"312 width of ", name),
        BindFault::BoundTwice { name } => add_named(text, alloc, b"313 bound twice ", name),
        BindFault::InputUnbound { name } => add_named(text, alloc, b"314 input unbound ", name),
        BindFault::ClockMismatch { name } => add_named(text, alloc, b"315 clock ", name),
        BindFault::WrongDriver { name } => add_named(text, alloc, b"316 driver of ", name),
        BindFault::NameTaken { name } => add_named(text, alloc, b"317 name taken ", name),
        BindFault::LeafBits { count, limit } => {
            add_beyond(text, alloc, b"318 bits ", *count, *limit)
        }
        BindFault::Memory => Ok(()),
    }
}

fn add_in_cycle(
    text: &mut Vec<u8>,
    alloc: Global,
    words: &[u8],
    name: &Text,
    cycle: u32,
) -> Result<(), NoMemory>
    ensures { OnOk result (text.new.items ≡ text.old.items ++ named words.now name.now
        ++ numbered (codes " cycle ") cycle) }
{
    add_named(text, alloc, words, name)?;
    add_line(text, alloc, b" cycle ", cycle)
}

fn add_address(text: &mut Vec<u8>, alloc: Global, address: u32, cycle: u32) -> Result<(), NoMemory>
    ensures { OnOk result (text.new.items ≡ text.old.items
        ++ sim_text (AddressOutside cycle address) []) }
{
    add(text, b"402 address ")?;
    add_hex(text, address)?;
    add_line(text, alloc, b" cycle ", cycle)
}

fn add_sim(text: &mut Vec<u8>, alloc: Global, fault: SimFault, name: &Text) -> Result<(), NoMemory>
    ensures { OnOk result (text.new.items ≡ text.old.items ++ sim_text fault name.now) }
{
    match fault {
        SimFault::ControlDepends { cycle, .. } => {
            add_in_cycle(text, alloc, b"401 control ", name, cycle)
        }
        SimFault::AddressOutside { cycle, address } => add_address(text, alloc, address, cycle),
        SimFault::ResetActive { cycle, .. } => {
            add_in_cycle(text, alloc, b"403 reset of cell ", name, cycle)
        }
    }
}

/// Adds why a run is not unrolled.
pub(crate) fn add_unroll(
    text: &mut Vec<u8>,
    alloc: Global,
    fault: &UnrollFault,
) -> Result<(), NoMemory>
    ensures { OnOk result (text.new.items ≡ text.old.items ++ unroll_text fault.now) }
{
    match fault {
        UnrollFault::Sim { fault, name } => add_sim(text, alloc, *fault, name),
        UnrollFault::TooManyNodes { count, limit } => {
            add_beyond(text, alloc, b"411 nodes ", *count, *limit)
        }
        UnrollFault::Memory => Ok(()),
    }
}

/// Adds why cones are too large.
pub(crate) fn add_cone(text: &mut Vec<u8>, alloc: Global, fault: ConeFault) -> Result<(), NoMemory>
    ensures { OnOk result (text.new.items ≡ text.old.items ++ cone_text fault) }
{
    match fault {
        ConeFault::TooLarge { count, limit } => {
            add_beyond(text, alloc, b"421 weight ", count, limit)
        }
        ConeFault::Memory => Ok(()),
    }
}

/// Adds why a derivation is not read.
pub(crate) fn add_proof(
    text: &mut Vec<u8>,
    alloc: Global,
    fault: &ProofFault,
) -> Result<(), NoMemory>
    ensures { OnOk result (text.new.items ≡ text.old.items ++ proof_text fault.now) }
{
    match fault {
        ProofFault::BadLine { line } => add_line(text, alloc, b"501 proof line ", *line),
        ProofFault::Memory => Ok(()),
    }
}
