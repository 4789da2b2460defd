ghost use Rattle.std.specs.Prelude.{◌≡◌, length};

use crate::{Driver, Graph, GraphFault, build, can_build};
use coco_base::{Flat, FlatCell, FlatFlop, FlatPort, Kind, List, NoMemory, Text, Wire};
use std::alloc::{AllocError, Global};
use std::test::Fail;

const ZERO: Wire = Wire::Const(false);

fn buffer(alloc: Global, name: &str, input: u32, output: u32) -> Result<FlatCell, NoMemory> {
    gate(
        alloc,
        name,
        Kind::Buf,
        [Wire::Bit(input), ZERO, ZERO, ZERO],
        output,
    )
}

fn gate(
    alloc: Global,
    name: &str,
    kind: Kind,
    inputs: [Wire; 4],
    output: u32,
) -> Result<FlatCell, NoMemory> {
    Ok(FlatCell {
        name: Text::of(alloc, name)?,
        kind,
        inputs,
        output,
    })
}

fn flop(
    alloc: Global,
    name: &str,
    clock: Wire,
    next: u32,
    output: u32,
) -> Result<FlatFlop, NoMemory> {
    Ok(FlatFlop {
        name: Text::of(alloc, name)?,
        clock,
        next: Wire::Bit(next),
        output,
        reset: None,
        level: false,
    })
}

fn port(alloc: Global, name: &str, wires: &[Wire]) -> Result<FlatPort, NoMemory> {
    Ok(FlatPort {
        name: Text::of(alloc, name)?,
        input: true,
        wires: List::from_vec(Vec::from_slice(alloc, wires)?),
    })
}

/// A netlist of `bits` bits, without parts.
fn empty(alloc: Global, bits: u32) -> Flat {
    Flat {
        bits,
        ports: List::new(alloc),
        cells: List::new(alloc),
        flops: List::new(alloc),
        nets: List::new(alloc),
    }
}

/// What comes of a netlist, as a line.
fn answer(alloc: Global, flat: &Flat) -> Result<String, AllocError> {
    if !can_build(flat) {
        return format!(in alloc; "out of range");
    }
    match build(alloc, flat) {
        Ok(graph) => match graph.clock() {
            None => format!(in alloc; "no clock"),
            Some(bit) => format!(in alloc; "clock {bit}"),
        },
        Err(fault) => line(alloc, &fault),
    }
}

fn line(alloc: Global, fault: &GraphFault) -> Result<String, AllocError> {
    match fault {
        GraphFault::TwoDrivers { bit, first, second } => {
            let bit = bit.as_str();
            let first = first.as_str();
            let second = second.as_str();
            format!(in alloc; "111 {bit} {first} {second}")
        }
        GraphFault::Loop { cells } => {
            let mut line = format!(in alloc; "112 loop")?;
            for cell in cells.iter() {
                line.push_str(" ")?;
                line.push_str(cell.as_str())?;
            }
            Ok(line)
        }
        GraphFault::SecondClock { cell } => {
            let cell = cell.as_str();
            format!(in alloc; "113 {cell}")
        }
        GraphFault::Memory => format!(in alloc; "no memory"),
    }
}

#[test]
fn a_loop_of_two_cells_is_named(rt: HostRuntime) -> Result<(), Fail> {
    let alloc = rt.alloc();
    let mut flat = empty(alloc, 2);
    flat.cells.push(buffer(alloc, "c_y", 1, 0)?)?;
    flat.cells.push(buffer(alloc, "c_z", 0, 1)?)?;
    assert_eq!(rt; answer(alloc, &flat)?.as_str(), "112 loop c_y c_z");
    Ok(())
}

#[test]
fn a_loop_is_named_from_the_first_cell_that_is_met_again(rt: HostRuntime) -> Result<(), Fail> {
    let alloc = rt.alloc();
    let mut flat = empty(alloc, 4);
    flat.cells.push(buffer(alloc, "a", 3, 0)?)?;
    flat.cells.push(buffer(alloc, "c_x", 2, 1)?)?;
    flat.cells.push(buffer(alloc, "c_y", 3, 2)?)?;
    flat.cells.push(buffer(alloc, "c_z", 1, 3)?)?;
    assert_eq!(rt; answer(alloc, &flat)?.as_str(), "112 loop c_z c_x c_y");
    Ok(())
}

#[test]
fn a_walk_goes_to_the_first_input_without_a_level(rt: HostRuntime) -> Result<(), Fail> {
    let alloc = rt.alloc();
    let mut flat = empty(alloc, 4);
    let inputs = [Wire::Bit(3), Wire::Bit(1), Wire::Bit(0), ZERO];
    flat.cells.push(gate(alloc, "a", Kind::Mux, inputs, 0)?)?;
    flat.cells.push(buffer(alloc, "b", 0, 1)?)?;
    flat.cells.push(buffer(alloc, "c", 2, 3)?)?;
    assert_eq!(rt; answer(alloc, &flat)?.as_str(), "112 loop a b");
    Ok(())
}

#[test]
fn a_bit_at_two_places_of_a_port_has_two_drivers(rt: HostRuntime) -> Result<(), Fail> {
    let alloc = rt.alloc();
    let mut flat = empty(alloc, 2);
    let wires = [Wire::Bit(1), Wire::Bit(1)];
    flat.ports.push(port(alloc, "p", &wires)?)?;
    assert_eq!(rt; answer(alloc, &flat)?.as_str(), "111 p[0] p p");
    Ok(())
}

#[test]
fn the_least_bit_with_two_drivers_is_named_with_its_first_two(rt: HostRuntime) -> Result<(), Fail> {
    let alloc = rt.alloc();
    let mut flat = empty(alloc, 3);
    flat.ports.push(port(alloc, "p", &[Wire::Bit(2)])?)?;
    flat.cells.push(buffer(alloc, "c", 0, 2)?)?;
    assert_eq!(rt; answer(alloc, &flat)?.as_str(), "111 p p c");
    flat.cells.push(buffer(alloc, "d", 0, 1)?)?;
    flat.flops.push(flop(alloc, "f", Wire::Bit(2), 0, 1)?)?;
    flat.flops.push(flop(alloc, "g", Wire::Bit(2), 0, 1)?)?;
    assert_eq!(rt; answer(alloc, &flat)?.as_str(), "111 #1 d f");
    Ok(())
}

/// A netlist with the clock `clk` at bit 0, a flop `f` from bit 1 to bit 2, and one more flop.
fn clocked(alloc: Global, more: FlatFlop) -> Result<Flat, NoMemory> {
    let mut flat = empty(alloc, 4);
    flat.ports
        .push(port(alloc, "clk", &[Wire::Bit(0), Wire::Bit(1)])?)?;
    flat.flops.push(flop(alloc, "f", Wire::Bit(0), 1, 2)?)?;
    flat.flops.push(more)?;
    Ok(flat)
}

#[test]
fn one_clock_of_an_input_port_is_the_clock(rt: HostRuntime) -> Result<(), Fail> {
    let alloc = rt.alloc();
    let flat = clocked(alloc, flop(alloc, "g", Wire::Bit(0), 1, 3)?)?;
    assert_eq!(rt; answer(alloc, &flat)?.as_str(), "clock 0");
    assert_eq!(rt; answer(alloc, &empty(alloc, 1))?.as_str(), "no clock");
    Ok(())
}

#[test]
fn another_clock_is_refused(rt: HostRuntime) -> Result<(), Fail> {
    let alloc = rt.alloc();
    let second = clocked(alloc, flop(alloc, "g", Wire::Bit(1), 1, 3)?)?;
    assert_eq!(rt; answer(alloc, &second)?.as_str(), "113 g");
    let constant = clocked(alloc, flop(alloc, "g", ZERO, 1, 3)?)?;
    assert_eq!(rt; answer(alloc, &constant)?.as_str(), "113 g");
    let mut alone = empty(alloc, 1);
    alone.flops.push(flop(alloc, "f", ZERO, 0, 0)?)?;
    assert_eq!(rt; answer(alloc, &alone)?.as_str(), "113 f");
    Ok(())
}

#[test]
fn a_clock_that_is_read_as_a_value_is_refused(rt: HostRuntime) -> Result<(), Fail> {
    let alloc = rt.alloc();
    let next = clocked(alloc, flop(alloc, "g", Wire::Bit(0), 0, 3)?)?;
    assert_eq!(rt; answer(alloc, &next)?.as_str(), "113 g");
    let mut resets = flop(alloc, "g", Wire::Bit(0), 1, 3)?;
    resets.reset = Some(Wire::Bit(0));
    let mut reset = clocked(alloc, resets)?;
    assert_eq!(rt; answer(alloc, &reset)?.as_str(), "113 g");
    reset.bits = 5;
    reset.cells.push(buffer(alloc, "h", 0, 4)?)?;
    assert_eq!(rt; answer(alloc, &reset)?.as_str(), "113 h");
    Ok(())
}

#[test]
fn a_bit_out_of_range_is_told(rt: HostRuntime) -> Result<(), Fail> {
    let alloc = rt.alloc();
    let mut flat = empty(alloc, 2);
    flat.cells.push(buffer(alloc, "c", 2, 0)?)?;
    assert_eq!(rt; answer(alloc, &flat)?.as_str(), "out of range");
    Ok(())
}

/// Input bit 4, undriven bit 1, a gate of both, a gate of that, and one of both gates; a buffer of level 1.
fn three_levels(alloc: Global) -> Result<Flat, NoMemory> {
    let mut flat = empty(alloc, 6);
    flat.ports.push(port(alloc, "p", &[Wire::Bit(4)])?)?;
    flat.cells.push(gate(
        alloc,
        "a",
        Kind::Or,
        [Wire::Bit(4), Wire::Bit(1), ZERO, ZERO],
        3,
    )?)?;
    flat.cells.push(gate(
        alloc,
        "b",
        Kind::Xor,
        [Wire::Bit(3), Wire::Bit(2), ZERO, ZERO],
        0,
    )?)?;
    flat.cells.push(gate(alloc, "c", Kind::Not, [Wire::Bit(3), ZERO, ZERO, ZERO], 2)?)?;
    flat.cells.push(buffer(alloc, "d", 4, 5)?)?;
    Ok(flat)
}

#[test]
fn ranks_go_by_level_and_then_by_number(rt: HostRuntime) -> Result<(), Fail> {
    let alloc = rt.alloc();
    let flat = three_levels(alloc)?;
    assert!(rt; can_build(&flat));
    let graph = build(alloc, &flat)?;
    let mut ranks = Vec::new(alloc);
    for bit in 0..graph.bits() {
        ranks.push(graph.rank(bit))?;
    }
    assert_eq!(rt; ranks.as_slice(), [5, 0, 4, 2, 1, 3].as_slice());
    assert_eq!(rt; graph.order(), [0, 3, 2, 1].as_slice());
    Ok(())
}

/// The settled valuation under leaf values.
fn settled(alloc: Global, graph: &Graph, leaves: &[bool]) -> Result<Vec<bool>, NoMemory>
    requires { length leaves.now ≡ graph.now.flat.bits }
{
    let mut out = vec![in alloc; true; leaves.len()]?;
    graph.settle(leaves, out.as_mut_slice());
    Ok(out)
}

#[test]
fn cells_settle_whatever_stands_at_their_outputs(rt: HostRuntime) -> Result<(), Fail> {
    let alloc = rt.alloc();
    let flat = three_levels(alloc)?;
    assert!(rt; can_build(&flat));
    let graph = build(alloc, &flat)?;
    assert_eq!(rt; graph.bits(), 6);
    let high = settled(alloc, &graph, &[false, true, true, false, true, false])?;
    assert_eq!(rt;
        high.as_slice(),
        [true, false, false, true, true, true].as_slice()
    );
    let low = settled(alloc, &graph, &[true, false, false, true, false, true])?;
    assert_eq!(rt;
        low.as_slice(),
        [true, false, true, false, false, false].as_slice()
    );
    Ok(())
}

#[test]
fn drivers_are_told_by_place(rt: HostRuntime) -> Result<(), Fail> {
    let alloc = rt.alloc();
    let flat = clocked(alloc, flop(alloc, "g", Wire::Bit(0), 1, 3)?)?;
    assert!(rt; can_build(&flat));
    let graph = build(alloc, &flat)?;
    assert_eq!(rt; graph.bits(), 4);
    assert_eq!(rt; graph.driver(1), Driver::Port(0));
    assert_eq!(rt; graph.driver(3), Driver::Flop(1));
    assert_eq!(rt; graph.flops(), 2);
    assert_eq!(rt; graph.flop(1).name.as_str(), "g");
    assert_eq!(rt; graph.cells(), 0);
    Ok(())
}

#[test]
fn a_chain_of_buffers_builds_from_either_end(rt: HostRuntime) -> Result<(), Fail> {
    let alloc = rt.alloc();
    let length = 100_000;
    let mut flat = empty(alloc, length + 1);
    flat.ports.push(port(alloc, "p", &[Wire::Bit(length)])?)?;
    for bit in 0..length {
        flat.cells.push(buffer(alloc, "c", bit + 1, bit)?)?;
    }
    assert!(rt; can_build(&flat));
    let graph = build(alloc, &flat)?;
    let bits = graph.bits();
    let leaves = vec![in alloc; true; bits as usize]?;
    let mut out = vec![in alloc; false; bits as usize]?;
    graph.settle(leaves.as_slice(), out.as_mut_slice());
    assert_eq!(rt; out.first().copied(), Some(true));
    Ok(())
}
