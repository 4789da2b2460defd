use coco_base::{Flat, FlatCell, FlatNet, FlatPort, Kind, List, NoMemory, Text, Wire};
use gate_graph::{GraphFault, build, can_build};
use std::alloc::Global;

/// An inverter from a bit to the next one.
fn inverter(alloc: Global, bit: u32) -> Result<FlatCell, NoMemory> {
    Ok(FlatCell {
        name: Text::of(alloc, "not")?,
        kind: Kind::Not,
        inputs: [
            Wire::Bit(bit),
            Wire::Const(false),
            Wire::Const(false),
            Wire::Const(false),
        ],
        output: bit.saturating_add(1),
    })
}

/// A chain of inverters behind an input port of one bit. The last inverter stands first in the list of cells.
pub(crate) fn chain(alloc: Global, count: u32) -> Result<Flat, NoMemory> {
    let mut ports = List::new(alloc);
    let mut wires = List::new(alloc);
    wires.push(Wire::Bit(0))?;
    ports.push(FlatPort {
        name: Text::of(alloc, "in")?,
        input: true,
        wires,
    })?;
    let mut cells = List::new(alloc);
    for bit in (0..count).rev() {
        cells.push(inverter(alloc, bit)?)?;
    }
    let nets: List<FlatNet> = List::new(alloc);
    Ok(Flat {
        bits: count.saturating_add(1),
        ports,
        cells,
        flops: List::new(alloc),
        nets,
    })
}

/// The value at the end of a chain whose input is 0, by the graph's settled valuation; none where the netlist cannot be
/// built.
pub(crate) fn last_value(alloc: Global, flat: &Flat) -> Result<Option<bool>, NoMemory> {
    if !can_build(flat) {
        return Ok(None);
    }
    let graph = match build(alloc, flat) {
        Ok(graph) => graph,
        Err(GraphFault::Memory) => return Err(NoMemory),
        Err(_) => return Ok(None),
    };
    let leaves = vec![in alloc; false; graph.bits() as usize]?;
    let mut values = vec![in alloc; false; graph.bits() as usize]?;
    graph.settle(&leaves, &mut values);
    Ok(values.last().copied())
}
