//! Copies of the parts of a netlist.
ghost use Rattle.std.specs.Prelude.{◌≡◌, IfOk};

use coco_base::{FlatCell, FlatFlop, FlatNet, FlatPort, List, NoMemory, Text, Wire};
use std::alloc::Global;

pub(crate) fn name_of(alloc: Global, name: &Text) -> Result<Text, NoMemory>
    ensures { IfOk result (λ copy. copy ≡ name.now) }
{
    Text::of(alloc, name.as_str())
}

pub(crate) fn wires_of(alloc: Global, wires: &[Wire]) -> Result<List<Wire>, NoMemory>
    ensures { IfOk result (λ copy. copy ≡ wires.now) }
{
    Ok(List::from_vec(Vec::from_slice(alloc, wires)?))
}

pub(crate) fn ports_of(alloc: Global, ports: &[FlatPort]) -> Result<Vec<FlatPort>, NoMemory>
    ensures { IfOk result (λ copies. copies.items ≡ ports.now) }
{
    let mut copies = Vec::new(alloc);
    'ports: for port in ports {
        copies.push(FlatPort {
            name: name_of(alloc, &port.name)?,
            input: port.input,
            wires: wires_of(alloc, port.wires.as_slice())?,
        })?;
    }
    Ok(copies)
}

pub(crate) fn cells_of(alloc: Global, cells: &[FlatCell]) -> Result<List<FlatCell>, NoMemory>
    ensures { IfOk result (λ copies. copies ≡ cells.now) }
{
    let mut copies = Vec::new(alloc);
    'cells: for cell in cells {
        copies.push(FlatCell {
            name: name_of(alloc, &cell.name)?,
            kind: cell.kind,
            inputs: cell.inputs,
            output: cell.output,
        })?;
    }
    Ok(List::from_vec(copies))
}

pub(crate) fn flops_of(alloc: Global, flops: &[FlatFlop]) -> Result<List<FlatFlop>, NoMemory>
    ensures { IfOk result (λ copies. copies ≡ flops.now) }
{
    let mut copies = Vec::new(alloc);
    'flops: for flop in flops {
        copies.push(FlatFlop {
            name: name_of(alloc, &flop.name)?,
            clock: flop.clock,
            next: flop.next,
            output: flop.output,
            reset: flop.reset,
            level: flop.level,
        })?;
    }
    Ok(List::from_vec(copies))
}

pub(crate) fn nets_of(alloc: Global, nets: &[FlatNet]) -> Result<List<FlatNet>, NoMemory>
    ensures { IfOk result (λ copies. copies ≡ nets.now) }
{
    let mut copies = Vec::new(alloc);
    'nets: for net in nets {
        copies.push(FlatNet {
            name: name_of(alloc, &net.name)?,
            wires: wires_of(alloc, net.wires.as_slice())?,
        })?;
    }
    Ok(List::from_vec(copies))
}
