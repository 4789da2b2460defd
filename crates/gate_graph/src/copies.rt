ghost use Rattle.std.specs.Prelude.{◌≡◌, IfOk};

use coco_base::{Flat, FlatCell, FlatFlop, FlatNet, FlatPort, List, NoMemory, Text, Wire};
use std::alloc::Global;

/// A copy of a netlist.
pub(crate) fn copy_of(alloc: Global, flat: &Flat) -> Result<Flat, NoMemory>
    ensures { IfOk result (λ copy. copy ≡ flat.now) }
{
    let ports = ports_of(alloc, flat.ports.as_slice())?;
    let cells = cells_of(alloc, flat.cells.as_slice())?;
    let flops = flops_of(alloc, flat.flops.as_slice())?;
    let nets = nets_of(alloc, flat.nets.as_slice())?;
    Ok(Flat {
        bits: flat.bits,
        ports,
        cells,
        flops,
        nets,
    })
}

fn ports_of(alloc: Global, ports: &[FlatPort]) -> Result<List<FlatPort>, NoMemory>
    ensures { IfOk result (λ copies. copies ≡ ports.now) }
{
    let mut copies = Vec::new(alloc);
    'ports: for port in ports {
        copies.push(FlatPort {
            name: name_of(alloc, &port.name)?,
            input: port.input,
            wires: wires_of(alloc, &port.wires)?,
        })?;
    }
    Ok(List::from_vec(copies))
}

fn cells_of(alloc: Global, cells: &[FlatCell]) -> Result<List<FlatCell>, NoMemory>
    ensures { IfOk result (λ copies. copies ≡ cells.now) }
{
    let mut copies = Vec::new(alloc);
    'cells: for cell in cells {
        copies.push(FlatCell {
            name: name_of(alloc, &cell.name)?,
            kind: cell.kind,
            inputs: cell.inputs,
            output: cell.output,
        })?;
    }
    Ok(List::from_vec(copies))
}

fn flops_of(alloc: Global, flops: &[FlatFlop]) -> Result<List<FlatFlop>, NoMemory>
    ensures { IfOk result (λ copies. copies ≡ flops.now) }
{
    let mut copies = Vec::new(alloc);
    'flops: for flop in flops {
        copies.push(FlatFlop {
            name: name_of(alloc, &flop.name)?,
            clock: flop.clock,
            next: flop.next,
            output: flop.output,
            reset: flop.reset,
            level: flop.level,
        })?;
    }
    Ok(List::from_vec(copies))
}

fn nets_of(alloc: Global, nets: &[FlatNet]) -> Result<List<FlatNet>, NoMemory>
    ensures { IfOk result (λ copies. copies ≡ nets.now) }
{
    let mut copies = Vec::new(alloc);
    'nets: for net in nets {
        copies.push(FlatNet {
            name: name_of(alloc, &net.name)?,
            wires: wires_of(alloc, &net.wires)?,
        })?;
    }
    Ok(List::from_vec(copies))
}

pub(crate) fn name_of(alloc: Global, name: &Text) -> Result<Text, NoMemory>
    ensures { IfOk result (λ copy. copy ≡ name.now) }
{
    Text::of(alloc, name.as_str())
}

fn wires_of(alloc: Global, wires: &List<Wire>) -> Result<List<Wire>, NoMemory>
    ensures { IfOk result (λ copy. copy ≡ wires.now) }
{
    Ok(List::from_vec(Vec::from_slice(alloc, wires.as_slice())?))
}
