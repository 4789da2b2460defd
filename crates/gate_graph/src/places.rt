// The places that drive bits, in order.
ghost use Rattle.std.specs.Prelude.{◌≡◌, ◌+◌, ◌<◌, ◌^◌, ◌++◌, List, map, length, IfOk, OnOk};
ghost use Rattle.coco_model.specs.Netlist.{bits_in};
ghost use Rattle.gate_graph.specs.Drivers.{HasNumbers, drivings, port_drivings, cell_drivings, flop_drivings, port_driving};

use crate::driver::{Driver, Driving};
use coco_base::{Flat, FlatCell, FlatFlop, FlatPort, NoMemory, Wire};
use std::alloc::Global;

/// All places that drive a bit: of input ports in their order, then cells, then flops.
pub(crate) fn places_of(alloc: Global, flat: &Flat) -> Result<Vec<Driving>, NoMemory>
    requires { HasNumbers flat.now }
    ensures { IfOk result (λ places. places.items ≡ drivings flat.now) }
{
    let mut places = Vec::new(alloc);
    add_ports(&mut places, flat.ports.as_slice())?;
    add_cells(&mut places, flat.cells.as_slice())?;
    add_flops(&mut places, flat.flops.as_slice())?;
    Ok(places)
}

fn add_ports(places: &mut Vec<Driving>, ports: &[FlatPort]) -> Result<(), NoMemory>
    requires { length ports.now < 2 ^ 32 }
    ensures { OnOk result (places.new.items ≡ places.old.items ++ port_drivings 0 ports.now) }
{
    'ports: for number in 0..ports.len() {
        let port = &ports[number];
        if port.input {
            add_wires(places, number as u32, port.wires.as_slice())?;
        }
    }
    Ok(())
}

fn add_wires(places: &mut Vec<Driving>, number: u32, wires: &[Wire]) -> Result<(), NoMemory>
    ensures { OnOk result (places.new.items ≡ places.old.items ++ map (port_driving number) (bits_in wires.now)) }
{
    'wires: for wire in wires {
        if let Wire::Bit(bit) = *wire {
            places.push(Driving {
                bit,
                driver: Driver::Port(number),
            })?;
        }
    }
    Ok(())
}

fn add_cells(places: &mut Vec<Driving>, cells: &[FlatCell]) -> Result<(), NoMemory>
    requires { length cells.now < 2 ^ 32 }
    ensures { OnOk result (places.new.items ≡ places.old.items ++ cell_drivings 0 cells.now) }
{
    'cells: for number in 0..cells.len() {
        places.push(Driving {
            bit: cells[number].output,
            driver: Driver::Cell(number as u32),
        })?;
    }
    Ok(())
}

fn add_flops(places: &mut Vec<Driving>, flops: &[FlatFlop]) -> Result<(), NoMemory>
    requires { length flops.now < 2 ^ 32 }
    ensures { OnOk result (places.new.items ≡ places.old.items ++ flop_drivings 0 flops.now) }
{
    'flops: for number in 0..flops.len() {
        places.push(Driving {
            bit: flops[number].output,
            driver: Driver::Flop(number as u32),
        })?;
    }
    Ok(())
}
