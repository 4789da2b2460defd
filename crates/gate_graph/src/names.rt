// The names that refusals cite.
ghost use Rattle.std.specs.Prelude.{◌≡◌, IfOk};
ghost use Rattle.gate_graph.specs.declared.driver.Driver.TheVariants.{Port, Cell, Flop};
ghost use Rattle.gate_graph.specs.Drivers.{driver_name};

use crate::copies::name_of;
use crate::driver::Driver;
use coco_base::{Flat, NoMemory, Text};
use std::alloc::Global;

/// The name of a port, cell or flop.
pub(crate) fn name_of_driver(alloc: Global, flat: &Flat, driver: Driver) -> Result<Text, NoMemory>
    ensures { IfOk result (λ name. name ≡ driver_name flat.now driver) }
{
    match driver {
        Driver::Port(number) => port_name(alloc, flat, number),
        Driver::Cell(number) => cell_name(alloc, flat, number),
        Driver::Flop(number) => flop_name(alloc, flat, number),
        Driver::Nothing => Text::of(alloc, ""),
    }
}

fn port_name(alloc: Global, flat: &Flat, number: u32) -> Result<Text, NoMemory>
    ensures { IfOk result (λ name. name ≡ driver_name flat.now (Port number)) }
{
    match flat.ports.as_slice().get(number as usize) {
        Some(port) => name_of(alloc, &port.name),
        None => Text::of(alloc, ""),
    }
}

pub(crate) fn cell_name(alloc: Global, flat: &Flat, number: u32) -> Result<Text, NoMemory>
    ensures { IfOk result (λ name. name ≡ driver_name flat.now (Cell number)) }
{
    match flat.cells.as_slice().get(number as usize) {
        Some(cell) => name_of(alloc, &cell.name),
        None => Text::of(alloc, ""),
    }
}

fn flop_name(alloc: Global, flat: &Flat, number: u32) -> Result<Text, NoMemory>
    ensures { IfOk result (λ name. name ≡ driver_name flat.now (Flop number)) }
{
    match flat.flops.as_slice().get(number as usize) {
        Some(flop) => name_of(alloc, &flop.name),
        None => Text::of(alloc, ""),
    }
}
