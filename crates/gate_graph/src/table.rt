// What drives each bit, looked up by the bit.
ghost use Rattle.std.specs.Prelude.{◌≡◌, ◌<◌, ◌↔◌, length, get_or, replicate, All, IfOk, IfErr, IsTrue};
ghost use Rattle.coco_model.specs.Netlist.{IsInRange};
ghost use Rattle.gate_graph.specs.declared.driver.Driver.TheVariants.{Nothing};
ghost use Rattle.gate_graph.specs.Drivers.{HasNumbers, IsWired};
ghost use Rattle.gate_graph.specs.Tables.{IsDriving, IsTable, IsBefore, IsTwoDriversFault};
ghost use Rattle.gate_graph.specs.Faults.{IsGraphFault};

use crate::driver::{Driver, Driving};
use crate::fault::GraphFault;
use crate::names::name_of_driver;
use crate::places::places_of;
use coco_base::{Flat, NoMemory, name_of_bit};
use std::alloc::Global;

/// What drives each bit, where no bit has two drivers.
pub(crate) fn drivers_of(alloc: Global, flat: &Flat) -> Result<Vec<Driver>, GraphFault>
    requires range { IsInRange flat.now }
    requires numbers { HasNumbers flat.now }
    ensures drivers { IfOk result (λ drivers. IsWired flat.now drivers.items) }
    ensures fault { IfErr result (IsGraphFault flat.now) }
{
    let places = places_of(alloc, flat)?;
    let mut drivers = unknown(alloc, flat.bits)?;
    match fill(drivers.as_mut_slice(), places.as_slice()) {
        None => Ok(drivers),
        Some(second) => {
            let first = drivers[second.bit as usize];
            Err(two_drivers(alloc, flat, first, second)?)
        }
    }
}

fn unknown(alloc: Global, bits: u32) -> Result<Vec<Driver>, NoMemory>
    ensures { IfOk result (λ drivers. drivers.items ≡ replicate bits Nothing) }
{
    Ok(vec![in alloc; Driver::Nothing; bits as usize]?)
}

/// Gives each bit its first driver, and answers the second driver of the least bit that has two.
fn fill(drivers: &mut [Driver], places: &[Driving]) -> Option<Driving>
    requires empty { drivers.old ≡ replicate (length drivers.old) Nothing }
    requires places { All (IsDriving (length drivers.old)) places.now }
    ensures { IsTable places.now drivers.new result }
{
    let mut second = None;
    'places: for place in places {
        if is_open(drivers, place.bit) {
            drivers[place.bit as usize] = place.driver;
        } else if is_before(place.bit, second) {
            second = Some(*place);
        }
    }
    second
}

fn is_open(drivers: &[Driver], bit: u32) -> bool
    requires { bit < length drivers.now }
    ensures { IsTrue result ↔ (get_or drivers.now bit Nothing ≡ Nothing) }
{
    drivers[bit as usize] == Driver::Nothing
}

fn is_before(bit: u32, second: Option<Driving>) -> bool
    ensures { IsTrue result ↔ IsBefore bit second }
{
    match second {
        None => true,
        Some(other) => bit < other.bit,
    }
}

/// The fault that names a bit and its first two drivers.
fn two_drivers(
    alloc: Global,
    flat: &Flat,
    first: Driver,
    second: Driving,
) -> Result<GraphFault, NoMemory>
    ensures { IfOk result (IsTwoDriversFault flat.now first second) }
{
    let bit = name_of_bit(alloc, flat, second.bit)?;
    let one = name_of_driver(alloc, flat, first)?;
    let other = name_of_driver(alloc, flat, second.driver)?;
    Ok(GraphFault::TwoDrivers {
        bit,
        first: one,
        second: other,
    })
}
