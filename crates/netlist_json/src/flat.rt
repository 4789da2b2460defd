ghost use Rattle.std.specs.Prelude.{◌≡◌, ◌+◌, ◌≤◌, length, IfOk};
ghost use Rattle.std.specs.List.Sorted.{IsStrictlySortedBy};
ghost use Rattle.std.specs.Ordering.{nat_cmp};
ghost use Rattle.netlist_json.specs.Faults.{Gives};
ghost use Rattle.netlist_json.specs.Flats.{flat_of, flat_with, new_bits, within};

use crate::cell_type::mux_steps;
use crate::element::Element;
use crate::elements::{elements, no_inout};
use crate::fault::NetFault;
use crate::muxes::{flops, mux_nets, muxes};
use crate::numbers::{in_order, numbers};
use crate::order::merged;
use crate::renumber::{gates, nets, ports, registers};
use crate::source::Source;
use coco_base::{Flat, NoMemory};
use std::alloc::Global;

// the first bits and those of new multiplexers; a list of more than a u64 counts has no room in memory
fn bit_count(first: u64, elements: &[Element]) -> Result<u64, NoMemory>
    ensures { IfOk result (λ count. count ≡ first + new_bits elements.now) }
{
    let mut count = first;
    'elements: for element in elements {
        if let Element::Flop(flop) = element {
            let Some(more) = count.checked_add(mux_steps(flop.kind).len() as u64) else {
                return Err(NoMemory);
            };
            count = more;
        }
    }
    Ok(count)
}

fn within(limit: u32, count: u64) -> Result<u32, NetFault>
    ensures gives { Gives result (within limit count) }
    ensures bits { IfOk result (λ bits. (bits ≡ count) × (count ≤ limit)) }
{
    if u64::from(limit) < count {
        return Err(NetFault::TooMany {
            count,
            limit: u64::from(limit),
        });
    }
    Ok(count as u32)
}

fn numbered(
    alloc: Global,
    order: &[u32],
    source: &Source,
    elements: &[Element],
    bits: u32,
) -> Result<Flat, NoMemory>
    requires bits { bits ≡ length order.now + new_bits elements.now }
    requires order { IsStrictlySortedBy nat_cmp order.now }
    ensures { IfOk result (λ flat. flat ≡ flat_with order.now source.now elements.now) }
{
    let first = order.len() as u32;
    let registers = registers(alloc, order, elements)?;
    let muxes = muxes(alloc, registers.as_slice(), first)?;
    let made = mux_nets(alloc, muxes.as_slice())?;
    let ports = ports(alloc, order, source.ports.as_slice())?;
    let flops = flops(alloc, registers.as_slice(), first)?;
    let cells = merged(alloc, gates(alloc, order, elements)?, muxes)?;
    let nets = merged(alloc, nets(alloc, order, source.nets.as_slice())?, made)?;
    Ok(Flat {
        bits,
        ports,
        cells,
        flops,
        nets,
    })
}

/// The flat netlist of a module.
pub fn flat(alloc: Global, limit: u32, source: &Source) -> Result<Flat, NetFault>
    ensures { Gives result (flat_of limit source.now) }
{
    no_inout(alloc, source.ports.as_slice())?;
    let elements = elements(alloc, source.cells.as_slice())?;
    let numbers = numbers(alloc, source)?;
    let order = in_order(alloc, numbers.as_slice())?;
    let count = bit_count(order.len() as u64, elements.as_slice())?;
    let bits = within(limit, count)?;
    let flat = numbered(alloc, order.as_slice(), source, elements.as_slice(), bits)?;
    Ok(flat)
}
