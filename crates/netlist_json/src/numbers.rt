ghost use Rattle.std.specs.Prelude.{◌≡◌, ◌++◌, ◌<◌, ◌^◌, length, flat_map, fold, IfOk, OnOk};
ghost use Rattle.std.specs.List.Sorted.{IsStrictlySortedBy};
ghost use Rattle.std.specs.Ordering.{nat_cmp};
ghost use Rattle.netlist_json.specs.Flats.{ascending, cell_numbers, net_numbers, numbers_in, place_of, port_numbers, wire_numbers};

use crate::source::{Source, SourceCell, SourcePort};
use coco_base::{FlatNet, NoMemory, Wire};
use std::alloc::Global;
use std::collections::BTreeSet;

fn note_wires(all: &mut Vec<u32>, wires: &[Wire]) -> Result<(), NoMemory>
    ensures { OnOk result (all.new.items ≡ all.old.items ++ flat_map wire_numbers wires.now) }
{
    'wires: for wire in wires {
        if let Wire::Bit(number) = *wire {
            all.push(number)?;
        }
    }
    Ok(())
}

fn note_nets(all: &mut Vec<u32>, nets: &[FlatNet]) -> Result<(), NoMemory>
    ensures { OnOk result (all.new.items ≡ all.old.items ++ flat_map net_numbers nets.now) }
{
    'nets: for net in nets {
        note_wires(all, net.wires.as_slice())?;
    }
    Ok(())
}

fn note_ports(all: &mut Vec<u32>, ports: &[SourcePort]) -> Result<(), NoMemory>
    ensures { OnOk result (all.new.items ≡ all.old.items ++ flat_map port_numbers ports.now) }
{
    'ports: for port in ports {
        note_wires(all, port.wires.as_slice())?;
    }
    Ok(())
}

fn note_cells(all: &mut Vec<u32>, cells: &[SourceCell]) -> Result<(), NoMemory>
    ensures { OnOk result (all.new.items ≡ all.old.items ++ flat_map cell_numbers cells.now) }
{
    'cells: for cell in cells {
        note_nets(all, cell.connections.as_slice())?;
    }
    Ok(())
}

/// Each number that occurs in a module.
pub fn numbers(alloc: Global, source: &Source) -> Result<Vec<u32>, NoMemory>
    ensures { IfOk result (λ v. v.items ≡ numbers_in source.now) }
{
    let mut all = Vec::new(alloc);
    note_ports(&mut all, source.ports.as_slice())?;
    note_cells(&mut all, source.cells.as_slice())?;
    note_nets(&mut all, source.nets.as_slice())?;
    Ok(all)
}

/// The different numbers of a slice, in ascending order.
pub fn in_order(alloc: Global, numbers: &[u32]) -> Result<Vec<u32>, NoMemory>
    ensures items { IfOk result (λ v. v.items ≡ ascending numbers.now) }
    ensures order { IfOk result (λ v. IsStrictlySortedBy nat_cmp v.items) }
{
    let mut set = BTreeSet::new(alloc);
    'numbers: for number in numbers {
        set.insert(*number)?;
    }
    Ok(set.iter().copied().collect(alloc)?)
}

/// The place of a number among numbers in order, and their count where it is not there.
pub fn place(order: &[u32], number: u32) -> u32
    requires few { length order.now < 2 ^ 32 }
    requires order { IsStrictlySortedBy nat_cmp order.now }
    ensures { result ≡ place_of order.now number }
{
    match order.binary_search(&number) {
        Ok(place) => place as u32,
        Err(_) => order.len() as u32,
    }
}
