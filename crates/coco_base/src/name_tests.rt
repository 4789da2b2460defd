use crate::{Flat, FlatNet, FlatPort, List, NoMemory, Text, Wire, name_of_bit, names_of_bits};
use std::alloc::Global;

fn wires(alloc: Global, bits: &[u32]) -> Result<List<Wire>, NoMemory> {
    let mut wires = List::new(alloc);
    for bit in bits {
        wires.push(Wire::Bit(*bit))?;
    }
    Ok(wires)
}

fn net(alloc: Global, name: &str, bits: &[u32]) -> Result<FlatNet, NoMemory> {
    Ok(FlatNet {
        name: Text::of(alloc, name)?,
        wires: wires(alloc, bits)?,
    })
}

// bit 0 is in nets `$a` and `b`, bit 1 in `bus` twice, bit 2 in net and port `c`, bit 3 in `$a` alone, bit 4 in none
fn netlist(alloc: Global) -> Result<Flat, NoMemory> {
    let mut nets = List::new(alloc);
    nets.push(net(alloc, "$a", &[3, 0])?)?;
    nets.push(net(alloc, "b", &[0])?)?;
    nets.push(net(alloc, "bus", &[2, 1, 1])?)?;
    nets.push(net(alloc, "c", &[2])?)?;
    let mut ports = List::new(alloc);
    ports.push(FlatPort {
        name: Text::of(alloc, "c")?,
        input: true,
        wires: wires(alloc, &[0, 2])?,
    })?;
    Ok(Flat {
        bits: 5,
        ports,
        cells: List::new(alloc),
        flops: List::new(alloc),
        nets,
    })
}

#[test]
fn a_bit_has_the_least_name_that_is_not_hidden(rt: HostRuntime) -> Result<(), NoMemory> {
    let flat = netlist(rt.alloc())?;
    for (bit, name) in ["b", "bus[1]", "bus[0]", "$a[0]", "#4"].iter().enumerate() {
        let found = name_of_bit(rt.alloc(), &flat, bit as u32)?;
        assert_eq!(rt; found.as_str(), *name);
    }
    Ok(())
}

#[test]
fn the_names_of_all_bits_are_the_names_of_each(rt: HostRuntime) -> Result<(), NoMemory> {
    let flat = netlist(rt.alloc())?;
    let names = names_of_bits(rt.alloc(), &flat)?;
    assert_eq!(rt; names.len(), 5);
    for (bit, name) in names.iter().enumerate() {
        let found = name_of_bit(rt.alloc(), &flat, bit as u32)?;
        assert_eq!(rt; found.as_str(), name.as_str());
    }
    Ok(())
}
