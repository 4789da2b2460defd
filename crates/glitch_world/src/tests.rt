ghost use Rattle.std.specs.Prelude.{◌<◌};

use crate::{Event, World};
use coco_base::{Flat, FlatCell, FlatPort, Kind, List, NoMemory, Text, Wire};
use gate_graph::{build, can_build};
use std::alloc::Global;
use std::test::Fail;

const ZERO: Wire = Wire::Const(false);

fn gate(alloc: Global, kind: Kind, inputs: [Wire; 4], output: u32) -> Result<FlatCell, NoMemory> {
    Ok(FlatCell {
        name: Text::of(alloc, "c")?,
        kind,
        inputs,
        output,
    })
}

/// Input bits 0 and 1, their exclusive or at bit 2, and what the multiplexer with select 1 makes of it at bit 3.
fn pulsing(alloc: Global) -> Result<Flat, NoMemory> {
    let inputs = [Wire::Bit(0), Wire::Bit(1)];
    let mut flat = Flat {
        bits: 4,
        ports: List::new(alloc),
        cells: List::new(alloc),
        flops: List::new(alloc),
        nets: List::new(alloc),
    };
    flat.ports.push(FlatPort {
        name: Text::of(alloc, "p")?,
        input: true,
        wires: List::from_vec(Vec::from_slice(alloc, &inputs)?),
    })?;
    let selected = [ZERO, Wire::Bit(2), Wire::Bit(1), ZERO];
    let both = [Wire::Bit(0), Wire::Bit(1), ZERO, ZERO];
    flat.cells.push(gate(alloc, Kind::Mux, selected, 3)?)?;
    flat.cells.push(gate(alloc, Kind::Xor, both, 2)?)?;
    Ok(flat)
}

/// The values of a bit before the first event and after each.
fn waveform(
    alloc: Global,
    world: &mut World,
    events: &[Event],
    bit: u32,
) -> Result<Vec<bool>, NoMemory>
    requires { bit < world.old.gates.flat.bits }
{
    let mut values = Vec::new(alloc);
    values.push(world.value(bit))?;
    'events: for event in events {
        if world.has_event(*event) {
            world.event(*event);
        }
        values.push(world.value(bit))?;
    }
    Ok(values)
}

#[test]
fn a_gate_pulses_where_its_inputs_change_one_after_the_other(rt: HostRuntime) -> Result<(), Fail> {
    let alloc = rt.alloc();
    let flat = pulsing(alloc)?;
    assert!(rt; can_build(&flat));
    let graph = build(alloc, &flat)?;
    assert_eq!(rt; graph.bits(), 4);
    let mut world = World::start(alloc, &graph, &[false; 4], &[true; 4])?;
    let events = [
        Event::Leaf(0),
        Event::Cell(1),
        Event::Leaf(1),
        Event::Cell(1),
    ];
    let values = waveform(alloc, &mut world, &events, 2)?;
    assert_eq!(rt;
        values.as_slice(),
        [false, false, true, true, false].as_slice()
    );
    Ok(())
}

#[test]
fn a_cell_goes_by_the_present_values_alone(rt: HostRuntime) -> Result<(), Fail> {
    let alloc = rt.alloc();
    let flat = pulsing(alloc)?;
    assert!(rt; can_build(&flat));
    let graph = build(alloc, &flat)?;
    assert_eq!(rt; graph.bits(), 4);
    let mut world = World::start(alloc, &graph, &[true, false, false, false], &[true; 4])?;
    let events = [
        Event::Cell(0),
        Event::Leaf(1),
        Event::Cell(0),
        Event::Cell(1),
        Event::Cell(0),
    ];
    let values = waveform(alloc, &mut world, &events, 3)?;
    assert_eq!(rt;
        values.as_slice(),
        [false, false, false, true, true, false].as_slice()
    );
    Ok(())
}
