ghost use Rattle.std.specs.Prelude.{◌≡◌, ◌<◌, ◌^◌, length, map, IfOk};
ghost use Rattle.std.specs.List.Sorted.{IsStrictlySortedBy};
ghost use Rattle.std.specs.Ordering.{nat_cmp};
ghost use Rattle.netlist_json.specs.Flats.{flat_gate, flat_gates, flat_net, flat_port, flat_register, flat_registers, flat_wire, is_input};

use crate::element::{Element, Register};
use crate::numbers::place;
use crate::source::{Direction, SourcePort};
use coco_base::{FlatCell, FlatNet, FlatPort, List, NoMemory, Text, Wire};
use std::alloc::Global;

fn wire(order: &[u32], wire: Wire) -> Wire
    requires few { length order.now < 2 ^ 32 }
    requires order { IsStrictlySortedBy nat_cmp order.now }
    ensures { result ≡ flat_wire order.now wire }
{
    match wire {
        Wire::Const(value) => Wire::Const(value),
        Wire::Bit(number) => Wire::Bit(place(order, number)),
    }
}

fn wires(alloc: Global, order: &[u32], wires: &[Wire]) -> Result<List<Wire>, NoMemory>
    requires few { length order.now < 2 ^ 32 }
    requires order { IsStrictlySortedBy nat_cmp order.now }
    ensures { IfOk result (λ l. l ≡ map (flat_wire order.now) wires.now) }
{
    let mut all = List::new(alloc);
    'wires: for tied in wires {
        all.push(wire(order, *tied))?;
    }
    Ok(all)
}

/// Ports by their flat numbers.
pub fn ports(alloc: Global, order: &[u32], ports: &[SourcePort]) -> Result<List<FlatPort>, NoMemory>
    requires few { length order.now < 2 ^ 32 }
    requires order { IsStrictlySortedBy nat_cmp order.now }
    ensures { IfOk result (λ l. l ≡ map (flat_port order.now) ports.now) }
{
    let mut all = List::new(alloc);
    'ports: for port in ports {
        let name = Text::of(alloc, port.name.as_str())?;
        let input = is_input(port.direction);
        let wires = wires(alloc, order, port.wires.as_slice())?;
        all.push(FlatPort { name, input, wires })?;
    }
    Ok(all)
}

fn is_input(direction: Direction) -> bool
    ensures { result ≡ is_input direction }
{
    match direction {
        Direction::Input => true,
        Direction::Output | Direction::Inout => false,
    }
}

/// Nets by their flat numbers.
pub fn nets(alloc: Global, order: &[u32], nets: &[FlatNet]) -> Result<Vec<FlatNet>, NoMemory>
    requires few { length order.now < 2 ^ 32 }
    requires order { IsStrictlySortedBy nat_cmp order.now }
    ensures { IfOk result (λ v. v.items ≡ map (flat_net order.now) nets.now) }
{
    let mut all = Vec::new(alloc);
    'nets: for net in nets {
        let name = Text::of(alloc, net.name.as_str())?;
        let wires = wires(alloc, order, net.wires.as_slice())?;
        all.push(FlatNet { name, wires })?;
    }
    Ok(all)
}

fn inputs(order: &[u32], inputs: [Wire; 4]) -> [Wire; 4]
    requires few { length order.now < 2 ^ 32 }
    requires order { IsStrictlySortedBy nat_cmp order.now }
    ensures { result ≡ map (flat_wire order.now) inputs }
{
    let [a, b, c, d] = inputs;
    [
        wire(order, a),
        wire(order, b),
        wire(order, c),
        wire(order, d),
    ]
}

fn gate(alloc: Global, order: &[u32], cell: &FlatCell) -> Result<FlatCell, NoMemory>
    requires few { length order.now < 2 ^ 32 }
    requires order { IsStrictlySortedBy nat_cmp order.now }
    ensures { IfOk result (λ c. c ≡ flat_gate order.now cell.now) }
{
    let name = Text::of(alloc, cell.name.as_str())?;
    let inputs = inputs(order, cell.inputs);
    let output = place(order, cell.output);
    Ok(FlatCell {
        name,
        kind: cell.kind,
        inputs,
        output,
    })
}

fn register(alloc: Global, order: &[u32], flop: &Register) -> Result<Register, NoMemory>
    requires few { length order.now < 2 ^ 32 }
    requires order { IsStrictlySortedBy nat_cmp order.now }
    ensures { IfOk result (λ r. r ≡ flat_register order.now flop.now) }
{
    Ok(Register {
        name: Text::of(alloc, flop.name.as_str())?,
        kind: flop.kind,
        next: wire(order, flop.next),
        clock: wire(order, flop.clock),
        enable: wire(order, flop.enable),
        reset: wire(order, flop.reset),
        output: place(order, flop.output),
    })
}

/// Gates by their flat numbers.
pub fn gates(alloc: Global, order: &[u32], elements: &[Element]) -> Result<Vec<FlatCell>, NoMemory>
    requires few { length order.now < 2 ^ 32 }
    requires order { IsStrictlySortedBy nat_cmp order.now }
    ensures { IfOk result (λ v. v.items ≡ flat_gates order.now elements.now) }
{
    let mut all = Vec::new(alloc);
    'elements: for element in elements {
        if let Element::Gate(cell) = element {
            all.push(gate(alloc, order, cell)?)?;
        }
    }
    Ok(all)
}

/// Registers by their flat numbers.
pub fn registers(
    alloc: Global,
    order: &[u32],
    elements: &[Element],
) -> Result<Vec<Register>, NoMemory>
    requires few { length order.now < 2 ^ 32 }
    requires order { IsStrictlySortedBy nat_cmp order.now }
    ensures { IfOk result (λ v. v.items ≡ flat_registers order.now elements.now) }
{
    let mut all = Vec::new(alloc);
    'elements: for element in elements {
        if let Element::Flop(flop) = element {
            all.push(register(alloc, order, flop)?)?;
        }
    }
    Ok(all)
}
