ghost use Rattle.std.specs.Prelude.{◌≡◌, IfOk, option_and_then, option_map};
ghost use Rattle.netlist_json.specs.Elements.{all_ports, element, element_of, elements_of, input_of, inputs_of, is_inout, is_named, is_port, is_scope, no_inout, number_of, only_wire, output_of, wire_at};
ghost use Rattle.netlist_json.specs.CellTypes.{input_ports};
ghost use Rattle.netlist_json.specs.Faults.{Gives};

use crate::cell_type::{CellType, input_ports, output_port, type_of};
use crate::element::{Element, Register};
use crate::fault::NetFault;
use crate::source::{Direction, SourceCell, SourcePort};
use coco_base::{FlatCell, FlatNet, List, NoMemory, Text, Wire};
use std::alloc::Global;

fn is_inout(direction: Direction) -> bool
    ensures { result ≡ is_inout direction }
{
    match direction {
        Direction::Input | Direction::Output => false,
        Direction::Inout => true,
    }
}

/// Whether each port is an input or an output.
pub fn no_inout(alloc: Global, ports: &[SourcePort]) -> Result<(), NetFault>
    ensures { Gives result (no_inout ports.now) }
{
    'ports: for port in ports {
        if is_inout(port.direction) {
            let port = Text::of(alloc, port.name.as_str())?;
            return Err(NetFault::Inout { port });
        }
    }
    Ok(())
}

fn only(wires: &[Wire]) -> Option<Wire>
    ensures { result ≡ only_wire wires.now }
{
    match wires {
        [wire] => Some(*wire),
        _ => None,
    }
}

fn wire_at(port: &str, connections: &[FlatNet]) -> Option<Wire>
    ensures { result ≡ wire_at port.now connections.now }
{
    'connections: for connection in connections {
        if connection.name.as_str() == port {
            return only(connection.wires.as_slice());
        }
    }
    None
}

fn number(wire: Wire) -> Option<u32>
    ensures { result ≡ number_of wire }
{
    match wire {
        Wire::Const(_) => None,
        Wire::Bit(number) => Some(number),
    }
}

fn bad(alloc: Global, cell: &str, port: &str) -> Result<NetFault, NoMemory>
    ensures { IfOk result (λ fault. fault ≡ NetFault.BadConnection cell.now port.now) }
{
    Ok(NetFault::BadConnection {
        cell: Text::of(alloc, cell)?,
        port: Text::of(alloc, port)?,
    })
}

fn input(alloc: Global, cell: &SourceCell, port: Option<&str>) -> Result<Wire, NetFault>
    ensures { Gives result (input_of cell.now (option_map (λ s. s.now) port.entry)) }
{
    let Some(port) = port else {
        return Ok(Wire::Const(false));
    };
    match wire_at(port, cell.connections.as_slice()) {
        Some(wire) => Ok(wire),
        None => Err(bad(alloc, cell.name.as_str(), port)?),
    }
}

fn inputs(alloc: Global, cell: &SourceCell, kind: CellType) -> Result<[Wire; 4], NetFault>
    ensures { Gives result (inputs_of cell.now (input_ports kind)) }
{
    let [a, b, c, d] = input_ports(kind);
    let a = input(alloc, cell, a)?;
    let b = input(alloc, cell, b)?;
    let c = input(alloc, cell, c)?;
    let d = input(alloc, cell, d)?;
    Ok([a, b, c, d])
}

fn driven(port: &str, connections: &[FlatNet]) -> Option<u32>
    ensures { result ≡ option_and_then number_of (wire_at port.now connections.now) }
{
    match wire_at(port, connections) {
        Some(wire) => number(wire),
        None => None,
    }
}

fn output(alloc: Global, cell: &SourceCell, port: &str) -> Result<u32, NetFault>
    ensures { Gives result (output_of cell.now port.now) }
{
    match driven(port, cell.connections.as_slice()) {
        Some(number) => Ok(number),
        None => Err(bad(alloc, cell.name.as_str(), port)?),
    }
}

fn is_named(name: &str, port: Option<&str>) -> bool
    ensures { result ≡ is_named name.now (option_map (λ s. s.now) port.entry) }
{
    match port {
        Some(port) => name == port,
        None => false,
    }
}

fn is_port(kind: CellType, name: &str) -> bool
    ensures { result ≡ is_port kind name.now }
{
    let [a, b, c, d] = input_ports(kind);
    name == output_port(kind)
        || is_named(name, a)
        || is_named(name, b)
        || is_named(name, c)
        || is_named(name, d)
}

fn all_ports(
    alloc: Global,
    cell: &str,
    kind: CellType,
    connections: &[FlatNet],
) -> Result<(), NetFault>
    ensures { Gives result (all_ports cell.now kind connections.now) }
{
    'connections: for connection in connections {
        if !is_port(kind, connection.name.as_str()) {
            return Err(bad(alloc, cell, connection.name.as_str())?);
        }
    }
    Ok(())
}

fn unknown(alloc: Global, cell: &SourceCell) -> Result<NetFault, NoMemory>
    ensures { IfOk result (λ fault. fault ≡ NetFault.UnknownCell cell.now.name cell.now.kind) }
{
    Ok(NetFault::UnknownCell {
        cell: Text::of(alloc, cell.name.as_str())?,
        kind: Text::of(alloc, cell.kind.as_str())?,
    })
}

fn made(name: Text, kind: CellType, inputs: [Wire; 4], output: u32) -> Element
    ensures { result ≡ element name kind inputs output }
{
    match kind {
        CellType::Gate(kind) => Element::Gate(FlatCell {
            name,
            kind,
            inputs,
            output,
        }),
        CellType::Flop(kind) => {
            let [next, clock, enable, reset] = inputs;
            Element::Flop(Register {
                name,
                kind,
                next,
                clock,
                enable,
                reset,
                output,
            })
        }
    }
}

fn element(alloc: Global, cell: &SourceCell) -> Result<Element, NetFault>
    ensures { Gives result (element_of cell.now) }
{
    let Some(kind) = type_of(cell.kind.as_str()) else {
        return Err(unknown(alloc, cell)?);
    };
    let inputs = inputs(alloc, cell, kind)?;
    let output = output(alloc, cell, output_port(kind))?;
    all_ports(alloc, cell.name.as_str(), kind, cell.connections.as_slice())?;
    let name = Text::of(alloc, cell.name.as_str())?;
    Ok(made(name, kind, inputs, output))
}

fn is_scope(cell: &SourceCell) -> bool
    ensures { result ≡ is_scope cell.now }
{
    cell.kind.as_str() == "$scopeinfo"
}

/// The gates and the flops of a module, in order of names.
pub fn elements(alloc: Global, cells: &[SourceCell]) -> Result<List<Element>, NetFault>
    ensures { Gives result (elements_of cells.now) }
{
    let mut all = List::new(alloc);
    'cells: for cell in cells {
        if is_scope(cell) {
            continue;
        }
        all.push(element(alloc, cell)?)?;
    }
    Ok(all)
}
