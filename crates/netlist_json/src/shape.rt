ghost use Rattle.std.specs.Prelude.{◌≡◌, ◌++◌, IfOk, codes, option_map};
ghost use Rattle.std.specs.List.{list_all};
ghost use Rattle.serde_json.specs.View.{members_view, view};
ghost use Rattle.netlist_json.specs.Faults.{Gives};
ghost use Rattle.netlist_json.specs.Shape.{array_wires, bits_of, cell_of, connection_of, direction_of, each, is_number, may_have, module_of, named_module, net_of, only_module, parts, path_of, port_bits, port_of, source_of};

use crate::fault::NetFault;
use crate::source::{Direction, Source, SourceCell, SourcePort};
use crate::wires::wires;
use coco_base::{FlatNet, List, NoMemory, Text, Wire};
use serde_json::{Map, Value};
use std::alloc::Global;

// the fault of a part of the file
fn shape(alloc: Global, group: &str, name: &str, rest: &str) -> Result<NetFault, NoMemory>
    ensures { IfOk result (λ fault. fault ≡ NetFault.Shape (path_of group.now name.now rest.now)) }
{
    let path = Text::from_string(format!(in alloc; "{group}/{name}{rest}")?);
    Ok(NetFault::Shape { path })
}

fn array_wires(alloc: Global, value: &Value) -> Result<Option<List<Wire>>, NoMemory>
    ensures { IfOk result (λ o. o ≡ array_wires (view value.now)) }
{
    match value.as_array() {
        Some(values) => wires(alloc, values.as_slice()),
        None => Ok(None),
    }
}

fn bits(alloc: Global, value: &Value) -> Result<Option<List<Wire>>, NoMemory>
    ensures { IfOk result (λ o. o ≡ bits_of (view value.now)) }
{
    match value.get("bits") {
        Some(value) => array_wires(alloc, value),
        None => Ok(None),
    }
}

fn direction(text: &str) -> Option<Direction>
    ensures { result ≡ direction_of text.now }
{
    match text {
        "input" => Some(Direction::Input),
        "output" => Some(Direction::Output),
        "inout" => Some(Direction::Inout),
        _ => None,
    }
}

fn is_number(wire: Wire) -> bool
    ensures { result ≡ is_number wire }
{
    match wire {
        Wire::Const(_) => false,
        Wire::Bit(_) => true,
    }
}

fn all_numbers(wires: &[Wire]) -> bool
    ensures { result ≡ list_all is_number wires.now }
{
    wires.iter().all(|wire| is_number(*wire))
}

fn may_have(direction: Direction, wires: &[Wire]) -> bool
    ensures { result ≡ may_have direction wires.now }
{
    match direction {
        Direction::Input => all_numbers(wires),
        Direction::Output | Direction::Inout => true,
    }
}

fn port_bits(
    alloc: Global,
    direction: Direction,
    value: &Value,
) -> Result<Option<List<Wire>>, NoMemory>
    ensures { IfOk result (λ o. o ≡ port_bits direction (view value.now)) }
{
    let Some(wires) = bits(alloc, value)? else {
        return Ok(None);
    };
    if may_have(direction, wires.as_slice()) {
        Ok(Some(wires))
    } else {
        Ok(None)
    }
}

fn port(alloc: Global, name: &str, value: &Value) -> Result<SourcePort, NetFault>
    ensures { Gives result (port_of name.now (view value.now)) }
{
    if !value.is_object() {
        return Err(shape(alloc, "ports", name, "")?);
    }
    let Some(direction) = value
        .get("direction")
        .and_then(Value::as_str)
        .and_then(direction)
    else {
        return Err(shape(alloc, "ports", name, "/direction")?);
    };
    let Some(wires) = port_bits(alloc, direction, value)? else {
        return Err(shape(alloc, "ports", name, "/bits")?);
    };
    let name = Text::of(alloc, name)?;
    Ok(SourcePort {
        name,
        direction,
        wires,
    })
}

fn net(alloc: Global, name: &str, value: &Value) -> Result<FlatNet, NetFault>
    ensures { Gives result (net_of name.now (view value.now)) }
{
    if !value.is_object() {
        return Err(shape(alloc, "netnames", name, "")?);
    }
    let Some(wires) = bits(alloc, value)? else {
        return Err(shape(alloc, "netnames", name, "/bits")?);
    };
    let name = Text::of(alloc, name)?;
    Ok(FlatNet { name, wires })
}

fn connection(alloc: Global, cell: &str, port: &str, value: &Value) -> Result<FlatNet, NetFault>
    ensures { Gives result (connection_of cell.now port.now (view value.now)) }
{
    let Some(wires) = array_wires(alloc, value)? else {
        return Err(pin_shape(alloc, cell, port)?);
    };
    let name = Text::of(alloc, port)?;
    Ok(FlatNet { name, wires })
}

fn pin_shape(alloc: Global, cell: &str, port: &str) -> Result<NetFault, NoMemory>
    ensures { IfOk result (λ fault. fault
        ≡ NetFault.Shape (path_of (codes "cells") cell.now (codes "/connections/" ++ port.now))) }
{
    let path = Text::from_string(format!(in alloc; "cells/{cell}/connections/{port}")?);
    Ok(NetFault::Shape { path })
}

fn connections(
    alloc: Global,
    cell: &str,
    members: &Map<String, Value>,
) -> Result<List<FlatNet>, NetFault>
    ensures { Gives result (each (connection_of cell.now) (members_view members.now.entries)) }
{
    let mut all = List::new(alloc);
    'connections: for (port, value) in members.iter() {
        all.push(connection(alloc, cell, port.as_str(), value)?)?;
    }
    Ok(all)
}

fn cell(alloc: Global, name: &str, value: &Value) -> Result<SourceCell, NetFault>
    ensures { Gives result (cell_of name.now (view value.now)) }
{
    if !value.is_object() {
        return Err(shape(alloc, "cells", name, "")?);
    }
    let Some(kind) = value.get("type").and_then(Value::as_str) else {
        return Err(shape(alloc, "cells", name, "/type")?);
    };
    let Some(members) = value.get("connections").and_then(Value::as_object) else {
        return Err(shape(alloc, "cells", name, "/connections")?);
    };
    let connections = connections(alloc, name, members)?;
    let name = Text::of(alloc, name)?;
    let kind = Text::of(alloc, kind)?;
    Ok(SourceCell {
        name,
        kind,
        connections,
    })
}

fn group_shape(alloc: Global, group: &str) -> Result<NetFault, NoMemory>
    ensures { IfOk result (λ fault. fault ≡ NetFault.Shape group.now) }
{
    Ok(NetFault::Shape {
        path: Text::of(alloc, group)?,
    })
}

fn ports(alloc: Global, members: &Map<String, Value>) -> Result<List<SourcePort>, NetFault>
    ensures { Gives result (each port_of (members_view members.now.entries)) }
{
    let mut all = List::new(alloc);
    'ports: for (name, value) in members.iter() {
        all.push(port(alloc, name.as_str(), value)?)?;
    }
    Ok(all)
}

fn ports_at(alloc: Global, value: Option<&Value>) -> Result<List<SourcePort>, NetFault>
    ensures { Gives result (parts port_of (codes "ports") (option_map (λ v. view v.now) value.entry)) }
{
    match value {
        None => Ok(List::new(alloc)),
        Some(value) => match value.as_object() {
            Some(members) => ports(alloc, members),
            None => Err(group_shape(alloc, "ports")?),
        },
    }
}

fn cells(alloc: Global, members: &Map<String, Value>) -> Result<List<SourceCell>, NetFault>
    ensures { Gives result (each cell_of (members_view members.now.entries)) }
{
    let mut all = List::new(alloc);
    'cells: for (name, value) in members.iter() {
        all.push(cell(alloc, name.as_str(), value)?)?;
    }
    Ok(all)
}

fn cells_at(alloc: Global, value: Option<&Value>) -> Result<List<SourceCell>, NetFault>
    ensures { Gives result (parts cell_of (codes "cells") (option_map (λ v. view v.now) value.entry)) }
{
    match value {
        None => Ok(List::new(alloc)),
        Some(value) => match value.as_object() {
            Some(members) => cells(alloc, members),
            None => Err(group_shape(alloc, "cells")?),
        },
    }
}

fn nets(alloc: Global, members: &Map<String, Value>) -> Result<List<FlatNet>, NetFault>
    ensures { Gives result (each net_of (members_view members.now.entries)) }
{
    let mut all = List::new(alloc);
    'nets: for (name, value) in members.iter() {
        all.push(net(alloc, name.as_str(), value)?)?;
    }
    Ok(all)
}

fn nets_at(alloc: Global, value: Option<&Value>) -> Result<List<FlatNet>, NetFault>
    ensures { Gives result (parts net_of (codes "netnames") (option_map (λ v. view v.now) value.entry)) }
{
    match value {
        None => Ok(List::new(alloc)),
        Some(value) => match value.as_object() {
            Some(members) => nets(alloc, members),
            None => Err(group_shape(alloc, "netnames")?),
        },
    }
}

fn module(alloc: Global, name: &str, value: &Value) -> Result<Source, NetFault>
    ensures { Gives result (module_of name.now (view value.now)) }
{
    if !value.is_object() {
        let path = Text::from_string(format!(in alloc; "modules/{name}")?);
        return Err(NetFault::Shape { path });
    }
    let ports = ports_at(alloc, value.get("ports"))?;
    let cells = cells_at(alloc, value.get("cells"))?;
    let nets = nets_at(alloc, value.get("netnames"))?;
    Ok(Source { ports, cells, nets })
}

fn named_module(alloc: Global, name: &str, value: Option<&Value>) -> Result<Source, NetFault>
    ensures { Gives result (named_module name.now (option_map (λ v. view v.now) value.entry)) }
{
    match value {
        None => Err(NetFault::NoTop),
        Some(value) => module(alloc, name, value),
    }
}

fn only_module(alloc: Global, modules: &Map<String, Value>) -> Result<Source, NetFault>
    ensures { Gives result (only_module (members_view modules.now.entries)) }
{
    let mut entries = modules.iter();
    let Some((name, value)) = entries.next() else {
        return Err(NetFault::NoTop);
    };
    match entries.next() {
        None => module(alloc, name.as_str(), value),
        Some(_) => Err(NetFault::ManyTops),
    }
}

/// The module that is read of a file.
pub fn source(alloc: Global, top: Option<&str>, file: &Value) -> Result<Source, NetFault>
    ensures { Gives result (source_of (option_map (λ s. s.now) top.entry) (view file.now)) }
{
    if !file.is_object() {
        return Err(group_shape(alloc, ".")?);
    }
    let Some(modules) = file.get("modules") else {
        return Err(group_shape(alloc, "modules")?);
    };
    let Some(members) = modules.as_object() else {
        return Err(group_shape(alloc, "modules")?);
    };
    match top {
        Some(name) => named_module(alloc, name, modules.get(name)),
        None => only_module(alloc, members),
    }
}
