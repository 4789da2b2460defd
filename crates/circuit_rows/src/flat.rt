//! The flat netlist of a circuit.
ghost use Rattle.std.specs.Prelude.{◌≡◌, IfOk, OnOk, min};
ghost use Rattle.circuit_rows.specs.Flats.{bare, bit_of, cell_name, flat_of, flop, flops, gate_cell, input_wire, pin_wire, with_cell, with_form, with_net};
ghost use Rattle.circuit_rows.specs.Gates.{gate_of, named, shown_gate};
ghost use Rattle.circuit_rows.specs.Outcomes.{Answers, Leaves};

use crate::circuit::{Circuit, Form, Pin, Row};
use crate::fault::RowFault;
use crate::gates::{Gate, gate_of};
use crate::words::is;
use coco_base::{Flat, FlatCell, FlatFlop, FlatNet, FlatPort, List, NoMemory, Text, Wire};
use std::alloc::Global;

// the wire of a port, and constant 0 where the port is missing
fn pin_wire(pins: &[Pin], port: &[u8]) -> Wire
    ensures { result ≡ pin_wire pins.now port.now }
{
    'pins: for pin in pins {
        if is(pin.port.as_bytes(), port) {
            return pin.wire;
        }
    }
    Wire::Const(false)
}

fn bit_of(wire: Wire) -> Option<u32>
    ensures { result ≡ bit_of wire }
{
    match wire {
        Wire::Const(_) => None,
        Wire::Bit(bit) => Some(bit),
    }
}

fn cell_name(alloc: Global, name: &str) -> Result<Text, NoMemory>
    ensures { IfOk result (λ text. text ≡ cell_name name.now) }
{
    let mut text = String::from_str(alloc, "c_")?;
    text.push_str(name)?;
    Ok(Text::from_string(text))
}

fn input_wire(pins: &[Pin], letters: &[u8], place: usize) -> Wire
    ensures { result ≡ input_wire pins.now letters.now place }
{
    match letters.get(place) {
        None => Wire::Const(false),
        Some(letter) => pin_wire(pins, &[*letter]),
    }
}

fn gate_cell(
    alloc: Global,
    name: &str,
    pins: &[Pin],
    gate: &Gate,
) -> Result<Option<FlatCell>, NoMemory>
    ensures { IfOk result (λ o. o ≡ gate_cell name.now pins.now (shown_gate gate.now)) }
{
    let Some(output) = bit_of(pin_wire(pins, b"Y")) else {
        return Ok(None);
    };
    Ok(Some(FlatCell {
        name: cell_name(alloc, name)?,
        kind: gate.kind,
        inputs: [
            input_wire(pins, gate.ports, 0),
            input_wire(pins, gate.ports, 1),
            input_wire(pins, gate.ports, 2),
            input_wire(pins, gate.ports, 3),
        ],
        output,
    }))
}

// the active level of the asynchronous reset of a flop, if it has one, by its word
fn reset_level(word: &[u8]) -> Option<Option<bool>>
    ensures { result ≡ named flops word.now }
{
    match word {
        b"FLOP" => Some(None),
        b"$_DFF_P_" => Some(None),
        b"$_DFF_PN0_" => Some(Some(false)),
        b"$_DFF_PN1_" => Some(Some(false)),
        b"$_DFF_PP0_" => Some(Some(true)),
        b"$_DFF_PP1_" => Some(Some(true)),
        _ => None,
    }
}

fn flop(
    alloc: Global,
    name: &str,
    pins: &[Pin],
    level: Option<bool>,
) -> Result<Option<FlatFlop>, NoMemory>
    ensures { IfOk result (λ o. o ≡ flop name.now pins.now level) }
{
    let Some(output) = bit_of(pin_wire(pins, b"Q")) else {
        return Ok(None);
    };
    let reset = match level {
        None => None,
        Some(_) => Some(pin_wire(pins, b"R")),
    };
    Ok(Some(FlatFlop {
        name: cell_name(alloc, name)?,
        clock: pin_wire(pins, b"C"),
        next: pin_wire(pins, b"D"),
        output,
        reset,
        level: level.unwrap_or(false),
    }))
}

// adds a cell, and tells whether it is flat
fn add_cell(
    flat: &mut Flat,
    alloc: Global,
    name: &str,
    word: &[u8],
    pins: &[Pin],
) -> Result<bool, NoMemory>
    ensures { IfOk result (λ is_flat.
        Leaves is_flat (with_cell flat.old name.now word.now pins.now (gate_of word.now)) flat.new) }
{
    if let Some(gate) = gate_of(word) {
        let Some(cell) = gate_cell(alloc, name, pins, &gate)? else {
            return Ok(false);
        };
        flat.cells.push(cell)?;
        return Ok(true);
    }
    let Some(level) = reset_level(word) else {
        return Ok(false);
    };
    let Some(flop) = flop(alloc, name, pins, level)? else {
        return Ok(false);
    };
    flat.flops.push(flop)?;
    Ok(true)
}

fn copied(alloc: Global, wires: &[Wire]) -> Result<List<Wire>, NoMemory>
    ensures { IfOk result (λ list. list ≡ wires.now) }
{
    Ok(List::from_vec(Vec::from_slice(alloc, wires)?))
}

fn add_net(flat: &mut Flat, alloc: Global, row: &Row) -> Result<(), NoMemory>
    ensures { OnOk result (flat.new ≡ with_net flat.old row.now) }
{
    flat.nets.push(FlatNet {
        name: Text::of(alloc, row.name.as_str())?,
        wires: copied(alloc, row.wires.as_slice())?,
    })
}

// adds what a row has beside its net, and tells whether it is flat
fn add_form(flat: &mut Flat, alloc: Global, row: &Row) -> Result<bool, NoMemory>
    ensures { IfOk result (λ is_flat. Leaves is_flat (with_form flat.old row.now row.now.form) flat.new) }
{
    match &row.form {
        Form::Input => {
            flat.ports.push(FlatPort {
                name: Text::of(alloc, row.name.as_str())?,
                input: true,
                wires: copied(alloc, row.wires.as_slice())?,
            })?;
            Ok(true)
        }
        Form::Net => Ok(true),
        Form::Cell { word, pins } => add_cell(
            flat,
            alloc,
            row.name.as_str(),
            word.as_bytes(),
            pins.as_slice(),
        ),
    }
}

fn bare(alloc: Global, bits: usize) -> Flat
    ensures { result ≡ bare (min bits 4294967295) }
{
    Flat {
        bits: bits.min(4_294_967_295) as u32,
        ports: List::new(alloc),
        cells: List::new(alloc),
        flops: List::new(alloc),
        nets: List::new(alloc),
    }
}

/// The flat netlist of a circuit.
pub(crate) fn flat(alloc: Global, circuit: &Circuit) -> Result<Flat, RowFault>
    ensures { Answers result (flat_of circuit.now) }
{
    let mut flat = bare(alloc, circuit.bits.len());
    'rows: for row in circuit.rows.as_slice() {
        add_net(&mut flat, alloc, row)?;
        if !add_form(&mut flat, alloc, row)? {
            return Err(RowFault::Outside { line: row.line });
        }
    }
    Ok(flat)
}
