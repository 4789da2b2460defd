ghost use Rattle.std.specs.Prelude.{◌≡◌, ◌+◌, ◌++◌, ◌<◌, ◌^◌, length, map, sum_by, IfOk, OnOk};
ghost use Rattle.netlist_json.specs.CellTypes.{mux_steps};
ghost use Rattle.netlist_json.specs.Flats.{active_level, all_flops, all_muxes, flop_at, mux_count, mux_inputs, mux_net, mux_of, muxes_of, outer_wire, reset_wire};

use crate::cell_type::{MuxStep, Reset, mux_steps};
use crate::element::Register;
use coco_base::{FlatCell, FlatFlop, FlatNet, Kind, List, NoMemory, Text, Wire};
use std::alloc::Global;

fn mux_inputs(level: bool, active: Wire, idle: Wire, control: Wire) -> [Wire; 4]
    ensures { result ≡ mux_inputs level active idle control }
{
    if level {
        [idle, active, control, Wire::Const(false)]
    } else {
        [active, idle, control, Wire::Const(false)]
    }
}

fn mux(
    alloc: Global,
    flop: &Register,
    step: MuxStep,
    inner: Wire,
    bit: u32,
) -> Result<FlatCell, NoMemory>
    ensures { IfOk result (λ c. c ≡ mux_of flop.now step inner bit) }
{
    let name = flop.name.as_str();
    let kind = flop.kind;
    match step {
        MuxStep::EnableMux => Ok(FlatCell {
            name: Text::from_string(format!(in alloc; "{name}.e")?),
            kind: Kind::Mux,
            inputs: mux_inputs(
                kind.enable_level,
                inner,
                Wire::Bit(flop.output),
                flop.enable,
            ),
            output: bit,
        }),
        MuxStep::ResetMux => Ok(FlatCell {
            name: Text::from_string(format!(in alloc; "{name}.r")?),
            kind: Kind::Mux,
            inputs: mux_inputs(
                kind.reset_level,
                Wire::Const(kind.reset_value),
                inner,
                flop.reset,
            ),
            output: bit,
        }),
    }
}

fn reset_wire(reset: Reset, wire: Wire) -> Option<Wire>
    ensures { result ≡ reset_wire reset wire }
{
    match reset {
        Reset::NoReset | Reset::Synchronous => None,
        Reset::Asynchronous => Some(wire),
    }
}

fn active_level(reset: Reset, level: bool) -> bool
    ensures { result ≡ active_level reset level }
{
    match reset {
        Reset::NoReset | Reset::Synchronous => false,
        Reset::Asynchronous => level,
    }
}

fn outer_wire(steps: &[MuxStep], inner: Wire, bit: u32) -> Wire
    requires { bit + length steps.now < 2 ^ 32 }
    ensures { result ≡ outer_wire steps.now inner bit }
{
    let mut left = steps;
    let mut wire = inner;
    let mut next = bit;
    'steps: while let [_, rest @ ..] = left {
        left = rest;
        wire = Wire::Bit(next);
        next += 1;
    }
    wire
}

fn flop(alloc: Global, flop: &Register, bit: u32) -> Result<FlatFlop, NoMemory>
    requires { bit + length (mux_steps flop.now.kind) < 2 ^ 32 }
    ensures { IfOk result (λ f. f ≡ flop_at flop.now bit) }
{
    let kind = flop.kind;
    Ok(FlatFlop {
        name: Text::of(alloc, flop.name.as_str())?,
        clock: flop.clock,
        next: outer_wire(mux_steps(kind), flop.next, bit),
        output: flop.output,
        reset: reset_wire(kind.reset, flop.reset),
        level: active_level(kind.reset, kind.reset_level),
    })
}

// adds the multiplexers of a flop
fn add_muxes(
    all: &mut Vec<FlatCell>,
    alloc: Global,
    flop: &Register,
    bit: u32,
) -> Result<(), NoMemory>
    requires { bit + length (mux_steps flop.now.kind) < 2 ^ 32 }
    ensures { OnOk result (all.new.items
        ≡ all.old.items ++ muxes_of flop.now (mux_steps flop.now.kind) flop.now.next bit) }
{
    let mut inner = flop.next;
    let mut next = bit;
    let mut left = mux_steps(flop.kind);
    'steps: while let [step, rest @ ..] = left {
        all.push(mux(alloc, flop, *step, inner, next)?)?;
        left = rest;
        inner = Wire::Bit(next);
        next += 1;
    }
    Ok(())
}

/// The multiplexers of flops, whose bits are numbered from `bit` on.
pub fn muxes(alloc: Global, flops: &[Register], bit: u32) -> Result<Vec<FlatCell>, NoMemory>
    requires { bit + sum_by mux_count flops.now < 2 ^ 32 }
    ensures { IfOk result (λ v. v.items ≡ all_muxes flops.now bit) }
{
    let mut all = Vec::new(alloc);
    let mut next = bit;
    'flops: for flop in flops {
        add_muxes(&mut all, alloc, flop, next)?;
        next += mux_steps(flop.kind).len() as u32;
    }
    Ok(all)
}

/// The flops behind their multiplexers, whose bits are numbered from `bit` on.
pub fn flops(alloc: Global, registers: &[Register], bit: u32) -> Result<List<FlatFlop>, NoMemory>
    requires { bit + sum_by mux_count registers.now < 2 ^ 32 }
    ensures { IfOk result (λ l. l ≡ all_flops registers.now bit) }
{
    let mut all = List::new(alloc);
    let mut next = bit;
    'flops: for register in registers {
        all.push(flop(alloc, register, next)?)?;
        next += mux_steps(register.kind).len() as u32;
    }
    Ok(all)
}

/// A net for each multiplexer, with its name.
pub fn mux_nets(alloc: Global, muxes: &[FlatCell]) -> Result<Vec<FlatNet>, NoMemory>
    ensures { IfOk result (λ v. v.items ≡ map mux_net muxes.now) }
{
    let mut all = Vec::new(alloc);
    'muxes: for mux in muxes {
        let name = Text::of(alloc, mux.name.as_str())?;
        let mut wires = List::new(alloc);
        wires.push(Wire::Bit(mux.output))?;
        all.push(FlatNet { name, wires })?;
    }
    Ok(all)
}
