// What is at fault in a cycle: a control that is unknown, a reset that is active, a request outside the regions.
ghost use Rattle.std.specs.Prelude.{◌≡◌, ◌↔◌, ◌<◌, ◌^◌, length, IsTrue, MatchOption};
ghost use Rattle.coco_model.specs.Controls.{Applies, IsOutside, IsResetActive, IsUnknownControl};
ghost use Rattle.coco_model.specs.Carried.{number_on};
ghost use Rattle.coco_model.specs.Known.{ones};
ghost use Rattle.coco_model.specs.Stepped.{HasNoOutside, row_of};
ghost use Rattle.cycle_sim.specs.Simulations.{IsCycleFault, HasSmallAddresses, IsFirstActive, IsFirstOutside, IsFirstUnknown};

use crate::fault::SimFault;
use crate::memory::word_place;
use crate::parts::{number_on, part_of, wire_or_off, wire_part};
use coco_base::{ControlPlan, FlatFlop, MemPlan, Part, Setup, When};
use gate_graph::Graph;

/// What is at fault in a cycle, of which `row` is known.
pub(crate) fn fault_in(graph: &Graph, setup: &Setup, row: &[Part], cycle: u32) -> Option<SimFault>
    requires controls { length setup.now.controls < 2 ^ 32 }
    requires addresses { HasSmallAddresses setup.now }
    ensures { IsCycleFault graph.now.flat setup.now (row_of row.now) cycle result }
{
    if let Some(control) = unknown_control(setup, row) {
        return Some(SimFault::ControlDepends { control, cycle });
    }
    if let Some(flop) = active_reset(graph, row) {
        return Some(SimFault::ResetActive { flop, cycle });
    }
    let address = outside_address(setup, row)?;
    Some(SimFault::AddressOutside { cycle, address })
}

fn unknown_control(setup: &Setup, row: &[Part]) -> Option<u32>
    requires { length setup.now.controls < 2 ^ 32 }
    ensures { IsFirstUnknown setup.now (row_of row.now) result }
{
    let controls = setup.controls.as_slice();
    'controls: for number in 0..controls.len() {
        if is_unknown(setup, row, &controls[number]) {
            return Some(number as u32);
        }
    }
    None
}

fn is_unknown(setup: &Setup, row: &[Part], control: &ControlPlan) -> bool
    ensures { IsTrue result ↔ IsUnknownControl setup.now (row_of row.now) control.now }
{
    applies(setup, row, control.when) && wire_part(row, control.wire) == Part::Vary
}

fn applies(setup: &Setup, row: &[Part], when: When) -> bool
    ensures { IsTrue result ↔ Applies setup.now (row_of row.now) when }
{
    let memories = setup.memories.as_slice();
    match when {
        When::Always => true,
        When::Requested(number) => match memories.get(number as usize) {
            Some(mem) => wire_part(row, mem.request) == Part::One,
            None => false,
        },
        When::Written(number) => match memories.get(number as usize) {
            Some(mem) => {
                wire_part(row, mem.request) == Part::One
                    && wire_part(row, wire_or_off(mem.write)) == Part::One
            }
            None => false,
        },
    }
}

fn active_reset(graph: &Graph, row: &[Part]) -> Option<u32>
    ensures { IsFirstActive graph.now.flat (row_of row.now) result }
{
    'flops: for number in 0..graph.flops() {
        if is_active(row, graph.flop(number)) {
            return Some(number);
        }
    }
    None
}

fn is_active(row: &[Part], flop: &FlatFlop) -> bool
    ensures { IsTrue result ↔ IsResetActive (row_of row.now) flop.now }
{
    match flop.reset {
        Some(wire) => wire_part(row, wire) == part_of(flop.level),
        None => false,
    }
}

fn outside_address(setup: &Setup, row: &[Part]) -> Option<u32>
    requires { HasSmallAddresses setup.now }
    ensures { MatchOption result (HasNoOutside setup.now (row_of row.now)) (IsFirstOutside setup.now (row_of row.now)) }
{
    let memories = setup.memories.as_slice();
    'ports: for number in 0..memories.len() {
        let mem = &memories[number];
        let address = number_on(row, mem.address.as_slice());
        if is_outside(row, mem, address) {
            return Some(address);
        }
    }
    None
}

fn is_outside(row: &[Part], mem: &MemPlan, address: u32) -> bool
    requires { address ≡ number_on (ones (row_of row.now)) mem.now.address }
    ensures { IsTrue result ↔ IsOutside (row_of row.now) mem.now }
{
    wire_part(row, mem.request) == Part::One && word_place(address).is_none()
}
