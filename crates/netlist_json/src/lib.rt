//! Reads a netlist from JSON, as Yosys writes it.
#![tactic(auto)]

ghost use Rattle.std.specs.Prelude.{option_map};
ghost use Rattle.netlist_json.specs.Faults.{Gives};
ghost use Rattle.netlist_json.specs.Flats.{netlist_from, netlist_of};
ghost use Rattle.serde_json.specs.View.{view};

mod cell_type;
mod element;
mod elements;
mod fault;
mod flat;
mod muxes;
mod numbers;
mod order;
mod renumber;
mod shape;
mod source;
mod wires;

use coco_base::{Flat, Limits};
pub use fault::NetFault;
use serde_json::Value;
use std::alloc::Global;

#[cfg(test)]
mod flop_tests;
#[cfg(test)]
mod tests;

/// The flat netlist of the bytes of a file that Yosys wrote, of the module `top` or of the only one: gates and
/// rising-edge flops, whose enables and synchronous resets become multiplexers, with at most `limits.bits` bits.
pub fn read_netlist(
    alloc: Global,
    bytes: &[u8],
    top: Option<&str>,
    limits: &Limits,
) -> Result<Flat, NetFault>
    ensures { Gives result (netlist_from limits.now.bits (option_map (λ s. s.now) top.entry) bytes.now) }
{
    let file = match Value::from_slice(alloc, bytes) {
        Ok(file) => file,
        Err(error) if error.is_memory() => return Err(NetFault::Memory),
        Err(_) => return Err(NetFault::NotJson),
    };
    netlist(alloc, &file, top, limits.bits)
}

fn netlist(alloc: Global, file: &Value, top: Option<&str>, limit: u32) -> Result<Flat, NetFault>
    ensures { Gives result (netlist_of limit (option_map (λ s. s.now) top.entry) (view file.now)) }
{
    let source = shape::source(alloc, top, file)?;
    flat::flat(alloc, limit, &source)
}
