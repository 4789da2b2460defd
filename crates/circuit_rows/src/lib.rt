//! Small circuits for tests: text with a row a line, as a flat netlist and as JSON in the form of Yosys.
#![tactic(auto)]

mod bits;
mod circuit;
mod fault;
mod flat;
mod gates;
mod printing;
mod words;

ghost use Rattle.circuit_rows.specs.Flats.{flat_from};
ghost use Rattle.circuit_rows.specs.Json.{json_from};
ghost use Rattle.circuit_rows.specs.Outcomes.{Answers};

use coco_base::{Flat, List};
pub use fault::RowFault;
use std::alloc::Global;

/// The flat netlist of rows: cells, flops, ports and nets in order of their names, and bit 0 is `clk`.
///
/// Only gates, `$_DFF_P_` and the flops with an asynchronous reset are flat; the first row by name with a cell of
/// another type is answered as outside.
pub fn netlist(alloc: Global, rows: &str) -> Result<Flat, RowFault>
    ensures { Answers result (flat_from rows.now) }
{
    let circuit = circuit::read(alloc, rows)?;
    flat::flat(alloc, &circuit)
}

/// The JSON text of rows: bit number 2 is `clk`, and the bits of the lines have 3, 4 and so on.
pub fn json(alloc: Global, rows: &str) -> Result<List<u8>, RowFault>
    ensures { Answers result (json_from rows.now) }
{
    let circuit = circuit::read(alloc, rows)?;
    let text = printing::json(alloc, circuit.rows.as_slice())?;
    Ok(text)
}

#[cfg(test)]
mod tests;
