ghost use Rattle.std.specs.Prelude.{IfOk, IfErr};
ghost use Rattle.coco_model.specs.Netlist.{IsInRange};
ghost use Rattle.gate_graph.specs.Clocks.{IsGraphClock};
ghost use Rattle.gate_graph.specs.Drivers.{HasNumbers, IsWired};
ghost use Rattle.gate_graph.specs.Faults.{IsGraphFault};
ghost use Rattle.gate_graph.specs.Graphs.{IsGraphOf};
ghost use Rattle.gate_graph.specs.Marks.{AreBitLevels};

use crate::clock::clock_of;
use crate::copies::{copy_of, name_of};
use crate::driver::Driver;
use crate::fault::GraphFault;
use crate::graph::Graph;
use crate::levels::levels_of;
use crate::ranks::{by_rank, order_of, ranks_of};
use crate::table::drivers_of;
use coco_base::{Flat, NoMemory};
use std::alloc::Global;

/// The graph of a netlist, or the first cause why it has none: a bit with two drivers, a loop of cells, a second clock.
/// The time grows with the size of the netlist, but for one sort of its bits, and no call nests with its depth.
pub fn build(alloc: Global, flat: &Flat) -> Result<Graph, GraphFault>
    requires range { IsInRange flat.now }
    requires numbers { HasNumbers flat.now }
    ensures graph { IfOk result (IsGraphOf flat.now) }
    ensures fault { IfErr result (IsGraphFault flat.now) }
{
    let drivers = drivers_of(alloc, flat)?;
    let levels = levels_of(alloc, flat, drivers.as_slice())?;
    match clock_of(flat, drivers.as_slice()) {
        Err(name) => Err(GraphFault::SecondClock {
            cell: name_of(alloc, name)?,
        }),
        Ok(clock) => Ok(graph_of(alloc, flat, drivers, levels.as_slice(), clock)?),
    }
}

/// The graph of a netlist whose drivers, levels and clock are known.
fn graph_of(
    alloc: Global,
    flat: &Flat,
    drivers: Vec<Driver>,
    levels: &[u32],
    clock: Option<u32>,
) -> Result<Graph, NoMemory>
    requires wired { IsWired flat.now drivers.items }
    requires levels { AreBitLevels flat.now levels.now }
    requires clock { IsGraphClock flat.now clock }
    ensures { IfOk result (IsGraphOf flat.now) }
{
    let _bits = flat.bits;
    let bits = by_rank(alloc, levels)?;
    let ranks = ranks_of(alloc, bits.as_slice())?;
    let order = order_of(
        alloc,
        flat,
        drivers.as_slice(),
        bits.as_slice(),
        ranks.as_slice(),
    )?;
    let flat = copy_of(alloc, flat)?;
    Ok(Graph {
        flat,
        drivers,
        ranks,
        order,
        clock,
    })
}
