// The names of what simulations meet.
ghost use Rattle.std.specs.Prelude.{◌≡◌, IfOk};
ghost use Rattle.unroll.specs.Unrolls.{HasNamed, IsNamedFault, fault_name};

use crate::fault::UnrollFault;
use coco_base::{NoMemory, Setup, Text};
use cycle_sim::SimFault;
use gate_graph::Graph;
use std::alloc::Global;

/// A fault of the simulation with its name.
pub(crate) fn named(
    alloc: Global,
    graph: &Graph,
    setup: &Setup,
    fault: SimFault,
) -> Result<UnrollFault, NoMemory>
    requires { HasNamed graph.now.flat setup.now fault }
    ensures { IfOk result (IsNamedFault graph.now.flat setup.now fault) }
{
    let name = name_of(alloc, graph, setup, fault)?;
    Ok(UnrollFault::Sim { fault, name })
}

// The name of the control or of the flop; an address has none.
fn name_of(alloc: Global, graph: &Graph, setup: &Setup, fault: SimFault) -> Result<Text, NoMemory>
    requires { HasNamed graph.now.flat setup.now fault }
    ensures { IfOk result (λ name. name ≡ fault_name graph.now.flat setup.now fault) }
{
    match fault {
        SimFault::ControlDepends { control, .. } => {
            let control = &setup.controls.as_slice()[control as usize];
            Text::of(alloc, control.name.as_str())
        }
        SimFault::ResetActive { flop, .. } => Text::of(alloc, graph.flop(flop).name.as_str()),
        SimFault::AddressOutside { .. } => Text::of(alloc, ""),
    }
}
