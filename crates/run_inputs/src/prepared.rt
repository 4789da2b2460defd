ghost use Rattle.std.specs.Prelude.{◌≡◌, ◌<◌, ◌^◌, length, IfOk, IfErr};
ghost use Rattle.bind_run.specs.Widened.{HasGraph};
ghost use Rattle.gate_graph.specs.Graphs.{Gates, IsGraphOf};
ghost use Rattle.label_file.specs.Conditions.{AreLabels};
ghost use Rattle.run_inputs.specs.Inputs.{files_in};
ghost use Rattle.run_inputs.specs.Prepared.{AreWithinUsual, HasNetlist, IsFileStop, IsPrepared, IsWide};

use crate::inputs::Inputs;
use crate::program::program_of;
use bind_run::{bind, widen};
use coco_base::{Flat, Limits, NoMemory, Setup};
use gate_graph::{Graph, build, can_build};
use label_file::{Labels, read_labels};
use netlist_json::read_netlist;
use refusal_lines::Stop;
use rv_asm::Image;
use std::alloc::Global;

/// A netlist with its graph, and the setup of a run over it.
#[derive(Debug, Drop)]
pub struct Prepared {
    pub flat: Flat,
    pub graph: Graph,
    pub setup: Setup,
}

/// A netlist with its word leaves, a program, and labels.
#[derive(Drop)]
struct Widened {
    flat: Flat,
    image: Image,
    labels: Labels,
}

/// The run that files make, or the first cause why they make none, in this order: the netlist is not read, it has no
/// graph, the program is not read, the label file is not read, or it does not fit the netlist.
pub fn prepare(alloc: Global, inputs: &Inputs<'_>, limits: &Limits) -> Result<Prepared, Stop>
    requires labels { length inputs.now.labels.now < 2 ^ 32 }
    requires limits { AreWithinUsual limits.now }
    ensures run { IfOk result (IsPrepared (files_in inputs.now) limits.now) }
    ensures stop { IfErr result (IsFileStop (files_in inputs.now) limits.now) }
{
    let Widened {
        flat,
        image,
        labels,
    } = read_files(alloc, inputs, limits)?;
    let graph = wide_graph(alloc, &flat)?;
    let setup = bind(alloc, &graph, &flat, &image, &labels)?;
    Ok(Prepared { flat, graph, setup })
}

// The graph of a netlist that has one.
fn wide_graph(alloc: Global, flat: &Flat) -> Result<Graph, NoMemory>
    requires { HasGraph flat.now }
    ensures { IfOk result (IsGraphOf flat.now) }
{
    match build(alloc, flat) {
        Ok(graph) => Ok(graph),
        Err(_) => Err(NoMemory),
    }
}

// The netlist of a file, which has a graph.
fn read_plain(alloc: Global, inputs: &Inputs<'_>, limits: &Limits) -> Result<Flat, Stop>
    requires limits { AreWithinUsual limits.now }
    ensures netlist { IfOk result (HasNetlist (files_in inputs.now) limits.now) }
    ensures stop { IfErr result (IsFileStop (files_in inputs.now) limits.now) }
{
    let flat = read_netlist(alloc, inputs.netlist, inputs.top, limits)?;
    // This is not seen: the reader gives numbers in range, and a file has fewer bytes than too many parts would take.
    if !can_build(&flat) {
        return Err(Stop::Memory);
    }
    build(alloc, &flat)?;
    Ok(flat)
}

fn read_files(alloc: Global, inputs: &Inputs<'_>, limits: &Limits) -> Result<Widened, Stop>
    requires labels { length inputs.now.labels.now < 2 ^ 32 }
    requires limits { AreWithinUsual limits.now }
    ensures wide { IfOk result (λ w. IsWide (files_in inputs.now) limits.now w.flat w.image w.labels) }
    ensures labels { IfOk result (λ w. AreLabels w.labels) }
    ensures graph { IfOk result (λ w. HasGraph w.flat) }
    ensures stop { IfErr result (IsFileStop (files_in inputs.now) limits.now) }
{
    let plain = read_plain(alloc, inputs, limits)?;
    let image = program_of(alloc, inputs.word_file, inputs.program)?;
    let labels = read_labels(alloc, inputs.labels, limits)?;
    let flat = widen(alloc, &plain, &labels, limits)?;
    Ok(Widened {
        flat,
        image,
        labels,
    })
}
