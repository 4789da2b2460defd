ghost use Rattle.std.specs.Prelude.{◌≡◌, ◌<◌, ◌^◌, length, IfOk, IfErr};
ghost use Rattle.label_file.specs.Conditions.{AreLabels};
ghost use Rattle.worked_runs.specs.Runs.{IsLabelled, IsReady, IsRunFault, IsWide};

use crate::fault::RunFault;
use bind_run::{bind, widen};
use circuit_rows::netlist;
use coco_base::{Flat, Limits, Setup};
use gate_graph::{Graph, build, can_build};
use label_file::{Labels, read_labels};
use rv_asm::Image;
use std::alloc::Global;

/// A netlist with its graph, and the setup of a run over it.
#[derive(Debug, Drop)]
pub struct Ready {
    pub flat: Flat,
    pub graph: Graph,
    pub setup: Setup,
}

/// A netlist with word leaves, and the labels of a run over it.
#[derive(Drop)]
struct Labelled {
    flat: Flat,
    labels: Labels,
}

/// The run over the circuit of rows that a label file and a program tell, within the usual limits: its setup is bound to
/// the netlist of the graph, so that it may be simulated and unrolled. Or the first step that has a fault.
pub fn run_of(alloc: Global, rows: &str, file: &str, image: &Image) -> Result<Ready, RunFault>
    requires { length file.now < 2 ^ 32 }
    ensures ready { IfOk result (IsReady rows.now file.now image.now) }
    ensures fault { IfErr result (IsRunFault rows.now file.now) }
{
    let Labelled { flat, labels } = match read_rows(alloc, rows, file) {
        Ok(labelled) => labelled,
        Err(fault) => return Err(fault),
    };
    if !can_build(&flat) {
        return Err(RunFault::Range);
    }
    let graph = match build(alloc, &flat) {
        Ok(graph) => graph,
        Err(fault) => return Err(RunFault::Graph(fault)),
    };
    match bind(alloc, &graph, &flat, image, &labels) {
        Ok(setup) => Ok(Ready { flat, graph, setup }),
        Err(fault) => Err(RunFault::Binding(fault)),
    }
}

fn read_rows(alloc: Global, rows: &str, file: &str) -> Result<Labelled, RunFault>
    requires { length file.now < 2 ^ 32 }
    ensures wide { IfOk result (λ l. IsWide rows.now file.now l.flat l.labels) }
    ensures labels { IfOk result (λ l. AreLabels l.labels) }
    ensures fault { IfErr result (IsRunFault rows.now file.now) }
{
    let limits = Limits::usual();
    let circuit = match netlist(alloc, rows) {
        Ok(circuit) => circuit,
        Err(fault) => return Err(RunFault::Rows(fault)),
    };
    let labels = match read_labels(alloc, file.as_bytes(), &limits) {
        Ok(labels) => labels,
        Err(fault) => return Err(RunFault::Labels(fault)),
    };
    match widen(alloc, &circuit, &labels, &limits) {
        Ok(flat) => Ok(Labelled { flat, labels }),
        Err(fault) => Err(RunFault::Widening(fault)),
    }
}
