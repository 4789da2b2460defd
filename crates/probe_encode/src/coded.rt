ghost use Rattle.std.specs.Prelude.{◌≡◌, ◌≤◌, length, All, IfOk, OnOk};
ghost use Rattle.std.specs.List.Sorted.{IsStrictlyIncreasing};
ghost use Rattle.circuit_clauses.specs.Formulas.{Fits};
ghost use Rattle.clause_builds.specs.Builds.{made, after};
ghost use Rattle.calm_reach.specs.CalmRows.{HasPlaces};
ghost use Rattle.probe_clauses.specs.RunViews.{view_of};
ghost use Rattle.probe_encode.specs.Formulas.{first_part, formula, labels_of, tables_of, tables_by, encoded};
ghost use Rattle.probe_encode.specs.Sources.{IsGood, IsSource, encoding_in, encoding_of, query_of};

use crate::goal::{goal_demands, label_sums, label_variables};
use crate::goal_list::Labelled;
use crate::labels::pair_labels;
use crate::source::Source;
use crate::weights::pair_weights;
use calm_reach::CalmRow;
use circuit_clauses::{Form, Signal};
use clause_store::Store;
use coco_base::{List, NoMemory, Unrolled};
use gate_graph::Graph;
use label_cone::Cones;
use node_clauses::{NodeSums, Nodes, node_sums};
use probe_clauses::{ProbePart, ProbedRun, Query, probe_part};
use std::alloc::Global;
use std::marker::Model;

/// The formula of a run, and what a try is read from.
#[derive(Debug, Drop)]
pub struct Encoded {
    pub(crate) form: Form,
    pub(crate) labels: Vec<u32>,
    pub(crate) parts: Parts,
}

impl Model for Encoded {
    ghost use Rattle.probe_encode.specs.Formulas.{EncodedView, tables_by};
    ghost use Rattle.probe_encode.specs.Readable.{AreReadable};

    ghost Value = { EncodedView };

    ghost view = { λ e. record {
      formula = e.form;
      tables = tables_by e.labels.items e.parts.variables e.parts.part e.parts.sums;
    } };

    ghost invariant = { λ e. AreReadable (tables_by e.labels.items e.parts.variables e.parts.part e.parts.sums) };
}

/// The variables of labels, what is chosen of probes and pairs, and the sums of nodes.
#[derive(Debug, Drop)]
pub struct Parts {
    pub variables: List<Signal>,
    pub part: ProbePart,
    pub sums: NodeSums,
}

impl Encoded {
    /// The clauses.
    pub fn store(&self) -> &Store
        ensures { result.now ≡ self.now.formula.clauses }
    {
        self.form.store()
    }

    /// How many variables there are.
    pub fn vars(&self) -> u32
        ensures { result ≡ self.now.formula.vars }
    {
        self.form.vars()
    }
}

/// The formula of a run of a graph, with its calm rows, one for each cycle, and its cones: for probes at all bits but
/// the clock, at most as many as the order, each of which lasts so many cycles. A window longer than the run is as good
/// as one of all its cycles.
pub fn encode(
    alloc: Global,
    graph: &Graph,
    unrolled: &Unrolled,
    rows: &List<CalmRow>,
    cones: &Cones,
    clock: Option<u32>,
    order: u32,
    window: u32,
) -> Result<Encoded, NoMemory>
    requires places { All (HasPlaces graph.now.flat) rows.now }
    requires lasting { 1 ≤ window }
    requires source { let view = view_of graph.now unrolled.now rows.now (query_of clock order window) in
        IsSource view unrolled.now cones.now }
    ensures { let view = view_of graph.now unrolled.now rows.now (query_of clock order window) in
        IfOk result (λ e. e ≡ encoded (encoding_of view unrolled.now cones.now)) }
{
    let _bits = graph.bits(); // the graph is built
    let query = Query {
        clock,
        order,
        window,
    };
    let run = ProbedRun::new(graph, unrolled, rows.as_slice(), query);
    let source = Source {
        run,
        unrolled,
        cones,
    };
    encode_source(alloc, &source)
}

fn encode_source(alloc: Global, source: &Source<'_>) -> Result<Encoded, NoMemory>
    requires source { IsGood source.now }
    requires fits { Fits (encoded (encoding_in source.now)).formula }
    ensures { IfOk result (λ e. e ≡ encoded (encoding_in source.now)) }
{
    let labels = pair_labels(alloc, source)?;
    let mut form = Form::new(alloc);
    let parts = first_part(alloc, &mut form, source, labels.as_slice())?;
    let labelled = Labelled {
        labels: labels.as_slice(),
        variables: parts.variables.as_slice(),
    };
    goal_demands(alloc, &mut form, &labelled, &source.unrolled.table)?;
    Ok(Encoded {
        form,
        labels,
        parts,
    })
}

/// The first part: its models read as tries.
fn first_part(
    alloc: Global,
    form: &mut Form,
    source: &Source<'_>,
    labels: &[u32],
) -> Result<Parts, NoMemory>
    requires source { IsGood source.now }
    requires labels { labels.now ≡ labels_of (encoding_in source.now) }
    requires ascending { IsStrictlyIncreasing labels.now }
    requires fits { Fits (after form.old (first_part (encoding_in source.now))) }
    ensures tables { let e = encoding_in source.now in
        IfOk result (λ p. tables_of e p.variables p.part p.sums ≡ made form.old (first_part e)) }
    ensures formula { OnOk result (form.new ≡ after form.old (first_part (encoding_in source.now))) }
{
    let variables = label_variables(alloc, form, labels)?;
    let part = probe_part(alloc, form, &source.run)?;
    let weights = pair_weights(alloc, source, part.pairs.as_slice())?;
    let nodes = Nodes {
        nodes: source.unrolled.nodes.as_slice(),
        cones: source.cones,
        labels,
    };
    let sums = node_sums(alloc, form, &nodes, weights)?;
    label_sums(form, variables.as_slice(), sums.totals())?;
    Ok(Parts {
        variables,
        part,
        sums,
    })
}
