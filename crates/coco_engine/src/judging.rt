ghost use Rattle.std.specs.Prelude.{◌≡◌, ◌<◌, length, IfOk, IfErr};
ghost use Rattle.coco_model.specs.Labels.{label_count};
ghost use Rattle.gate_graph.specs.Graphs.{IsGraphOf};
ghost use Rattle.leak_report.specs.Reports.{IsAnswerInRange};
ghost use Rattle.run_inputs.specs.Inputs.{files_in};
ghost use Rattle.run_inputs.specs.Prepared.{IsPrepared};
ghost use Rattle.run_verdict.specs.Verdicts.{IsVerdict};
ghost use Rattle.unroll.specs.Counters.{ArePcs};
ghost use Rattle.coco_engine.specs.Judged.{AreInputs, AreLimits, IsJudged, IsReport, IsStop, IsWrittenRunOf, asked_in, formula_of};

use coco_base::{Limits, List, NoMemory};
use derivation_check::print_formula;
use leak_report::{Answer, Facts, text_of};
use pickers::Picker;
use probe_encode::Encoded;
use refusal_lines::Stop;
use run_inputs::{Inputs, Prepared, prepare};
use run_verdict::{Asked, Search, Written, decide, solvable_law, write_formula};
use std::alloc::Global;

/// An answer with its report, and the text of the written formula where the answer is accepted; else that is empty.
#[derive(Debug, Drop)]
pub struct Judged {
    pub answer: Answer,
    pub report: List<u8>,
    pub formula: List<u8>,
}

/// Judges the run that files make: accepted where no probes can see a secret, rejected with probes that may, or
/// undecided where the steps are spent. Or why it is not judged: the first cause in this order: the netlist, its graph,
/// the program, the labels, how they fit, too many nodes, a fault of the simulation, too much weight.
pub fn judge(
    alloc: Global,
    inputs: &Inputs<'_>,
    limits: &Limits,
    pickers: Vec<Box<dyn Picker>>,
) -> Result<Judged, Stop>
    requires inputs { AreInputs inputs.now }
    requires limits { AreLimits limits.now }
    requires pickers { 0 < length pickers.items }
    ensures judged { IfOk result (IsJudged (files_in inputs.now) (asked_in inputs.now) inputs.now.steps limits.now) }
    ensures stop { IfErr result (IsStop (files_in inputs.now) (asked_in inputs.now) limits.now) }
{
    let run = prepare(alloc, inputs, limits)?;
    judge_run(alloc, inputs, limits, &run, pickers)
}

fn asked_in(inputs: &Inputs<'_>) -> Asked
    ensures { result ≡ asked_in inputs.now }
{
    Asked {
        order: inputs.order,
        window: inputs.window,
        cycles: inputs.cycles,
    }
}

// the judgement of a run that was made from files
fn judge_run(
    alloc: Global,
    inputs: &Inputs<'_>,
    limits: &Limits,
    run: &Prepared,
    pickers: Vec<Box<dyn Picker>>,
) -> Result<Judged, Stop>
    requires inputs { AreInputs inputs.now }
    requires limits { AreLimits limits.now }
    requires pickers { 0 < length pickers.items }
    requires run { IsPrepared (files_in inputs.now) limits.now run.now }
    ensures judged { IfOk result (IsJudged (files_in inputs.now) (asked_in inputs.now) inputs.now.steps limits.now) }
    ensures stop { IfErr result (IsStop (files_in inputs.now) (asked_in inputs.now) limits.now) }
{
    let Written { encoded, pcs } = write_formula(
        alloc,
        &run.graph,
        &run.setup,
        asked_in(inputs),
        limits,
    )?;
    let answer = answer_of(alloc, inputs, run, &encoded, pickers)?;
    let report = report_of(alloc, inputs, run, &answer, pcs)?;
    let formula = formula_of(alloc, &answer, &encoded)?;
    Ok(Judged {
        answer,
        report,
        formula,
    })
}

// the answer to the written formula of a run
fn answer_of(
    alloc: Global,
    inputs: &Inputs<'_>,
    run: &Prepared,
    encoded: &Encoded,
    pickers: Vec<Box<dyn Picker>>,
) -> Result<Answer, NoMemory>
    requires inputs { AreInputs inputs.now }
    requires pickers { 0 < length pickers.items }
    requires written { IsWrittenRunOf run.now (asked_in inputs.now) encoded.now }
    ensures { IfOk result (IsVerdict run.now.flat run.now.setup (asked_in inputs.now) inputs.now.steps encoded.now) }
{
    solvable_law(); // a written formula is one that the search takes
    let mut pickers = pickers;
    let search = Search {
        steps: inputs.steps,
        restart: inputs.restart,
    };
    decide(alloc, encoded, search, &mut pickers)
}

// the report of an answer
fn report_of(
    alloc: Global,
    inputs: &Inputs<'_>,
    run: &Prepared,
    answer: &Answer,
    pcs: List<u32>,
) -> Result<List<u8>, NoMemory>
    requires graph { IsGraphOf run.now.flat run.now.graph }
    requires pcs { ArePcs run.now.flat run.now.setup inputs.now.cycles pcs }
    requires range { IsAnswerInRange run.now.flat.bits (label_count run.now.setup.table inputs.now.cycles) answer.now }
    ensures { IfOk result (IsReport run.now (asked_in inputs.now) inputs.now.steps answer.now) }
{
    let facts = Facts {
        order: inputs.order,
        window: inputs.window,
        cycles: inputs.cycles,
        steps: inputs.steps,
        pcs,
    };
    let text = text_of(alloc, answer, &facts, &run.flat, &run.graph, &run.setup)?;
    Ok(List::from_vec(text))
}

// the text of the formula behind an accepted answer
fn formula_of(alloc: Global, answer: &Answer, encoded: &Encoded) -> Result<List<u8>, NoMemory>
    ensures { IfOk result (λ text. text ≡ formula_of answer.now encoded.now) }
{
    match answer {
        Answer::Accepted(_) => {
            let text = print_formula(alloc, encoded.store(), encoded.vars())?;
            Ok(List::from_vec(text))
        }
        Answer::Rejected(_) => Ok(List::new(alloc)),
        Answer::Undecided(_) => Ok(List::new(alloc)),
    }
}
