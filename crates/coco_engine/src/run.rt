ghost use Rattle.std.specs.Prelude.{◌≡◌, ◌≤◌, ◌<◌, ◌++◌, ◌⊎◌, length, IfOk, IfSome, OnOk, None, Some, option_map, true};
ghost use Rattle.coco_base.specs.Causes.{Rose};
ghost use Rattle.command_words.specs.Commands.{check_command};
ghost use Rattle.command_words.specs.Shown.{shown_check, shown_files};
ghost use Rattle.command_words.specs.Words.{texts};
ghost use Rattle.refusal_lines.specs.Refusals.{refusal_line};
ghost use Rattle.run_inputs.specs.Inputs.{files_in};
ghost use Rattle.coco_engine.specs.Answers.{AnswersFiles, AnswersStop, IsInSizes, Leaves, MayWrite, asked_by, fault_line, proof_part, status_of, written_text};
ghost use Rattle.coco_engine.specs.Judged.{asked_in};
ghost use Rattle.coco_engine.specs.Reading.{AreShort, files_from};

use crate::files::{FileBytes, FileStop, is_word_file, read_files};
use crate::judging::{Judged, judge};
use crate::reading::ReadStop;
use crate::writing::write_whole;
use coco_base::{Failed, Limits, NoMemory, Shelf, Sink, Status, Text};
use command_words::{CheckRequest, read_check};
use derivation_check::print_derivation;
use leak_report::Answer;
use leak_report::text::{add, add_name};
use pickers::Picker;
use refusal_lines::{Refusal, Stop, refusal_line};
use run_inputs::Inputs;
use std::alloc::Global;

/// What a call came to: its status, and the answer where a run was judged.
#[derive(Debug, Drop)]
pub struct Ran {
    pub status: Status,
    pub answer: Option<Answer>,
}

/// What a call writes, and what it comes to where that is written whole.
#[derive(Debug, Drop)]
struct Reply {
    ran: Ran,
    text: Vec<u8>,
}

fn reply_without(status: Status, text: Vec<u8>) -> Reply
    ensures status { result.ran.status ≡ status }
    ensures unanswered { result.ran.answer ≡ None }
    ensures text { result.text ≡ text }
{
    Reply {
        ran: ran_without(status),
        text,
    }
}

// the reply that refuses a call
fn refusal_reply(alloc: Global, refusal: Refusal) -> Result<Reply, NoMemory>
    ensures status { IfOk result (λ r. r.ran.status ≡ Status.Refused) }
    ensures unanswered { IfOk result (λ r. r.ran.answer ≡ None) }
    ensures text { IfOk result (λ r. r.text.items ≡ refusal_line refusal) }
{
    let text = refusal_line(alloc, &refusal)?;
    Ok(reply_without(Status::Refused, text))
}

fn fault_line(alloc: Global, name: &str) -> Result<Vec<u8>, NoMemory>
    ensures { IfOk result (λ v. v.items ≡ fault_line name.now) }
{
    let mut text = b"read fault ".to_vec(alloc)?;
    add_name(&mut text, alloc, name.as_bytes())?;
    add(&mut text, b"\n")?;
    Ok(text)
}

// the reply in place of files that are not read
fn stop_reply(alloc: Global, stop: FileStop<'_>) -> Result<Reply, NoMemory>
    ensures { IfOk result (λ r. AnswersStop stop.entry.name.now stop.entry.stop
        r.ran.status r.ran.answer r.text.items) }
{
    match stop.stop {
        ReadStop::Long => {
            let name = Text::of(alloc, stop.name)?;
            refusal_reply(alloc, Refusal::Long { name })
        }
        ReadStop::Failed => Ok(reply_without(Status::ReadFault, fault_line(alloc, stop.name)?)),
        ReadStop::Memory => Err(NoMemory),
    }
}

fn status_of(answer: &Answer) -> Status
    ensures { result ≡ status_of answer.now }
{
    match answer {
        Answer::Accepted(_) => Status::Accepted,
        Answer::Rejected(_) => Status::Rejected,
        Answer::Undecided(_) => Status::Undecided,
    }
}

// adds the formula and the derivation behind an accepted report
fn add_proof(text: &mut Vec<u8>, alloc: Global, judged: &Judged) -> Result<(), NoMemory>
    ensures { OnOk result (text.new.items ≡ text.old.items ++ proof_part true judged.now judged.now.answer) }
{
    match &judged.answer {
        Answer::Accepted(derivation) => {
            add(text, judged.formula.as_slice())?;
            let lines = print_derivation(alloc, derivation)?;
            add(text, lines.as_slice())
        }
        Answer::Rejected(_) => Ok(()),
        Answer::Undecided(_) => Ok(()),
    }
}

// what is written for a judged run
fn written_text(alloc: Global, proof: bool, judged: &Judged) -> Result<Vec<u8>, NoMemory>
    ensures { IfOk result (λ v. v.items ≡ written_text proof judged.now) }
{
    let mut text = judged.report.as_slice().to_vec(alloc)?;
    if proof {
        add_proof(&mut text, alloc, judged)?;
    }
    Ok(text)
}

fn judged_reply(alloc: Global, proof: bool, judged: Judged) -> Result<Reply, NoMemory>
    ensures status { IfOk result (λ r. r.ran.status ≡ status_of judged.answer) }
    ensures answer { IfOk result (λ r. r.ran.answer ≡ Some judged.answer) }
    ensures text { IfOk result (λ r. r.text.items ≡ written_text proof judged) }
{
    let text = written_text(alloc, proof, &judged)?;
    let Judged { answer, .. } = judged;
    let ran = Ran {
        status: status_of(&answer),
        answer: Some(answer),
    };
    Ok(Reply { ran, text })
}

fn program_of(files: &FileBytes) -> Option<&[u8]>
    ensures { option_map (λ bytes. bytes.now) result ≡ option_map (λ v. v.items) files.now.program }
{
    match &files.program {
        Some(bytes) => Some(bytes.as_slice()),
        None => None,
    }
}

fn inputs_of<'a>(request: &CheckRequest<'a>, files: &'a FileBytes) -> Inputs<'a>
    ensures files { files_in result ≡ files_from (shown_files request.now.files) files.entry.now }
    ensures asked { asked_in result ≡ asked_by (shown_check request.now) }
    ensures steps { result.steps ≡ request.now.steps }
    ensures restart { result.restart ≡ request.now.restart }
{
    Inputs {
        netlist: files.netlist.as_slice(),
        labels: files.labels.as_slice(),
        program: program_of(files),
        word_file: is_word_file(request.files.program),
        top: request.files.top,
        order: request.sizes.order,
        window: request.sizes.window,
        cycles: request.sizes.cycles,
        steps: request.steps,
        restart: request.restart,
    }
}

// the reply to files that are read
fn files_reply(
    alloc: Global,
    request: &CheckRequest<'_>,
    files: &FileBytes,
    pickers: Vec<Box<dyn Picker>>,
) -> Result<Reply, NoMemory>
    requires sizes { IsInSizes (shown_check request.now) }
    requires short { AreShort (files_from (shown_files request.now.files) files.now) }
    requires pickers { 0 < length pickers.items }
    ensures { IfOk result (λ r. AnswersFiles (files_from (shown_files request.now.files) files.now)
        (shown_check request.now) r.ran.status r.ran.answer r.text.items) }
{
    let inputs = inputs_of(request, files);
    match judge(alloc, &inputs, &Limits::usual(), pickers) {
        Ok(judged) => judged_reply(alloc, request.proof, judged),
        Err(Stop::Refused(refusal)) => refusal_reply(alloc, refusal),
        Err(Stop::Memory) => Err(NoMemory),
    }
}

// the reply to the files of a shelf
fn reply_to<F: Shelf>(
    alloc: Global,
    request: &CheckRequest<'_>,
    shelf: &mut F,
    pickers: Vec<Box<dyn Picker>>,
) -> Result<Reply, NoMemory>
    requires sizes { IsInSizes (shown_check request.now) }
    requires pickers { 0 < length pickers.items }
    ensures answer { IfOk result (λ r. MayWrite (F.holds shelf.old) (F.faults shelf.old) (F.faults shelf.new)
        (shown_check request.now) r.ran.status r.ran.answer r.text.items) }
    ensures held { F.holds shelf.new ≡ F.holds shelf.old }
    ensures later { F.faults shelf.old ≤ F.faults shelf.new }
{
    match read_files(alloc, shelf, &request.files) {
        Ok(files) => files_reply(alloc, request, &files, pickers),
        Err(stop) => stop_reply(alloc, stop),
    }
}

fn ran_without(status: Status) -> Ran
    ensures status { result.status ≡ status }
    ensures unanswered { result.answer ≡ None }
{
    Ran {
        status,
        answer: None,
    }
}

/// Judges a netlist with a label file and a program, as its words say, and writes the report, a refusal or a fault.
///
/// Words outside the grammar give `Usage`. The other clauses say what is left in the sink: for each status which text,
/// after a failed write a proper front of a text that could have been written whole, and nothing where memory was
/// refused. Where the shelf does not tell a file, the answer is right for some bytes of it. Whatever is answered, the
/// shelf holds what it held, and neither count of faults falls.
pub fn check_run<F: Shelf, K: Sink>(
    alloc: Global,
    words: &[String],
    shelf: &mut F,
    out: &mut K,
    pickers: Vec<Box<dyn Picker>>,
) -> Ran
    requires { 0 < length pickers.items }
    ensures usage { result.status ≡ Status.Usage → check_command (texts words.now) ≡ None }
    ensures grammar { check_command (texts words.now) ≡ None
        → (result.status ≡ Status.Usage) ⊎ (result.status ≡ Status.NoMemory) }
    ensures untouched { result.status ≡ Status.Usage → (shelf.new ≡ shelf.old) × (out.new ≡ out.old) }
    ensures unanswered { result.status ≡ Status.Usage → result.answer ≡ None }
    ensures read_fault { result.status ≡ Status.ReadFault → Rose (F.faults shelf.old) (F.faults shelf.new) }
    ensures write_fault { result.status ≡ Status.WriteFault → Rose (K.faults out.old) (K.faults out.new) }
    ensures no_memory { result.status ≡ Status.NoMemory → out.new ≡ out.old }
    ensures leaves { IfSome (check_command (texts words.now)) (λ c.
        Leaves (MayWrite (F.holds shelf.old) (F.faults shelf.old) (F.faults shelf.new) c)
        (K.taken out.old) (K.taken out.new) result.status result.answer) }
    ensures held { F.holds shelf.new ≡ F.holds shelf.old }
    ensures later { (F.faults shelf.old ≤ F.faults shelf.new) × (K.faults out.old ≤ K.faults out.new) }
{
    let request = match read_check(alloc, words) {
        Ok(Some(request)) => request,
        Ok(None) => return ran_without(Status::Usage),
        Err(NoMemory) => return ran_without(Status::NoMemory),
    };
    let Ok(reply) = reply_to(alloc, &request, shelf, pickers) else {
        return ran_without(Status::NoMemory);
    };
    match write_whole(out, reply.text.as_slice()) {
        Ok(()) => reply.ran,
        Err(Failed) => ran_without(Status::WriteFault),
    }
}
