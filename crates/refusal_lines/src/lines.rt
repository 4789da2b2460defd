ghost use Rattle.std.specs.Prelude.{◌≡◌, ◌++◌, IfOk, OnOk};
ghost use Rattle.refusal_lines.specs.Refusals.{long_text, other_text, refusal_line, refusal_text};

use crate::faults::{
    add_asm, add_bind, add_cone, add_graph, add_label, add_named, add_net, add_numbered, add_proof,
    add_unroll,
};
use crate::refusal::Refusal;
use coco_base::{NoMemory, Text};
use leak_report::text::add;
use std::alloc::Global;

/// The line that says why a call is refused, with its line feed: the refusal's number, and what it names.
pub fn refusal_line(alloc: Global, refusal: &Refusal) -> Result<Vec<u8>, NoMemory>
    ensures { IfOk result (λ v. v.items ≡ refusal_line refusal.now) }
{
    let mut text = b"refused ".to_vec(alloc)?;
    add_refusal(&mut text, alloc, refusal)?;
    add(&mut text, b"\n")?;
    Ok(text)
}

fn add_refusal(text: &mut Vec<u8>, alloc: Global, refusal: &Refusal) -> Result<(), NoMemory>
    ensures { OnOk result (text.new.items ≡ text.old.items ++ refusal_text refusal.now) }
{
    match refusal {
        Refusal::Long { name } => add_long(text, alloc, name),
        Refusal::Net(fault) => add_net(text, alloc, fault),
        Refusal::Graph(fault) => add_graph(text, alloc, fault),
        Refusal::Asm(fault) => add_asm(text, alloc, *fault),
        Refusal::Label(fault) => add_label(text, alloc, *fault),
        Refusal::Bind(fault) => add_bind(text, alloc, fault),
        Refusal::Unroll(fault) => add_unroll(text, alloc, fault),
        Refusal::Cone(fault) => add_cone(text, alloc, *fault),
        Refusal::Proof(fault) => add_proof(text, alloc, fault),
        Refusal::Other { line } => add_other(text, alloc, *line),
    }
}

fn add_long(text: &mut Vec<u8>, alloc: Global, name: &Text) -> Result<(), NoMemory>
    ensures { OnOk result (text.new.items ≡ text.old.items ++ long_text name.now) }
{
    add_named(text, alloc, b"100 file ", name)?;
    add(text, b" longer than 134217728")
}

fn add_other(text: &mut Vec<u8>, alloc: Global, line: u32) -> Result<(), NoMemory>
    ensures { OnOk result (text.new.items ≡ text.old.items ++ other_text line) }
{
    add_numbered(text, alloc, b"502 proof line ", u64::from(line))?;
    add(text, b" differs")
}
