//! Runs for tests, made by hand. Each has two secrets of one bit with two shares, labels 0 to 3, a mask, label 4, and a
//! fresh mask, label 5 in cycle 0; and each bit has its own number as its rank.
ghost use Rattle.std.specs.Prelude.{◌≡◌, ◌≢◌, ◌<◌, ◌*◌, ℕ, false, [], ◌∷◌, length, get_or, IfOk, IsTrue};
ghost use Rattle.coco_base.specs.declared.cell.Part.TheVariants.{Zero, Vary};
ghost use Rattle.coco_base.specs.declared.unrolled.Node.TheVariants.{Nothing};
ghost use Rattle.coco_model.specs.Labels.{IsLabelTable};
ghost use Rattle.coco_model.specs.UnrolledRuns.{node_at, AreEarlierOperands, IsGoodNode, IsUnrolledValue};

use cell_table::inputs_of;
use coco_base::{
    Kind, LabelTable, List, MaskPlan, NoMemory, Node, Part, SecretPlan, Text, Unrolled,
};
use std::alloc::Global;
use std::test::Fail;

pub(crate) const ZERO: Part = Part::Zero;

pub(crate) const ONE: Part = Part::One;

pub(crate) const VARY: Part = Part::Vary;

pub(crate) const NOTHING: Node = Node::Nothing;

/// A gate of two inputs, or of one.
pub(crate) const fn gate(kind: Kind, first: Part, second: Part, operands: [u32; 2]) -> Node {
    let [a, b] = operands;
    Node::Gate {
        kind,
        parts: [first, second, ZERO, ZERO],
        operands: [a, b, 0, 0],
    }
}

/// A gate both of whose inputs vary.
pub(crate) const fn both(kind: Kind, a: u32, b: u32) -> Node {
    gate(kind, VARY, VARY, [a, b])
}

/// The items of a slice.
pub(crate) fn list<T: Copy + Drop>(alloc: Global, items: &[T]) -> Result<List<T>, NoMemory>
    ensures { IfOk result (λ l. l ≡ items.now) }
{
    Ok(List::from_vec(Vec::from_slice(alloc, items)?))
}

fn secrets(alloc: Global, first: Text, second: Text) -> Result<List<SecretPlan>, NoMemory>
    ensures { IfOk result (λ l. l ≡ record { name = first; width = 1; shares = 2; first = 0 }
        ∷ record { name = second; width = 1; shares = 2; first = 2 } ∷ []) }
{
    let mut secrets = List::new(alloc);
    secrets.push(SecretPlan {
        name: first,
        width: 1,
        shares: 2,
        first: 0,
    })?;
    secrets.push(SecretPlan {
        name: second,
        width: 1,
        shares: 2,
        first: 2,
    })?;
    Ok(secrets)
}

fn mask(alloc: Global, name: Text, first: u32) -> Result<List<MaskPlan>, NoMemory>
    ensures { IfOk result (λ l. l ≡ record { name = name; width = 1; first = first } ∷ []) }
{
    let mut masks = List::new(alloc);
    masks.push(MaskPlan {
        name,
        width: 1,
        first,
    })?;
    Ok(masks)
}

fn table(alloc: Global) -> Result<LabelTable, NoMemory>
    ensures { IfOk result IsLabelTable }
{
    Ok(LabelTable {
        secrets: secrets(alloc, Text::of(alloc, "a")?, Text::of(alloc, "b")?)?,
        masks: mask(alloc, Text::of(alloc, "m")?, 4)?,
        fresh: mask(alloc, Text::of(alloc, "f")?, 0)?,
        declared: 5,
        per_cycle: 1,
    })
}

fn own_numbers(alloc: Global, bits: u32) -> Result<List<u32>, NoMemory>
    ensures as_long { IfOk result (λ l. length l ≡ bits) }
    ensures each { IfOk result (λ l. (b : ℕ) → b < bits → get_or l b 0 ≡ b) }
{
    let mut ranks = List::new(alloc);
    'bits: for bit in 0..bits {
        ranks.push(bit)?;
    }
    Ok(ranks)
}

/// The run of nodes in order.
pub(crate) fn run_of(
    alloc: Global,
    bits: u32,
    cycles: u32,
    nodes: &[Node],
) -> Result<Unrolled, Fail>
    ensures value { IfOk result IsUnrolledValue }
    ensures bits { IfOk result (λ u. u.bits ≡ bits) }
    ensures cycles { IfOk result (λ u. u.cycles ≡ cycles) }
{
    let run = Unrolled {
        bits,
        cycles,
        ranks: own_numbers(alloc, bits)?,
        nodes: list(alloc, nodes)?,
        table: table(alloc)?,
    };
    if nodes.len() as u64 != u64::from(bits) * u64::from(cycles) || !are_good(&run) {
        return Err(Fail::from(NoMemory));
    }
    Ok(run)
}

fn are_good(run: &Unrolled) -> bool
    ensures { IsTrue result → (i : ℕ) → i < length run.now.nodes → IsGoodNode run.now i (node_at run.now i) }
{
    'nodes: for place in 0..run.nodes.len() {
        if !is_good(run, place) {
            return false;
        }
    }
    true
}

fn is_good(run: &Unrolled, place: usize) -> bool
    requires { place < length run.now.nodes }
    ensures { IsTrue result → IsGoodNode run.now place (node_at run.now place) }
{
    match run.nodes.as_slice()[place] {
        Node::Nothing => true,
        Node::Label(label) => {
            let table = &run.table;
            let fresh = u64::from(run.cycles) * u64::from(table.per_cycle);
            u64::from(label) < u64::from(table.declared) + fresh
        }
        Node::Copy(origin) => is_earlier(run, place, origin),
        Node::Gate {
            kind,
            parts,
            operands,
        } => are_earlier(run, place, kind, parts, operands),
    }
}

// whether a node comes before a place and is something
fn is_earlier(run: &Unrolled, place: usize, node: u32) -> bool
    requires { place < length run.now.nodes }
    ensures { IsTrue result → ((node < place) × (node_at run.now node ≢ Nothing)) }
{
    (node as usize) < place && run.nodes.as_slice()[node as usize] != Node::Nothing
}

fn are_earlier(
    run: &Unrolled,
    place: usize,
    kind: Kind,
    parts: [Part; 4],
    operands: [u32; 4],
) -> bool
    requires { place < length run.now.nodes }
    ensures { IsTrue result → AreEarlierOperands run.now place kind parts operands }
{
    let count = inputs_of(kind) as usize;
    'inputs: for input in 0..4 {
        if !is_input(run, place, input < count, parts[input], operands[input]) {
            return false;
        }
    }
    true
}

fn is_input(run: &Unrolled, place: usize, is_read: bool, part: Part, operand: u32) -> bool
    requires { place < length run.now.nodes }
    ensures unread { IsTrue result → is_read ≡ false → part ≡ Zero }
    ensures earlier { IsTrue result → part ≡ Vary → ((operand < place) × (node_at run.now operand ≢ Nothing)) }
{
    match part {
        Part::Zero => true,
        Part::One => is_read,
        Part::Vary => is_read && is_earlier(run, place, operand),
    }
}
