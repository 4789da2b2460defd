//! Statements, and the parts of a program that they stand in.
ghost use Rattle.std.specs.Prelude.{◌≡◌, IfOk};
ghost use Rattle.rv_asm.specs.Statements.{ask_for};

use crate::line::expression::{Expr, Term};
use coco_base::{List, NoMemory};
use rv_isa::{BranchOp, ImmOp, Instr, LoadOp, StoreOp};
use std::alloc::Global;

// The text, whose cells are words from address 00000000 on, or the data, whose cells are bytes from 00010000 on.
#[derive(Clone, Copy, Debug, PartialEq, Eq)]
pub(crate) enum Part {
    Text,
    Data,
}

// The size of a value in memory.
#[derive(Clone, Copy, Debug, PartialEq, Eq)]
pub(crate) enum Size {
    Byte,
    Half,
    Word,
}

// What a value is for: a field of an instruction, whose other fields are given, an address in a register, which takes
// two instructions, or the value itself.
#[derive(Clone, Copy, Debug, PartialEq, Eq)]
pub(crate) enum Demand {
    Imm { op: ImmOp, rd: u8, rs1: u8 },
    Load { op: LoadOp, rd: u8, rs1: u8 },
    Store { op: StoreOp, rs1: u8, rs2: u8 },
    Branch { op: BranchOp, rs1: u8, rs2: u8 },
    Lui { rd: u8 },
    Auipc { rd: u8 },
    Jal { rd: u8 },
    Jalr { rd: u8, rs1: u8 },
    Address { rd: u8 },
    Value(Size),
}

// What a line says after its labels.
#[derive(Debug, Drop)]
pub(crate) enum Statement {
    Nothing,
    // An instruction whose fields are all given.
    Whole(Instr),
    // Values, all for the same demand.
    Asks { demand: Demand, values: List<Expr> },
    // `li` of a number, or of a name.
    LoadNumber { rd: u8, source: Term },
    // The part that what follows is in.
    Enter(Part),
    // So many bytes of zeros; as in `Term::Number`.
    Zeros(Option<i64>),
    // An alignment to 2 to this power; nothing stands for a number that is no exponent.
    Align(Option<u64>),
    // A name for a value.
    Equal { name: List<u8>, value: Expr },
}

// A line: its labels, and its statement.
#[derive(Debug, Drop)]
pub(crate) struct Line {
    pub(crate) labels: List<List<u8>>,
    pub(crate) statement: Statement,
}

// A value for a demand.
pub(crate) fn ask_for(alloc: Global, demand: Demand, value: Expr) -> Result<Statement, NoMemory>
    ensures { IfOk result (λ s. s ≡ ask_for demand value) }
{
    let mut values = List::new(alloc);
    values.push(value)?;
    Ok(Statement::Asks { demand, values })
}
