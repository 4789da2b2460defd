//! The statement that each form makes with its operands.
ghost use Rattle.std.specs.Prelude.{◌≡◌};
ghost use Rattle.rv_isa.specs.declared.instruction.Instr.TheVariants.{Imm, Reg};
ghost use Rattle.rv_asm.specs.Readings.{Gives};
ghost use Rattle.rv_asm.specs.Statements.{auipc_at, branch_at, branch_with_zero_first_at, branch_with_zero_second_at, copy_at, copy_of, exchanged_branch_at, imm_at, is_copy, load_address_at, load_at, load_number_at, lui_at, memory_operands_at, nop, plain_statement_at, reg_at, source_at, statement_at, store_at, whole};

use crate::line::directives::directive;
use crate::line::expression::{Expr, Term};
use crate::line::jumps::{jal, jalr, jump_register, jump_to};
use crate::line::mnemonics::Form;
use crate::line::numbers::number;
use crate::line::operands::{
    register_and_base, register_and_value, register_value_and_base, three_registers, two_registers,
    two_registers_and_value,
};
use crate::line::reading::Unread;
use crate::line::registers::register;
use crate::line::statement::{Demand, Statement, ask_for};
use crate::line::tokens::{end, mark, name};
use crate::lists::list_of;
use rv_isa::{BranchOp, ImmOp, Instr, LoadOp, RegOp, StoreOp};
use std::alloc::Global;

// An instruction without operands.
fn whole(instr: Instr, bytes: &[u8]) -> Result<Statement, Unread>
    ensures { Gives (λ s. s) result (whole instr bytes.now) }
{
    end(bytes)?;
    Ok(Statement::Whole(instr))
}

// A register, and a place in memory.
#[tactic(auto, unfolding(crate::specs::Statements::memory_operands_at))]
fn memory_operands(alloc: Global, bytes: &[u8]) -> Result<(u8, Expr, u8), Unread>
    ensures { Gives (λ x. x) result (memory_operands_at bytes.now) }
{
    match register_value_and_base(alloc, bytes) {
        Err(Unread::Other) => register_and_base(alloc, bytes),
        found => found,
    }
}

// A number or a name.
#[tactic(auto, unfolding(crate::specs::Statements::source_at))]
fn source(alloc: Global, bytes: &[u8]) -> Result<(Term, &[u8]), Unread>
    ensures { Gives (λ x. (x.0, x.1.now)) result (source_at bytes.now) }
{
    match number(bytes) {
        Ok((value, rest)) => Ok((Term::Number(value), rest)),
        Err(Unread::Memory) => Err(Unread::Memory),
        Err(Unread::Other) => {
            let (name, rest) = name(bytes)?;
            let name = list_of(alloc, name)?;
            Ok((Term::Name(name), rest))
        }
    }
}

// `li`.
#[tactic(auto, unfolding(crate::specs::Statements::load_number_at))]
fn load_number(alloc: Global, bytes: &[u8]) -> Result<Statement, Unread>
    ensures { Gives (λ s. s) result (load_number_at bytes.now) }
{
    let (rd, rest) = register(bytes)?;
    let rest = mark(b',', rest)?;
    let (source, rest) = source(alloc, rest)?;
    end(rest)?;
    Ok(Statement::LoadNumber { rd, source })
}

// The instruction that does nothing.
pub(crate) fn nop() -> Instr
    ensures { result ≡ nop }
{
    imm_instr(ImmOp::Addi, 0, 0, 0)
}

fn imm_instr(op: ImmOp, rd: u8, rs1: u8, imm: i32) -> Instr
    ensures { result ≡ Imm op rd rs1 imm }
{
    Instr::Imm { op, rd, rs1, imm }
}

fn reg_instr(op: RegOp, rd: u8, rs1: u8, rs2: u8) -> Instr
    ensures { result ≡ Reg op rd rs1 rs2 }
{
    Instr::Reg { op, rd, rs1, rs2 }
}

#[tactic(auto, unfolding(crate::specs::Statements::lui_at))]
fn lui(alloc: Global, bytes: &[u8]) -> Result<Statement, Unread>
    ensures { Gives (λ s. s) result (lui_at bytes.now) }
{
    let (rd, value) = register_and_value(alloc, bytes)?;
    Ok(ask_for(alloc, Demand::Lui { rd }, value)?)
}

#[tactic(auto, unfolding(crate::specs::Statements::auipc_at))]
fn auipc(alloc: Global, bytes: &[u8]) -> Result<Statement, Unread>
    ensures { Gives (λ s. s) result (auipc_at bytes.now) }
{
    let (rd, value) = register_and_value(alloc, bytes)?;
    Ok(ask_for(alloc, Demand::Auipc { rd }, value)?)
}

#[tactic(auto, unfolding(crate::specs::Statements::load_address_at))]
fn load_address(alloc: Global, bytes: &[u8]) -> Result<Statement, Unread>
    ensures { Gives (λ s. s) result (load_address_at bytes.now) }
{
    let (rd, value) = register_and_value(alloc, bytes)?;
    Ok(ask_for(alloc, Demand::Address { rd }, value)?)
}

// Jumps, numbers in registers, and what has no operands.
fn plain_statement(alloc: Global, form: Form, bytes: &[u8]) -> Result<Statement, Unread>
    ensures { Gives (λ s. s) result (plain_statement_at form bytes.now) }
{
    match form {
        Form::Jal => jal(alloc, bytes),
        Form::Jalr => jalr(alloc, bytes),
        Form::Jump => jump_to(alloc, Demand::Jal { rd: 0 }, bytes),
        Form::JumpRegister => jump_register(bytes),
        Form::Return => whole(
            Instr::Jalr {
                rd: 0,
                rs1: 1,
                imm: 0,
            },
            bytes,
        ),
        Form::Call => jump_to(alloc, Demand::Jal { rd: 1 }, bytes),
        Form::Lui => lui(alloc, bytes),
        Form::Auipc => auipc(alloc, bytes),
        Form::LoadNumber => load_number(alloc, bytes),
        Form::LoadAddress => load_address(alloc, bytes),
        Form::Nop => whole(nop(), bytes),
        Form::FenceAll => whole(Instr::Fence, bytes),
        Form::EnvironmentCall => whole(Instr::Ecall, bytes),
        Form::Break => whole(Instr::Ebreak, bytes),
        _ => directive(alloc, form, bytes),
    }
}

// The instruction that an operation on one register stands for.
fn copy_of(form: Form, rd: u8, rs: u8) -> Option<Instr>
    ensures { result ≡ copy_of form rd rs }
{
    Some(match form {
        Form::Move => imm_instr(ImmOp::Addi, rd, rs, 0),
        Form::Invert => imm_instr(ImmOp::Xori, rd, rs, -1),
        Form::Negate => reg_instr(RegOp::Sub, rd, 0, rs),
        Form::IsZero => imm_instr(ImmOp::Sltiu, rd, rs, 1),
        Form::IsNotZero => reg_instr(RegOp::Sltu, rd, 0, rs),
        Form::IsNegative => reg_instr(RegOp::Slt, rd, rs, 0),
        Form::IsPositive => reg_instr(RegOp::Slt, rd, 0, rs),
        _ => return None,
    })
}

fn is_copy(form: Form) -> bool
    ensures { result ≡ is_copy form }
{
    matches!(
        form,
        Form::Move
            | Form::Invert
            | Form::Negate
            | Form::IsZero
            | Form::IsNotZero
            | Form::IsNegative
            | Form::IsPositive
    )
}

#[tactic(auto, unfolding(crate::specs::Statements::copy_at))]
fn copy_statement(form: Form, bytes: &[u8]) -> Result<Statement, Unread>
    ensures { Gives (λ s. s) result (copy_at form bytes.now) }
{
    let (rd, rs) = two_registers(bytes)?;
    match copy_of(form, rd, rs) {
        Some(instr) => Ok(Statement::Whole(instr)),
        None => Err(Unread::Other),
    }
}

#[tactic(auto, unfolding(crate::specs::Statements::reg_at))]
fn reg(op: RegOp, bytes: &[u8]) -> Result<Statement, Unread>
    ensures { Gives (λ s. s) result (reg_at op bytes.now) }
{
    let (rd, rs1, rs2) = three_registers(bytes)?;
    Ok(Statement::Whole(reg_instr(op, rd, rs1, rs2)))
}

#[tactic(auto, unfolding(crate::specs::Statements::imm_at))]
fn imm(alloc: Global, op: ImmOp, bytes: &[u8]) -> Result<Statement, Unread>
    ensures { Gives (λ s. s) result (imm_at op bytes.now) }
{
    let (rd, rs1, value) = two_registers_and_value(alloc, bytes)?;
    Ok(ask_for(alloc, Demand::Imm { op, rd, rs1 }, value)?)
}

#[tactic(auto, unfolding(crate::specs::Statements::load_at))]
fn load(alloc: Global, op: LoadOp, bytes: &[u8]) -> Result<Statement, Unread>
    ensures { Gives (λ s. s) result (load_at op bytes.now) }
{
    let (rd, value, rs1) = memory_operands(alloc, bytes)?;
    Ok(ask_for(alloc, Demand::Load { op, rd, rs1 }, value)?)
}

#[tactic(auto, unfolding(crate::specs::Statements::store_at))]
fn store(alloc: Global, op: StoreOp, bytes: &[u8]) -> Result<Statement, Unread>
    ensures { Gives (λ s. s) result (store_at op bytes.now) }
{
    let (rs2, value, rs1) = memory_operands(alloc, bytes)?;
    Ok(ask_for(alloc, Demand::Store { op, rs1, rs2 }, value)?)
}

#[tactic(auto, unfolding(crate::specs::Statements::branch_at))]
fn branch(alloc: Global, op: BranchOp, bytes: &[u8]) -> Result<Statement, Unread>
    ensures { Gives (λ s. s) result (branch_at op bytes.now) }
{
    let (rs1, rs2, value) = two_registers_and_value(alloc, bytes)?;
    Ok(ask_for(alloc, Demand::Branch { op, rs1, rs2 }, value)?)
}

#[tactic(auto, unfolding(crate::specs::Statements::exchanged_branch_at))]
fn exchanged_branch(alloc: Global, op: BranchOp, bytes: &[u8]) -> Result<Statement, Unread>
    ensures { Gives (λ s. s) result (exchanged_branch_at op bytes.now) }
{
    let (rs2, rs1, value) = two_registers_and_value(alloc, bytes)?;
    Ok(ask_for(alloc, Demand::Branch { op, rs1, rs2 }, value)?)
}

#[tactic(auto, unfolding(crate::specs::Statements::branch_with_zero_second_at))]
fn branch_with_zero_second(alloc: Global, op: BranchOp, bytes: &[u8]) -> Result<Statement, Unread>
    ensures { Gives (λ s. s) result (branch_with_zero_second_at op bytes.now) }
{
    let (rs1, value) = register_and_value(alloc, bytes)?;
    Ok(ask_for(alloc, Demand::Branch { op, rs1, rs2: 0 }, value)?)
}

#[tactic(auto, unfolding(crate::specs::Statements::branch_with_zero_first_at))]
fn branch_with_zero_first(alloc: Global, op: BranchOp, bytes: &[u8]) -> Result<Statement, Unread>
    ensures { Gives (λ s. s) result (branch_with_zero_first_at op bytes.now) }
{
    let (rs2, value) = register_and_value(alloc, bytes)?;
    Ok(ask_for(alloc, Demand::Branch { op, rs1: 0, rs2 }, value)?)
}

// The statement of a form with its operands.
pub(crate) fn statement(alloc: Global, form: Form, bytes: &[u8]) -> Result<Statement, Unread>
    ensures { Gives (λ s. s) result (statement_at form bytes.now) }
{
    match form {
        Form::Reg(op) => reg(op, bytes),
        Form::Imm(op) => imm(alloc, op, bytes),
        Form::Load(op) => load(alloc, op, bytes),
        Form::Store(op) => store(alloc, op, bytes),
        Form::Branch(op) => branch(alloc, op, bytes),
        Form::Exchanged(op) => exchanged_branch(alloc, op, bytes),
        Form::Second(op) => branch_with_zero_second(alloc, op, bytes),
        Form::First(op) => branch_with_zero_first(alloc, op, bytes),
        _ if is_copy(form) => copy_statement(form, bytes),
        _ => plain_statement(alloc, form, bytes),
    }
}
