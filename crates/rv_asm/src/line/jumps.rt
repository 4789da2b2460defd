//! The statements of jumps.
ghost use Rattle.rv_asm.specs.Readings.{Gives};
ghost use Rattle.rv_asm.specs.Statements.{jal_at, jalr_at, jalr_of_list_at, jalr_of_register_at, jump_register_at, jump_to_at};

use crate::line::operands::{
    one_register, one_value, register_and_value, register_value_and_base, two_registers_and_value,
};
use crate::line::reading::Unread;
use crate::line::statement::{Demand, Statement, ask_for};
use rv_isa::Instr;
use std::alloc::Global;

// One value for a demand.
pub(crate) fn jump_to(alloc: Global, demand: Demand, bytes: &[u8]) -> Result<Statement, Unread>
    ensures { Gives (λ s. s) result (jump_to_at demand bytes.now) }
{
    let value = one_value(alloc, bytes)?;
    Ok(ask_for(alloc, demand, value)?)
}

// `jal`, with its register or without it.
#[tactic(auto, unfolding(crate::specs::Statements::jal_at))]
pub(crate) fn jal(alloc: Global, bytes: &[u8]) -> Result<Statement, Unread>
    ensures { Gives (λ s. s) result (jal_at bytes.now) }
{
    match register_and_value(alloc, bytes) {
        Ok((rd, target)) => Ok(ask_for(alloc, Demand::Jal { rd }, target)?),
        Err(Unread::Memory) => Err(Unread::Memory),
        Err(Unread::Other) => jump_to(alloc, Demand::Jal { rd: 1 }, bytes),
    }
}

#[tactic(auto, unfolding(crate::specs::Statements::jalr_of_register_at))]
fn jalr_of_register(bytes: &[u8]) -> Result<Statement, Unread>
    ensures { Gives (λ s. s) result (jalr_of_register_at bytes.now) }
{
    let rs1 = one_register(bytes)?;
    Ok(Statement::Whole(Instr::Jalr { rd: 1, rs1, imm: 0 }))
}

#[tactic(auto, unfolding(crate::specs::Statements::jalr_of_list_at))]
fn jalr_of_list(alloc: Global, bytes: &[u8]) -> Result<Statement, Unread>
    ensures { Gives (λ s. s) result (jalr_of_list_at bytes.now) }
{
    match two_registers_and_value(alloc, bytes) {
        Ok((rd, rs1, value)) => Ok(ask_for(alloc, Demand::Jalr { rd, rs1 }, value)?),
        Err(Unread::Memory) => Err(Unread::Memory),
        Err(Unread::Other) => jalr_of_register(bytes),
    }
}

// `jalr` in its three forms.
#[tactic(auto, unfolding(crate::specs::Statements::jalr_at))]
pub(crate) fn jalr(alloc: Global, bytes: &[u8]) -> Result<Statement, Unread>
    ensures { Gives (λ s. s) result (jalr_at bytes.now) }
{
    match register_value_and_base(alloc, bytes) {
        Ok((rd, value, rs1)) => Ok(ask_for(alloc, Demand::Jalr { rd, rs1 }, value)?),
        Err(Unread::Memory) => Err(Unread::Memory),
        Err(Unread::Other) => jalr_of_list(alloc, bytes),
    }
}

#[tactic(auto, unfolding(crate::specs::Statements::jump_register_at))]
pub(crate) fn jump_register(bytes: &[u8]) -> Result<Statement, Unread>
    ensures { Gives (λ s. s) result (jump_register_at bytes.now) }
{
    let rs1 = one_register(bytes)?;
    Ok(Statement::Whole(Instr::Jalr { rd: 0, rs1, imm: 0 }))
}
