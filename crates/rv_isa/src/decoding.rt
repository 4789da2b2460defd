//! From a word to its instruction.
ghost use Rattle.std.specs.Prelude.{◌≡◌, ◌⊎◌, ◌≢◌, IfNone, IfSome};
ghost use Rattle.rv_isa.specs.Fields.{b_imm, bits, j_imm, s_imm};
ghost use Rattle.rv_isa.specs.Words.{Fits, IsDecoded, word_of};
ghost use Rattle.rv_isa.specs.declared.instruction.Instr.{Instr};

use crate::encoding::{
    AUIPC, BRANCH, EBREAK_WORD, ECALL_WORD, FENCE_WORD, IMM, JAL, JALR, LOAD, LUI, MISC_MEM, REG,
    STORE, SYSTEM,
};
use crate::fields::{bits, sign_extension};
use crate::functions::i_imm;
use crate::instruction::{BranchOp, ImmOp, Instr, LoadOp, RegOp, StoreOp};

fn rd(word: u32) -> u8
    ensures { result ≡ bits word 11 7 }
{
    bits(word, 11, 7) as u8
}

fn rs1(word: u32) -> u8
    ensures { result ≡ bits word 19 15 }
{
    bits(word, 19, 15) as u8
}

fn rs2(word: u32) -> u8
    ensures { result ≡ bits word 24 20 }
{
    bits(word, 24, 20) as u8
}

fn funct3(word: u32) -> u32
    ensures { result ≡ bits word 14 12 }
{
    bits(word, 14, 12)
}

fn funct7(word: u32) -> u32
    ensures { result ≡ bits word 31 25 }
{
    bits(word, 31, 25)
}

fn s_imm(word: u32) -> i32
    ensures { result ≡ s_imm word }
{
    sign_extension((bits(word, 31, 25) << 5) + bits(word, 11, 7), 1 << 11)
}

fn b_imm(word: u32) -> i32
    ensures { result ≡ b_imm word }
{
    let field = (bits(word, 31, 31) << 12)
        + (bits(word, 7, 7) << 11)
        + (bits(word, 30, 25) << 5)
        + (bits(word, 11, 8) << 1);
    sign_extension(field, 1 << 12)
}

fn j_imm(word: u32) -> i32
    ensures { result ≡ j_imm word }
{
    let field = (bits(word, 31, 31) << 20)
        + (bits(word, 19, 12) << 12)
        + (bits(word, 20, 20) << 11)
        + (bits(word, 30, 21) << 1);
    sign_extension(field, 1 << 20)
}

fn decode_reg(word: u32) -> Option<Instr>
    requires { bits word 6 0 ≡ REG }
    ensures { IsDecoded word result }
{
    let op = RegOp::from_functs(funct3(word), funct7(word))?;
    Some(Instr::Reg {
        op,
        rd: rd(word),
        rs1: rs1(word),
        rs2: rs2(word),
    })
}

fn decode_imm(word: u32) -> Option<Instr>
    requires { bits word 6 0 ≡ IMM }
    ensures { IsDecoded word result }
{
    let op = ImmOp::from_functs(funct3(word), funct7(word))?;
    Some(Instr::Imm {
        op,
        rd: rd(word),
        rs1: rs1(word),
        imm: op.operand(word),
    })
}

fn decode_load(word: u32) -> Option<Instr>
    requires { bits word 6 0 ≡ LOAD }
    ensures { IsDecoded word result }
{
    let op = LoadOp::from_funct3(funct3(word))?;
    Some(Instr::Load {
        op,
        rd: rd(word),
        rs1: rs1(word),
        imm: i_imm(word),
    })
}

fn decode_store(word: u32) -> Option<Instr>
    requires { bits word 6 0 ≡ STORE }
    ensures { IsDecoded word result }
{
    let op = StoreOp::from_funct3(funct3(word))?;
    Some(Instr::Store {
        op,
        rs1: rs1(word),
        rs2: rs2(word),
        imm: s_imm(word),
    })
}

fn decode_branch(word: u32) -> Option<Instr>
    requires { bits word 6 0 ≡ BRANCH }
    ensures { IsDecoded word result }
{
    let op = BranchOp::from_funct3(funct3(word))?;
    Some(Instr::Branch {
        op,
        rs1: rs1(word),
        rs2: rs2(word),
        offset: b_imm(word),
    })
}

fn decode_lui(word: u32) -> Option<Instr>
    requires { bits word 6 0 ≡ LUI }
    ensures { IsDecoded word result }
{
    Some(Instr::Lui {
        rd: rd(word),
        imm: bits(word, 31, 12),
    })
}

fn decode_auipc(word: u32) -> Option<Instr>
    requires { bits word 6 0 ≡ AUIPC }
    ensures { IsDecoded word result }
{
    Some(Instr::Auipc {
        rd: rd(word),
        imm: bits(word, 31, 12),
    })
}

fn decode_jal(word: u32) -> Option<Instr>
    requires { bits word 6 0 ≡ JAL }
    ensures { IsDecoded word result }
{
    Some(Instr::Jal {
        rd: rd(word),
        offset: j_imm(word),
    })
}

fn decode_jalr(word: u32) -> Option<Instr>
    requires { bits word 6 0 ≡ JALR }
    ensures { IsDecoded word result }
{
    if funct3(word) == 0b000 {
        Some(Instr::Jalr {
            rd: rd(word),
            rs1: rs1(word),
            imm: i_imm(word),
        })
    } else {
        None
    }
}

// The instructions without operands, each of which has one word alone.
fn decode_bare(word: u32) -> Option<Instr>
    requires { (bits word 6 0 ≡ MISC_MEM) ⊎ (bits word 6 0 ≡ SYSTEM) }
    ensures { IsDecoded word result }
{
    match word {
        FENCE_WORD => Some(Instr::Fence),
        ECALL_WORD => Some(Instr::Ecall),
        EBREAK_WORD => Some(Instr::Ebreak),
        _ => None,
    }
}

/// The instruction that fits and has this word, and `None` where there is none.
pub fn decode(word: u32) -> Option<Instr>
    ensures fits { IfSome result Fits }
    ensures word { IfSome result (λ instr. word_of instr ≡ word) }
    ensures every { (instr : Instr) → Fits instr → word_of instr ≡ word → result ≡ Some instr }
    ensures none { IfNone result ((instr : Instr) → Fits instr → word_of instr ≢ word) }
{
    match bits(word, 6, 0) {
        REG => decode_reg(word),
        IMM => decode_imm(word),
        LOAD => decode_load(word),
        STORE => decode_store(word),
        BRANCH => decode_branch(word),
        LUI => decode_lui(word),
        AUIPC => decode_auipc(word),
        JAL => decode_jal(word),
        JALR => decode_jalr(word),
        MISC_MEM | SYSTEM => decode_bare(word),
        _ => None,
    }
}
