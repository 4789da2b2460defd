//! The tables of opcodes and functions, and from an instruction to its word.
ghost use Rattle.std.specs.Prelude.{◌≡◌, ◌<◌, ◌^◌, ◌↔◌, IsTrue, IfSome};
ghost use Rattle.rv_isa.specs.Words.{branch_funct3, Fits, imm_funct3, IsBranchOffset, IsJumpOffset, IsOperand, IsShortImm, load_funct3, operand_field, reg_funct3, reg_funct7, shift_funct7, store_funct3, word_of, WordsAreDistinct};

use crate::fields::{b_word, i_word, imm_bits, j_word, r_word, s_word, u_word};
use crate::instruction::{BranchOp, ImmOp, Instr, LoadOp, RegOp, StoreOp};

pub(crate) const REG: u32 = 0b0110011;

pub(crate) const IMM: u32 = 0b0010011;

pub(crate) const LOAD: u32 = 0b0000011;

pub(crate) const STORE: u32 = 0b0100011;

pub(crate) const BRANCH: u32 = 0b1100011;

pub(crate) const LUI: u32 = 0b0110111;

pub(crate) const AUIPC: u32 = 0b0010111;

pub(crate) const JAL: u32 = 0b1101111;

pub(crate) const JALR: u32 = 0b1100111;

pub(crate) const MISC_MEM: u32 = 0b0001111;

pub(crate) const SYSTEM: u32 = 0b1110011;

pub(crate) const FENCE_WORD: u32 = 0x0ff0000f;

pub(crate) const ECALL_WORD: u32 = 0x00000073;

pub(crate) const EBREAK_WORD: u32 = 0x00100073;

impl RegOp {
    pub(crate) fn funct3(self) -> u32
        ensures value { result ≡ reg_funct3 self }
        ensures bound { result < 8 }
    {
        match self {
            RegOp::Add | RegOp::Sub => 0b000,
            RegOp::Sll => 0b001,
            RegOp::Slt => 0b010,
            RegOp::Sltu => 0b011,
            RegOp::Xor => 0b100,
            RegOp::Srl | RegOp::Sra => 0b101,
            RegOp::Or => 0b110,
            RegOp::And => 0b111,
        }
    }

    pub(crate) fn funct7(self) -> u32
        ensures value { result ≡ reg_funct7 self }
        ensures bound { result < 128 }
    {
        match self {
            RegOp::Sub | RegOp::Sra => 0b0100000,
            _ => 0b0000000,
        }
    }
}

impl ImmOp {
    pub(crate) fn funct3(self) -> u32
        ensures value { result ≡ imm_funct3 self }
        ensures bound { result < 8 }
    {
        match self {
            ImmOp::Addi => 0b000,
            ImmOp::Slli => 0b001,
            ImmOp::Slti => 0b010,
            ImmOp::Sltiu => 0b011,
            ImmOp::Xori => 0b100,
            ImmOp::Srli | ImmOp::Srai => 0b101,
            ImmOp::Ori => 0b110,
            ImmOp::Andi => 0b111,
        }
    }

    // Of a shift, the high seven bits of its immediate field.
    pub(crate) fn shift_funct7(self) -> Option<u32>
        ensures value { result ≡ shift_funct7 self }
        ensures bound { IfSome result (λ funct7. funct7 < 128) }
    {
        match self {
            ImmOp::Slli | ImmOp::Srli => Some(0b0000000),
            ImmOp::Srai => Some(0b0100000),
            _ => None,
        }
    }

    // Bits 31 to 20 of the word.
    pub(crate) fn operand_field(self, imm: i32) -> u32
        ensures value { result ≡ operand_field (shift_funct7 self) imm }
        ensures bound { result < 2 ^ 12 }
    {
        match self.shift_funct7() {
            Some(funct7) => (funct7 << 5) + imm_bits(imm, 4, 0),
            None => imm_bits(imm, 11, 0),
        }
    }

    fn is_operand(self, imm: i32) -> bool
        ensures { IsTrue result ↔ IsOperand (shift_funct7 self) imm }
    {
        match self.shift_funct7() {
            Some(_) => 0 <= imm && imm <= 31,
            None => is_short_imm(imm),
        }
    }
}

impl LoadOp {
    pub(crate) fn funct3(self) -> u32
        ensures value { result ≡ load_funct3 self }
        ensures bound { result < 8 }
    {
        match self {
            LoadOp::Lb => 0b000,
            LoadOp::Lh => 0b001,
            LoadOp::Lw => 0b010,
            LoadOp::Lbu => 0b100,
            LoadOp::Lhu => 0b101,
        }
    }
}

impl StoreOp {
    pub(crate) fn funct3(self) -> u32
        ensures value { result ≡ store_funct3 self }
        ensures bound { result < 8 }
    {
        match self {
            StoreOp::Sb => 0b000,
            StoreOp::Sh => 0b001,
            StoreOp::Sw => 0b010,
        }
    }
}

impl BranchOp {
    pub(crate) fn funct3(self) -> u32
        ensures value { result ≡ branch_funct3 self }
        ensures bound { result < 8 }
    {
        match self {
            BranchOp::Beq => 0b000,
            BranchOp::Bne => 0b001,
            BranchOp::Blt => 0b100,
            BranchOp::Bge => 0b101,
            BranchOp::Bltu => 0b110,
            BranchOp::Bgeu => 0b111,
        }
    }
}

fn is_short_imm(imm: i32) -> bool
    ensures { IsTrue result ↔ IsShortImm imm }
{
    -2048 <= imm && imm <= 2047
}

fn is_branch_offset(offset: i32) -> bool
    ensures { IsTrue result ↔ IsBranchOffset offset }
{
    -4096 <= offset && offset <= 4094 && offset.unsigned_abs() % 2 == 0
}

fn is_jump_offset(offset: i32) -> bool
    ensures { IsTrue result ↔ IsJumpOffset offset }
{
    -1048576 <= offset && offset <= 1048574 && offset.unsigned_abs() % 2 == 0
}

/// Whether the instruction has a word: registers are below 32, and immediates in the ranges of their formats.
///
/// Immediates of loads, stores, `jalr` and operations lie from -2048 to 2047, shift amounts from 0 to 31, branch
/// offsets are even from -4096 to 4094, offsets of `jal` even from -1048576 to 1048574, and the fields of `lui` and
/// `auipc` lie from 0 to 1048575.
pub fn fits(instr: Instr) -> bool
    ensures { IsTrue result ↔ Fits instr }
{
    match instr {
        Instr::Reg { rd, rs1, rs2, .. } => rd < 32 && rs1 < 32 && rs2 < 32,
        Instr::Imm { op, rd, rs1, imm } => rd < 32 && rs1 < 32 && op.is_operand(imm),
        Instr::Load { rd, rs1, imm, .. } => rd < 32 && rs1 < 32 && is_short_imm(imm),
        Instr::Store { rs1, rs2, imm, .. } => rs1 < 32 && rs2 < 32 && is_short_imm(imm),
        Instr::Branch {
            rs1,
            rs2,
            offset,
            ..
        } => { rs1 < 32 && rs2 < 32 && is_branch_offset(offset) }
        Instr::Lui { rd, imm } => rd < 32 && imm < 1 << 20,
        Instr::Auipc { rd, imm } => rd < 32 && imm < 1 << 20,
        Instr::Jal { rd, offset } => rd < 32 && is_jump_offset(offset),
        Instr::Jalr { rd, rs1, imm } => rd < 32 && rs1 < 32 && is_short_imm(imm),
        Instr::Fence | Instr::Ecall | Instr::Ebreak => true,
    }
}

/// The word of an instruction that fits.
pub fn encode(instr: Instr) -> u32
    requires { Fits instr }
    ensures { result ≡ word_of instr }
{
    match instr {
        Instr::Reg { op, rd, rs1, rs2 } => r_word(REG, rd, op.funct3(), rs1, rs2, op.funct7()),
        Instr::Imm { op, rd, rs1, imm } => {
            i_word(IMM, rd, op.funct3(), rs1, op.operand_field(imm))
        }
        Instr::Load { op, rd, rs1, imm } => {
            i_word(LOAD, rd, op.funct3(), rs1, imm_bits(imm, 11, 0))
        }
        Instr::Store { op, rs1, rs2, imm } => s_word(STORE, op.funct3(), rs1, rs2, imm),
        Instr::Branch {
            op,
            rs1,
            rs2,
            offset,
        } => b_word(BRANCH, op.funct3(), rs1, rs2, offset),
        Instr::Lui { rd, imm } => u_word(LUI, rd, imm),
        Instr::Auipc { rd, imm } => u_word(AUIPC, rd, imm),
        Instr::Jal { rd, offset } => j_word(JAL, rd, offset),
        Instr::Jalr { rd, rs1, imm } => i_word(JALR, rd, 0b000, rs1, imm_bits(imm, 11, 0)),
        Instr::Fence => FENCE_WORD,
        Instr::Ecall => ECALL_WORD,
        Instr::Ebreak => EBREAK_WORD,
    }
}

/// A law of the tables, with nothing to run: two instructions that fit and have one word are one instruction.
pub fn words_are_distinct()
    ensures { WordsAreDistinct }
{}
