//! From the functions of a word to its operation.
ghost use Rattle.std.specs.Prelude.{◌≡◌, IfSome};
ghost use Rattle.rv_isa.specs.Fields.{i_imm};
ghost use Rattle.rv_isa.specs.Words.{branch_funct3, imm_funct3, load_funct3, operand_at, reg_funct3, reg_funct7, shift_funct7, store_funct3};
ghost use Rattle.rv_isa.specs.declared.instruction.RegOp.{RegOp};
ghost use Rattle.rv_isa.specs.declared.instruction.ImmOp.{ImmOp};
ghost use Rattle.rv_isa.specs.declared.instruction.LoadOp.{LoadOp};
ghost use Rattle.rv_isa.specs.declared.instruction.StoreOp.{StoreOp};
ghost use Rattle.rv_isa.specs.declared.instruction.BranchOp.{BranchOp};

use crate::fields::{bits, sign_extension};
use crate::instruction::{BranchOp, ImmOp, LoadOp, RegOp, StoreOp};

impl RegOp {
    pub(crate) fn from_functs(funct3: u32, funct7: u32) -> Option<RegOp>
        ensures found { IfSome result (λ op. (reg_funct3 op ≡ funct3) × (reg_funct7 op ≡ funct7)) }
        ensures every { (op : RegOp) → reg_funct3 op ≡ funct3 → reg_funct7 op ≡ funct7 → result ≡ Some op }
    {
        match (funct7, funct3) {
            (0b0000000, 0b000) => Some(RegOp::Add),
            (0b0000000, 0b001) => Some(RegOp::Sll),
            (0b0000000, 0b010) => Some(RegOp::Slt),
            (0b0000000, 0b011) => Some(RegOp::Sltu),
            (0b0000000, 0b100) => Some(RegOp::Xor),
            (0b0000000, 0b101) => Some(RegOp::Srl),
            (0b0000000, 0b110) => Some(RegOp::Or),
            (0b0000000, 0b111) => Some(RegOp::And),
            (0b0100000, 0b000) => Some(RegOp::Sub),
            (0b0100000, 0b101) => Some(RegOp::Sra),
            _ => None,
        }
    }
}

impl ImmOp {
    // `funct7` counts at a shift alone.
    pub(crate) fn from_functs(funct3: u32, funct7: u32) -> Option<ImmOp>
        ensures found { IfSome result
            (λ op. (imm_funct3 op ≡ funct3) × IfSome (shift_funct7 op) (λ of_shift. of_shift ≡ funct7)) }
        ensures every { (op : ImmOp) → imm_funct3 op ≡ funct3
            → IfSome (shift_funct7 op) (λ of_shift. of_shift ≡ funct7) → result ≡ Some op }
    {
        match (funct3, funct7) {
            (0b000, _) => Some(ImmOp::Addi),
            (0b001, 0b0000000) => Some(ImmOp::Slli),
            (0b010, _) => Some(ImmOp::Slti),
            (0b011, _) => Some(ImmOp::Sltiu),
            (0b100, _) => Some(ImmOp::Xori),
            (0b101, 0b0000000) => Some(ImmOp::Srli),
            (0b101, 0b0100000) => Some(ImmOp::Srai),
            (0b110, _) => Some(ImmOp::Ori),
            (0b111, _) => Some(ImmOp::Andi),
            _ => None,
        }
    }

    pub(crate) fn operand(self, word: u32) -> i32
        ensures { result ≡ operand_at (shift_funct7 self) word }
    {
        match self.shift_funct7() {
            Some(_) => bits(word, 24, 20) as i32,
            None => i_imm(word),
        }
    }
}

impl LoadOp {
    pub(crate) fn from_funct3(funct3: u32) -> Option<LoadOp>
        ensures found { IfSome result (λ op. load_funct3 op ≡ funct3) }
        ensures every { (op : LoadOp) → load_funct3 op ≡ funct3 → result ≡ Some op }
    {
        match funct3 {
            0b000 => Some(LoadOp::Lb),
            0b001 => Some(LoadOp::Lh),
            0b010 => Some(LoadOp::Lw),
            0b100 => Some(LoadOp::Lbu),
            0b101 => Some(LoadOp::Lhu),
            _ => None,
        }
    }
}

impl StoreOp {
    pub(crate) fn from_funct3(funct3: u32) -> Option<StoreOp>
        ensures found { IfSome result (λ op. store_funct3 op ≡ funct3) }
        ensures every { (op : StoreOp) → store_funct3 op ≡ funct3 → result ≡ Some op }
    {
        match funct3 {
            0b000 => Some(StoreOp::Sb),
            0b001 => Some(StoreOp::Sh),
            0b010 => Some(StoreOp::Sw),
            _ => None,
        }
    }
}

impl BranchOp {
    pub(crate) fn from_funct3(funct3: u32) -> Option<BranchOp>
        ensures found { IfSome result (λ op. branch_funct3 op ≡ funct3) }
        ensures every { (op : BranchOp) → branch_funct3 op ≡ funct3 → result ≡ Some op }
    {
        match funct3 {
            0b000 => Some(BranchOp::Beq),
            0b001 => Some(BranchOp::Bne),
            0b100 => Some(BranchOp::Blt),
            0b101 => Some(BranchOp::Bge),
            0b110 => Some(BranchOp::Bltu),
            0b111 => Some(BranchOp::Bgeu),
            _ => None,
        }
    }
}

// The immediate in bits 31 to 20.
pub(crate) fn i_imm(word: u32) -> i32
    ensures { result ≡ i_imm word }
{
    sign_extension(bits(word, 31, 20), 1 << 11)
}
