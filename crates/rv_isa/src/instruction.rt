//! The instructions of RV32I, and which of them have a word.

/// An operation on two registers ("Integer Register-Register Operations").
#[derive(Clone, Copy, Debug, PartialEq, Eq)]
pub enum RegOp {
    Add,
    Sub,
    Sll,
    Slt,
    Sltu,
    Xor,
    Srl,
    Sra,
    Or,
    And,
}

/// An operation on a register and an immediate ("Integer Register-Immediate Instructions").
#[derive(Clone, Copy, Debug, PartialEq, Eq)]
pub enum ImmOp {
    Addi,
    Slti,
    Sltiu,
    Xori,
    Ori,
    Andi,
    Slli,
    Srli,
    Srai,
}

/// The width of a load, and how the loaded bytes are extended ("Load and Store Instructions").
#[derive(Clone, Copy, Debug, PartialEq, Eq)]
pub enum LoadOp {
    Lb,
    Lh,
    Lw,
    Lbu,
    Lhu,
}

/// The width of a store ("Load and Store Instructions").
#[derive(Clone, Copy, Debug, PartialEq, Eq)]
pub enum StoreOp {
    Sb,
    Sh,
    Sw,
}

/// The comparison of a branch ("Conditional Branches").
#[derive(Clone, Copy, Debug, PartialEq, Eq)]
pub enum BranchOp {
    Beq,
    Bne,
    Blt,
    Bge,
    Bltu,
    Bgeu,
}

/// An instruction. Registers are numbered from 0 to 31, and offsets are in bytes from the instruction's address.
#[derive(Clone, Copy, Debug, PartialEq, Eq)]
pub enum Instr {
    Reg {
        op: RegOp,
        rd: u8,
        rs1: u8,
        rs2: u8,
    },
    /// `imm` is the shift amount at a shift.
    Imm {
        op: ImmOp,
        rd: u8,
        rs1: u8,
        imm: i32,
    },
    Load {
        op: LoadOp,
        rd: u8,
        rs1: u8,
        imm: i32,
    },
    /// Stores `rs2` at `rs1 + imm`.
    Store {
        op: StoreOp,
        rs1: u8,
        rs2: u8,
        imm: i32,
    },
    Branch {
        op: BranchOp,
        rs1: u8,
        rs2: u8,
        offset: i32,
    },
    /// `imm` is the field of 20 bits, which becomes bits 31 to 12 of `rd`.
    Lui {
        rd: u8,
        imm: u32,
    },
    /// `imm` is the field of 20 bits, whose value times 4096 is added to the address.
    Auipc {
        rd: u8,
        imm: u32,
    },
    Jal {
        rd: u8,
        offset: i32,
    },
    Jalr {
        rd: u8,
        rs1: u8,
        imm: i32,
    },
    /// The `fence` of all reads and writes, input and output, on both sides.
    Fence,
    Ecall,
    Ebreak,
}
