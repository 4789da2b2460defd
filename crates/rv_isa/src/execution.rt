//! What one instruction does.
ghost use Rattle.std.specs.Prelude.{◌≡◌, ◌+◌, ◌*◌, ◌%◌, ◌<◌, ◌≤◌, ◌^◌, slice_index};
ghost use Rattle.rv_isa.specs.Steps.{imm_value, is_taken, jalr_target, load_value, next_pc, next_state, on_registers, plus_imm, reg_value, register, registers_with, request_of, state_after_jump, state_at, state_with_value, store_bytes, store_value};
ghost use Rattle.rv_isa.specs.Words.{Fits};

use crate::fields::sign_extension;
use crate::instruction::{BranchOp, ImmOp, Instr, LoadOp, RegOp, StoreOp};

/// What a program can see of the machine: the program counter and the registers x0 to x31.
#[derive(Clone, Copy, Debug, PartialEq, Eq)]
pub struct IsaState {
    pub pc: u32,
    pub x: [u32; 32],
}

/// The access to memory that an instruction makes. `bytes` is 1, 2 or 4, and `value` has the stored bytes in its low
/// bits and zeros above.
#[derive(Clone, Copy, Debug, PartialEq, Eq)]
pub enum Access {
    Nothing,
    Load { address: u32 },
    Store { address: u32, bytes: u8, value: u32 },
}

impl RegOp {
    fn apply(self, a: u32, b: u32) -> u32
        ensures { result ≡ reg_value self a b }
    {
        match self {
            RegOp::Add => a.wrapping_add(b),
            RegOp::Sub => a.wrapping_sub(b),
            RegOp::Sll => a << (b % 32),
            RegOp::Slt => u32::from(a.cast_signed() < b.cast_signed()),
            RegOp::Sltu => u32::from(a < b),
            RegOp::Xor => a ^ b,
            RegOp::Srl => a >> (b % 32),
            RegOp::Sra => (a.cast_signed() >> (b % 32)).cast_unsigned(),
            RegOp::Or => a | b,
            RegOp::And => a & b,
        }
    }
}

impl ImmOp {
    fn on_registers(self) -> RegOp
        ensures { result ≡ on_registers self }
    {
        match self {
            ImmOp::Addi => RegOp::Add,
            ImmOp::Slti => RegOp::Slt,
            ImmOp::Sltiu => RegOp::Sltu,
            ImmOp::Xori => RegOp::Xor,
            ImmOp::Ori => RegOp::Or,
            ImmOp::Andi => RegOp::And,
            ImmOp::Slli => RegOp::Sll,
            ImmOp::Srli => RegOp::Srl,
            ImmOp::Srai => RegOp::Sra,
        }
    }

    fn apply(self, a: u32, imm: i32) -> u32
        ensures { result ≡ imm_value self a imm }
    {
        self.on_registers().apply(a, imm.cast_unsigned())
    }
}

impl LoadOp {
    fn extended(self, loaded: u32) -> u32
        ensures { result ≡ load_value self loaded }
    {
        match self {
            LoadOp::Lb => sign_extension(loaded % (1 << 8), 1 << 7).cast_unsigned(),
            LoadOp::Lh => sign_extension(loaded % (1 << 16), 1 << 15).cast_unsigned(),
            LoadOp::Lw => loaded,
            LoadOp::Lbu => loaded % (1 << 8),
            LoadOp::Lhu => loaded % (1 << 16),
        }
    }
}

impl StoreOp {
    fn bytes(self) -> u8
        ensures { result ≡ store_bytes self }
    {
        match self {
            StoreOp::Sb => 1,
            StoreOp::Sh => 2,
            StoreOp::Sw => 4,
        }
    }

    fn stored(self, value: u32) -> u32
        ensures { result ≡ store_value self value }
    {
        match self {
            StoreOp::Sb => value % (1 << 8),
            StoreOp::Sh => value % (1 << 16),
            StoreOp::Sw => value,
        }
    }
}

impl BranchOp {
    fn is_taken(self, a: u32, b: u32) -> bool
        ensures { result ≡ is_taken self a b }
    {
        match self {
            BranchOp::Beq => a == b,
            BranchOp::Bne => a != b,
            BranchOp::Blt => a.cast_signed() < b.cast_signed(),
            BranchOp::Bge => a.cast_signed() >= b.cast_signed(),
            BranchOp::Bltu => a < b,
            BranchOp::Bgeu => a >= b,
        }
    }
}

fn plus_imm(from: u32, imm: i32) -> u32
    ensures { result ≡ plus_imm from imm }
{
    from.wrapping_add(imm.cast_unsigned())
}

// The target of `jalr`, with the lowest bit cleared.
fn jalr_target(from: u32, imm: i32) -> u32
    ensures { result ≡ jalr_target from imm }
{
    plus_imm(from, imm) / 2 * 2
}

impl IsaState {
    fn register(&self, r: u8) -> u32
        requires r { r < 32 }
        requires zero { slice_index self.now.x 0 ≡ 0 }
        ensures { result ≡ register self.now r }
    {
        self.x[usize::from(r)]
    }

    fn next_pc(&self) -> u32
        ensures { result ≡ next_pc self.now.pc }
    {
        self.pc.wrapping_add(4)
    }

    fn at_pc(&self, pc: u32) -> IsaState
        ensures { result ≡ state_at self.now pc }
    {
        IsaState { pc, x: self.x }
    }

    fn with_register(&self, pc: u32, rd: u8, value: u32) -> IsaState
        requires { rd < 32 }
        ensures pc { result.pc ≡ pc }
        ensures x { result.x ≡ registers_with self.now.x rd value }
    {
        let mut x = self.x;
        if rd != 0 {
            x[usize::from(rd)] = value;
        }
        IsaState { pc, x }
    }

    fn with_value(&self, rd: u8, value: u32) -> IsaState
        requires { rd < 32 }
        ensures { result ≡ state_with_value self.now rd value }
    {
        self.with_register(self.next_pc(), rd, value)
    }

    fn after_jump(&self, rd: u8, target: u32) -> IsaState
        requires { rd < 32 }
        ensures { result ≡ state_after_jump self.now rd target }
    {
        self.with_register(target, rd, self.next_pc())
    }
}

/// The access to memory that the instruction makes in this state.
pub fn request(state: &IsaState, instr: Instr) -> Access
    requires fits { Fits instr }
    requires zero { slice_index state.now.x 0 ≡ 0 }
    ensures { result ≡ request_of state.now instr }
{
    match instr {
        Instr::Load { rs1, imm, .. } => {
            Access::Load {
                address: plus_imm(state.register(rs1), imm),
            }
        }
        Instr::Store { op, rs1, rs2, imm } => Access::Store {
            address: plus_imm(state.register(rs1), imm),
            bytes: op.bytes(),
            value: op.stored(state.register(rs2)),
        },
        _ => Access::Nothing,
    }
}

/// The state after the instruction. Of a load, `loaded` holds the addressed bytes in its low bits.
pub fn step(state: &IsaState, instr: Instr, loaded: u32) -> IsaState
    requires fits { Fits instr }
    requires zero { slice_index state.now.x 0 ≡ 0 }
    ensures next { result ≡ next_state state.now instr loaded }
    ensures zero { slice_index result.x 0 ≡ 0 }
{
    match instr {
        Instr::Reg { op, rd, rs1, rs2 } => {
            state.with_value(rd, op.apply(state.register(rs1), state.register(rs2)))
        }
        Instr::Imm { op, rd, rs1, imm } => {
            state.with_value(rd, op.apply(state.register(rs1), imm))
        }
        Instr::Load { op, rd, .. } => state.with_value(rd, op.extended(loaded)),
        Instr::Branch {
            op,
            rs1,
            rs2,
            offset,
        } => {
            let is_taken = op.is_taken(state.register(rs1), state.register(rs2));
            state.at_pc(if is_taken {
                plus_imm(state.pc, offset)
            } else {
                state.next_pc()
            })
        }
        Instr::Lui { rd, imm } => state.with_value(rd, imm << 12),
        Instr::Auipc { rd, imm } => state.with_value(rd, state.pc.wrapping_add(imm << 12)),
        Instr::Jal { rd, offset } => state.after_jump(rd, plus_imm(state.pc, offset)),
        Instr::Jalr { rd, rs1, imm } => state.after_jump(rd, jalr_target(state.register(rs1), imm)),
        Instr::Store { .. } | Instr::Fence | Instr::Ecall | Instr::Ebreak => {
            state.at_pc(state.next_pc())
        }
    }
}
