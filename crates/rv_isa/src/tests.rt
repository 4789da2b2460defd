//! Worked examples, and a walk over all opcodes and functions.
ghost use Rattle.std.specs.Prelude.{◌≡◌, ◌<◌, slice_index};

use crate::{
    Access, BranchOp, ImmOp, Instr, IsaState, LoadOp, RegOp, StoreOp, decode, encode, fits,
    request, step,
};
use std::process::Abort;

fn reg(op: RegOp, rd: u8, rs1: u8, rs2: u8) -> Instr {
    Instr::Reg { op, rd, rs1, rs2 }
}

fn imm(op: ImmOp, rd: u8, rs1: u8, imm: i32) -> Instr {
    Instr::Imm { op, rd, rs1, imm }
}

fn load(op: LoadOp, rd: u8, rs1: u8, imm: i32) -> Instr {
    Instr::Load { op, rd, rs1, imm }
}

fn store(op: StoreOp, rs2: u8, rs1: u8, imm: i32) -> Instr {
    Instr::Store { op, rs1, rs2, imm }
}

fn branch(op: BranchOp, rs1: u8, rs2: u8, offset: i32) -> Instr {
    Instr::Branch {
        op,
        rs1,
        rs2,
        offset,
    }
}

fn lui(rd: u8, imm: u32) -> Instr {
    Instr::Lui { rd, imm }
}

fn auipc(rd: u8, imm: u32) -> Instr {
    Instr::Auipc { rd, imm }
}

fn jal(rd: u8, offset: i32) -> Instr {
    Instr::Jal { rd, offset }
}

fn jalr(rd: u8, rs1: u8, imm: i32) -> Instr {
    Instr::Jalr { rd, rs1, imm }
}

// The state before each row: pc 100, x1 with all bits set, x2 with the lowest.
fn before() -> IsaState
    ensures { slice_index result.x 0 ≡ 0 }
{
    let mut x = [0u32; 32];
    x[1] = 0xffffffff;
    x[2] = 1;
    IsaState { pc: 100, x }
}

// The pc after an instruction, and what a register holds then.
fn after(rt: &impl Abort, instr: Instr, loaded: u32, register: u8) -> (u32, u32) {
    assert!(rt; fits(instr) && register < 32);
    let state = step(&before(), instr, loaded);
    (state.pc, state.x[usize::from(register)])
}

fn access(rt: &impl Abort, instr: Instr) -> Access {
    assert!(rt; fits(instr));
    request(&before(), instr)
}

#[test]
fn gives_the_values_of_operations(rt: HostRuntime) {
    let rows = [
        (reg(RegOp::Add, 3, 1, 2), 0),
        (reg(RegOp::Sltu, 3, 2, 1), 1),
        (reg(RegOp::Slt, 3, 2, 1), 0),
        (reg(RegOp::Sub, 3, 0, 2), 0xffffffff),
        (reg(RegOp::Sll, 3, 1, 1), 0x80000000),
        (reg(RegOp::Srl, 3, 1, 2), 0x7fffffff),
        (reg(RegOp::Sra, 3, 1, 1), 0xffffffff),
        (reg(RegOp::Xor, 3, 1, 2), 0xfffffffe),
        (imm(ImmOp::Srai, 3, 1, 4), 0xffffffff),
        (imm(ImmOp::Srli, 3, 1, 4), 0x0fffffff),
        (imm(ImmOp::Slti, 3, 2, -1), 0),
        (imm(ImmOp::Sltiu, 3, 2, -1), 1),
        (imm(ImmOp::Andi, 3, 1, -16), 0xfffffff0),
        (lui(3, 0xfffff), 0xfffff000),
        (auipc(3, 0xfffff), 0xfffff064),
    ];
    for (instr, value) in rows {
        assert_eq!(rt; after(&rt, instr, 0, 3), (104, value), "{instr:?}");
    }
    let to_zero = imm(ImmOp::Addi, 0, 2, 1);
    assert_eq!(rt; after(&rt, to_zero, 0, 0), (104, 0));
}

#[test]
fn goes_where_jumps_and_branches_say(rt: HostRuntime) {
    let rows = [
        (jalr(1, 2, 2), (2, 104)),
        (jal(1, -104), (0xfffffffc, 104)),
        (branch(BranchOp::Blt, 1, 2, -100), (0, 0xffffffff)),
        (branch(BranchOp::Bge, 1, 2, -100), (104, 0xffffffff)),
        (branch(BranchOp::Bltu, 1, 2, -100), (104, 0xffffffff)),
        (branch(BranchOp::Bgeu, 1, 2, -100), (0, 0xffffffff)),
        (branch(BranchOp::Beq, 1, 2, 8), (104, 0xffffffff)),
        (branch(BranchOp::Bne, 1, 2, 8), (108, 0xffffffff)),
        (Instr::Fence, (104, 0xffffffff)),
        (Instr::Ecall, (104, 0xffffffff)),
        (Instr::Ebreak, (104, 0xffffffff)),
    ];
    for (instr, want) in rows {
        assert_eq!(rt; after(&rt, instr, 0, 1), want, "{instr:?}");
    }
}

#[test]
fn loads_the_addressed_bytes(rt: HostRuntime) {
    let rows = [
        (load(LoadOp::Lb, 3, 2, 0), 0x80, 1, 0xffffff80),
        (load(LoadOp::Lbu, 3, 2, 0), 0x12348080, 1, 0x80),
        (load(LoadOp::Lh, 3, 1, 1), 0x12348765, 0, 0xffff8765),
        (load(LoadOp::Lhu, 3, 0, -4), 0x12348765, 0xfffffffc, 0x8765),
        (load(LoadOp::Lw, 3, 0, 2047), 0x12348765, 2047, 0x12348765),
    ];
    for (instr, loaded, address, value) in rows {
        assert_eq!(rt; access(&rt, instr), Access::Load { address }, "{instr:?}");
        assert_eq!(rt; after(&rt, instr, loaded, 3), (104, value), "{instr:?}");
    }
}

#[test]
fn stores_the_low_bytes(rt: HostRuntime) {
    let rows = [
        (store(StoreOp::Sb, 1, 2, 3), 4, 1, 0xff),
        (store(StoreOp::Sh, 1, 2, 3), 4, 2, 0xffff),
        (store(StoreOp::Sw, 1, 1, -1), 0xfffffffe, 4, 0xffffffff),
    ];
    for (instr, address, bytes, value) in rows {
        let want = Access::Store {
            address,
            bytes,
            value,
        };
        assert_eq!(rt; access(&rt, instr), want, "{instr:?}");
        assert_eq!(rt; after(&rt, instr, 0, 1), (104, 0xffffffff), "{instr:?}");
    }
    assert_eq!(rt; access(&rt, reg(RegOp::Add, 3, 1, 2)), Access::Nothing);
}

#[test]
fn has_the_known_words(rt: HostRuntime) {
    let rows = [
        (0x00500093, imm(ImmOp::Addi, 1, 0, 5)),
        (0x00812503, load(LoadOp::Lw, 10, 2, 8)),
        (0x00a12623, store(StoreOp::Sw, 10, 2, 12)),
        (0x00c5c533, reg(RegOp::Xor, 10, 11, 12)),
        (0xfe000ee3, branch(BranchOp::Beq, 0, 0, -4)),
        (0x000000e3, branch(BranchOp::Beq, 0, 0, 2048)),
        (0x00008067, jalr(0, 1, 0)),
        (0x123452b7, lui(5, 0x12345)),
        (0x67828293, imm(ImmOp::Addi, 5, 5, 0x678)),
        (0x000012b7, lui(5, 1)),
        (0x80028293, imm(ImmOp::Addi, 5, 5, -2048)),
        (0x0ff0000f, Instr::Fence),
        (0x00000073, Instr::Ecall),
        (0x00100073, Instr::Ebreak),
    ];
    for (word, instr) in rows {
        assert!(rt; fits(instr), "{instr:?}");
        assert_eq!(rt; encode(instr), word, "{instr:?}");
        assert_eq!(rt; decode(word), Some(instr), "{word:#x}");
    }
}

#[test]
fn knows_no_other_words(rt: HostRuntime) {
    // No instruction; fences of other accesses, a fence with rd and `fence.i`; shifts by 32, of left shifts the two
    // with the funct7 of `sub`; `mul`, `wfi` and `csrrw`.
    let words = [
        0x00000000, 0xffffffff, 0x0000000f, 0x0330000f, 0x0ff0008f, 0x0000100f, 0x02009093,
        0x40009093, 0x400091b3, 0x022081b3, 0x10500073, 0x34011173,
    ];
    for word in words {
        assert_eq!(rt; decode(word), None, "{word:#x}");
    }
}

#[test]
fn refuses_what_has_no_word(rt: HostRuntime) {
    let unfit = [
        reg(RegOp::Add, 32, 0, 0),
        imm(ImmOp::Addi, 1, 0, 2048),
        imm(ImmOp::Slli, 1, 0, 32),
        store(StoreOp::Sb, 0, 0, -2049),
        branch(BranchOp::Bne, 0, 0, 3),
        branch(BranchOp::Bne, 0, 0, 4096),
        jal(0, 1048576),
        auipc(0, 1 << 20),
    ];
    for instr in unfit {
        assert!(rt; !fits(instr), "{instr:?}");
    }
}

// Of the words with these registers, one for each opcode, funct3 and funct7, how many have an instruction. Each of
// those instructions has the word that it came from.
fn count_decoded(rt: &impl Abort, rd: u32, rs1: u32, rs2: u32) -> u32
    requires rd { rd < 32 }
    requires rs1 { rs1 < 32 }
    requires rs2 { rs2 < 32 }
{
    let mut count: u32 = 0;
    for functions in 0..1u32 << 17 {
        let opcode = functions % 128;
        let funct3 = functions / 128 % 8;
        let funct7 = functions / 1024 % 128;
        let upper = (funct7 << 25) + (rs2 << 20) + (rs1 << 15);
        let word = upper + (funct3 << 12) + (rd << 7) + opcode;
        if let Some(instr) = decode(word) {
            assert_eq!(rt; encode(instr), word);
            count = count.wrapping_add(1);
        }
    }
    count
}

#[test]
fn encodes_what_it_decodes(rt: HostRuntime) {
    let registers = [
        (0, 0, 0),
        (0, 0, 1),
        (0, 0, 31),
        (31, 31, 31),
        (1, 2, 4),
        (8, 16, 30),
        (10, 21, 5),
        (21, 10, 17),
    ];
    let mut count: u32 = 0;
    for (rd, rs1, rs2) in registers {
        if rd < 32 && rs1 < 32 && rs2 < 32 {
            count = count.wrapping_add(count_decoded(&rt, rd, rs1, rs2));
        }
    }
    // Ten operations on registers and three shifts; at each funct7 six operations with an immediate, five loads, three
    // stores, six branches and `jalr`, and at each funct3 too `lui`, `auipc` and `jal`. The first three triples have
    // `ecall`, `ebreak` and `fence` besides.
    let of_each_triple = 10 + 3 + (6 + 5 + 3 + 6 + 1 + 3 * 8) * 128;
    assert_eq!(rt; count, 8 * of_each_triple + 3);
}
