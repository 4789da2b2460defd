use super::{check_lines, check_text};

// Words by hand from the formats and tables of opcodes of the RISC-V Instruction Set Manual, Volume I.
#[test]
fn an_instruction_has_the_word_of_its_format(rt: HostRuntime) {
    let rows = [
        ("addi x1,x0,5", 0x00500093),
        ("lw a0,8(sp)", 0x00812503),
        ("sw a0,12(sp)", 0x00a12623),
        ("xor a0,a1,a2", 0x00c5c533),
        ("lui a0,0xfffff", 0xfffff537),
        ("auipc a0,1", 0x00001517),
        ("srai a0,a0,31", 0x41f55513),
        ("fence", 0x0ff0000f),
        ("ecall", 0x00000073),
        ("ebreak", 0x00100073),
    ];
    check_lines(&rt, rt.alloc(), &rows);
}

#[test]
fn a_target_is_an_address_and_its_offset_goes_from_the_instruction(rt: HostRuntime) {
    let rows = [
        ("beq x0,x0,.-4", 0xfe000ee3),
        ("beq x0,x0,.+2048", 0x000000e3),
        ("jal x0,.", 0x0000006f),
    ];
    check_lines(&rt, rt.alloc(), &rows);
}

#[test]
fn jal_alone_keeps_its_return_address_in_ra(rt: HostRuntime) {
    check_text(&rt, rt.alloc(), b"jal .", &[0x000000ef]);
}

#[test]
fn jalr_has_three_forms(rt: HostRuntime) {
    let rows = [
        ("jalr a0", 0x000500e7),
        ("jalr x0,4(a0)", 0x00450067),
        ("jalr x0,a0,4", 0x00450067),
    ];
    check_lines(&rt, rt.alloc(), &rows);
}

#[test]
fn an_absent_offset_of_a_load_is_0(rt: HostRuntime) {
    check_text(&rt, rt.alloc(), b"lw a0,(sp)", &[0x00012503]);
}

// The words are those of GNU as 2.40.
#[test]
fn a_low_half_is_the_offset_of_a_load_or_store(rt: HostRuntime) {
    let rows = [
        ("lw a0,%lo(0x12345678)(a1)", 0x6785a503),
        ("sw a0,%lo(0x12345678)(a1)", 0x66a5ac23),
        ("mv fp,sp", 0x00010413),
    ];
    check_lines(&rt, rt.alloc(), &rows);
}

#[test]
fn a_high_and_a_low_half_make_the_value(rt: HostRuntime) {
    check_text(
        &rt,
        rt.alloc(),
        b"lui a0,%hi(0x800)\naddi a0,a0,%lo(0x800)",
        &[0x00001537, 0x80050513],
    );
}

// Each instruction but `fence`, and each pseudo-instruction but `la` and `call`.
const EVERY_INSTRUCTION: &[u8] = b"lui a0,0x12345\n\
    auipc a1,0xfffff\n\
    jal ra,back\n\
    back: jalr s0,-4(t0)\n\
    beq a0,a1,back\n\
    bne a2,a3,back\n\
    blt a4,a5,ahead\n\
    bge a6,a7,ahead\n\
    bltu s2,s3,ahead\n\
    bgeu s4,s5,ahead\n\
    lb t0,-1(sp)\n\
    lh t1,2(sp)\n\
    lw t2,2047(sp)\n\
    lbu t3,-2048(gp)\n\
    lhu t4,6(tp)\n\
    sb t5,7(s6)\n\
    sh t6,-8(s7)\n\
    sw s8,2044(s9)\n\
    addi s10,s11,-2048\n\
    slti a0,a1,2047\n\
    sltiu a0,a1,-1\n\
    xori a0,a1,0x7f\n\
    ori a0,a1,1\n\
    andi a0,a1,-16\n\
    slli a0,a1,31\n\
    srli a0,a1,1\n\
    srai a0,a1,17\n\
    add a0,a1,a2\n\
    sub a0,a1,a2\n\
    sll a0,a1,a2\n\
    slt a0,a1,a2\n\
    sltu a0,a1,a2\n\
    xor a0,a1,a2\n\
    srl a0,a1,a2\n\
    sra a0,a1,a2\n\
    or a0,a1,a2\n\
    and a0,a1,a2\n\
    ecall\n\
    ebreak\n\
    ahead: nop\n\
    mv t0,t1\n\
    not t0,t1\n\
    neg t0,t1\n\
    seqz t0,t1\n\
    snez t0,t1\n\
    sltz t0,t1\n\
    sgtz t0,t1\n\
    beqz t0,ahead\n\
    bnez t0,ahead\n\
    blez t0,ahead\n\
    bgez t0,ahead\n\
    bltz t0,ahead\n\
    bgtz t0,ahead\n\
    bgt t0,t1,ahead\n\
    ble t0,t1,ahead\n\
    bgtu t0,t1,ahead\n\
    bleu t0,t1,ahead\n\
    j back\n\
    jr t0\n\
    ret\n\
    li t0,-2048\n\
    li t0,2048\n\
    li t0,0x12345000\n\
    li t0,0xdeadbeef\n\
    .word 1,-2";

// What GNU as 2.40 makes of them, called with -march=rv32i -mabi=ilp32 -mno-relax, linked at address 0.
const EVERY_WORD: [u32; 68] = [
    0x12345537, 0xfffff597, 0x004000ef, 0xffc28467, 0xfeb50ee3, 0xfed61ce3, 0x08f74263, 0x09185063,
    0x07396e63, 0x075a7c63, 0xfff10283, 0x00211303, 0x7ff12383, 0x8001ce03, 0x00625e83, 0x01eb03a3,
    0xfffb9c23, 0x7f8cae23, 0x800d8d13, 0x7ff5a513, 0xfff5b513, 0x07f5c513, 0x0015e513, 0xff05f513,
    0x01f59513, 0x0015d513, 0x4115d513, 0x00c58533, 0x40c58533, 0x00c59533, 0x00c5a533, 0x00c5b533,
    0x00c5c533, 0x00c5d533, 0x40c5d533, 0x00c5e533, 0x00c5f533, 0x00000073, 0x00100073, 0x00000013,
    0x00030293, 0xfff34293, 0x406002b3, 0x00133293, 0x006032b3, 0x000322b3, 0x006022b3, 0xfe0280e3,
    0xfc029ee3, 0xfc505ce3, 0xfc02dae3, 0xfc02c8e3, 0xfc5046e3, 0xfc5344e3, 0xfc5352e3, 0xfc5360e3,
    0xfa537ee3, 0xf29ff06f, 0x00028067, 0x00008067, 0x80000293, 0x000012b7, 0x80028293, 0x123452b7,
    0xdeadc2b7, 0xeef28293, 0x00000001, 0xfffffffe,
];

#[test]
fn every_instruction_has_the_word_of_gnu_as(rt: HostRuntime) {
    check_text(&rt, rt.alloc(), EVERY_INSTRUCTION, &EVERY_WORD);
}
