use super::{check_data, check_faults, check_text};
use crate::AsmFault;

#[test]
fn values_are_stored_with_the_lowest_byte_first(rt: HostRuntime) {
    let alloc = rt.alloc();
    check_data(&rt, alloc, b".data\n.word 1,-1", &[1, 0xffffffff]);
    check_data(
        &rt,
        alloc,
        b".data\n.half 1,0xffff\n.byte 2,-1,3",
        &[0xffff0001, 0x0003ff02],
    );
}

#[test]
fn the_data_is_aligned_by_directives_alone(rt: HostRuntime) {
    let alloc = rt.alloc();
    check_data(
        &rt,
        alloc,
        b".data\n.byte 1\n.space 1\n.skip 1\n.align 2\n.word .",
        &[1, 0x00010004],
    );
    check_data(
        &rt,
        alloc,
        b".data\n.byte 1\n.balign 8\n.byte 2",
        &[1, 0, 2],
    );
}

#[test]
fn the_text_is_aligned_with_nop_and_filled_with_zeros(rt: HostRuntime) {
    check_text(
        &rt,
        rt.alloc(),
        b"ret\n.p2align 3\nret\n.zero 4",
        &[0x00008067, 0x00000013, 0x00008067, 0],
    );
}

#[test]
fn ignored_directives_make_nothing(rt: HostRuntime) {
    let program = b".file \"a.s\"\n.option norvc\n.attribute arch,\"rv32i\"\n.globl a\n.global b\n\
        .weak c\n.local d\n.type a,@function\na: nop\n.size a,.-a\n.ident \"none\"";
    check_text(&rt, rt.alloc(), program, &[0x00000013]);
}

#[test]
fn a_section_chooses_the_part_that_its_name_begins_with(rt: HostRuntime) {
    let alloc = rt.alloc();
    let text = b".section .text.start,\"ax\"\nnop";
    check_text(&rt, alloc, text, &[0x00000013]);
    let sections = b".section .data.x\n.byte 1\n.section .sdata\n.byte 2\n\
        .section .bss,\"aw\"\n.byte 3\n.section .sbss.y\n.byte 4";
    check_data(&rt, alloc, sections, &[0x04030201]);
    let constants = b".section .rodata.x,\"a\"\n.byte 1\n.zero 2\n.byte 2";
    check_data(&rt, alloc, constants, &[0x02000001]);
}

#[test]
fn another_section_is_outside_the_language(rt: HostRuntime) {
    let rows = [
        (".section .other", AsmFault::BadLine { line: 1 }),
        (".section \".text\"", AsmFault::BadLine { line: 1 }),
    ];
    check_faults(&rt, rt.alloc(), &rows);
}

#[test]
fn a_count_is_a_number_and_no_name(rt: HostRuntime) {
    let rows = [
        (".equ n,8\n.data\n.zero n", AsmFault::BadLine { line: 3 }),
        (".equ n,2\n.align n", AsmFault::BadLine { line: 2 }),
        (".zero 4,0", AsmFault::BadLine { line: 1 }),
    ];
    check_faults(&rt, rt.alloc(), &rows);
}

#[test]
fn a_count_or_an_alignment_has_a_range(rt: HostRuntime) {
    let rows = [
        (".align 13", AsmFault::Range { line: 1 }),
        (".balign 3", AsmFault::Range { line: 1 }),
        (".zero 2", AsmFault::Range { line: 1 }),
        (".zero -4", AsmFault::Range { line: 1 }),
    ];
    check_faults(&rt, rt.alloc(), &rows);
}
