use super::check_image;
use crate::{AsmFault, assemble};
use std::process::Abort;

// The program has no fault, and the words of its text are of these lines.
fn check_line_numbers(rt: &impl Abort, alloc: std::alloc::Global, program: &[u8], lines: &[u32]) {
    match assemble(alloc, program) {
        Ok(image) => assert!(rt; image.lines.as_slice() == lines),
        Err(_) => panic!(rt; "no image"),
    }
}

#[test]
fn a_line_has_labels_and_one_statement(rt: HostRuntime) {
    let program = b"a: b : nop # one\r\n\n .data // two\nt:.word a,t\n.text\nc:\tla a0 , t\n j a";
    check_image(
        &rt,
        assemble(rt.alloc(), program),
        &[0x00000013, 0x00010537, 0x00050513, 0xff5ff06f],
        &[0, 0x00010000],
    );
    check_line_numbers(&rt, rt.alloc(), program, &[1, 6, 6, 7]);
}

// The program of docs/formats-assembly.md; words by hand from the manual's formats.
const DOCUMENTED: &[u8] = b"start:  li t0, 0x12345678   # two words: lui and addi
loop:   addi t0, t0, -1
        bnez t0, loop
        la a0, table        // always two words
        lw a1, 4(a0)
        ret
        .data
table:  .word 1, table+4
        .byte 7
";

#[test]
fn the_documents_program_has_its_image(rt: HostRuntime) {
    let text = [
        0x123452b7, 0x67828293, 0xfff28293, 0xfe029ee3, 0x00010537, 0x00050513, 0x00452583,
        0x00008067,
    ];
    check_image(
        &rt,
        assemble(rt.alloc(), DOCUMENTED),
        &text,
        &[1, 0x00010004, 7],
    );
    check_line_numbers(&rt, rt.alloc(), DOCUMENTED, &[1, 1, 2, 3, 4, 4, 5, 6]);
}
