use super::{check_fault, check_faults};
use crate::{AsmFault, assemble};

#[test]
fn a_value_outside_its_field_is_a_range(rt: HostRuntime) {
    let rows = [
        ("addi x1,x0,2048", AsmFault::Range { line: 1 }),
        ("lui a0,-1", AsmFault::Range { line: 1 }),
        ("beq x0,x0,.+4096", AsmFault::Range { line: 1 }),
        ("j .+1", AsmFault::Range { line: 1 }),
        ("j 0xffffffff", AsmFault::Range { line: 1 }),
        (".data\n.byte 256", AsmFault::Range { line: 2 }),
    ];
    check_faults(&rt, rt.alloc(), &rows);
}

#[test]
fn a_name_that_nothing_defines_is_unknown(rt: HostRuntime) {
    let rows = [("j nowhere", AsmFault::UnknownName { line: 1 })];
    check_faults(&rt, rt.alloc(), &rows);
}

#[test]
fn a_line_outside_the_language_is_bad(rt: HostRuntime) {
    let alloc = rt.alloc();
    let rows = [
        ("frob x1", AsmFault::BadLine { line: 1 }),
        ("jalr a0,(a1)", AsmFault::BadLine { line: 1 }),
        (".word", AsmFault::BadLine { line: 1 }),
        ("nop\r", AsmFault::BadLine { line: 1 }),
    ];
    check_faults(&rt, alloc, &rows);
    check_fault(&rt, alloc, b"nop # \xff", AsmFault::BadLine { line: 1 });
}

#[test]
fn a_statement_in_the_wrong_part_is_bad(rt: HostRuntime) {
    let rows = [
        (".data\nnop", AsmFault::BadLine { line: 2 }),
        (".byte 1", AsmFault::BadLine { line: 1 }),
    ];
    check_faults(&rt, rt.alloc(), &rows);
}

#[test]
fn the_text_takes_4096_words_and_no_more(rt: HostRuntime) -> Result<(), std::test::Fail> {
    let alloc = rt.alloc();
    let mut program = Vec::new(alloc);
    for _ in 0..4096 {
        program.extend_from_slice(b"nop\n")?;
    }
    assert!(rt; assemble(alloc, &program).is_ok());
    program.extend_from_slice(b"nop\n")?;
    check_fault(&rt, alloc, &program, AsmFault::Range { line: 4097 });
    Ok(())
}

#[test]
fn the_data_takes_4096_bytes_and_no_more(rt: HostRuntime) {
    let rows = [
        (".data\n.zero 4096\n.byte 0", AsmFault::Range { line: 3 }),
        (".data\n.zero 4000000000", AsmFault::Range { line: 2 }),
    ];
    check_faults(&rt, rt.alloc(), &rows);
}
