use super::{check_faults, check_text};
use crate::AsmFault;

#[test]
fn equ_and_set_name_numbers(rt: HostRuntime) {
    check_text(
        &rt,
        rt.alloc(),
        b".equ A,5\n.set B,A+1\nli a0,B\n.word A,B",
        &[0x00600513, 5, 6],
    );
}

#[test]
fn a_label_of_the_same_line_is_defined_before_its_equ(rt: HostRuntime) {
    check_text(
        &rt,
        rt.alloc(),
        b"nop\na: .equ b,a+4\n.word b",
        &[0x00000013, 8],
    );
}

#[test]
fn a_registers_name_may_be_a_label(rt: HostRuntime) {
    check_text(&rt, rt.alloc(), b"x1: jal x1", &[0x000000ef]);
}

#[test]
fn a_name_is_defined_once(rt: HostRuntime) {
    let rows = [
        ("a:\na:", AsmFault::Twice { line: 2 }),
        ("a:a:", AsmFault::Twice { line: 1 }),
        (".set a,1\n.set a,2", AsmFault::Twice { line: 2 }),
    ];
    check_faults(&rt, rt.alloc(), &rows);
}

#[test]
fn equ_and_li_take_names_that_are_defined_before(rt: HostRuntime) {
    let rows = [
        (".equ a,b\n.equ b,1", AsmFault::UnknownName { line: 1 }),
        ("li a0,b\n.equ b,1", AsmFault::UnknownName { line: 1 }),
    ];
    check_faults(&rt, rt.alloc(), &rows);
}

#[test]
fn li_never_takes_a_label(rt: HostRuntime) {
    let rows = [
        ("li a0,b\nb:", AsmFault::UnknownName { line: 1 }),
        ("b: nop\nli a0,b", AsmFault::UnknownName { line: 2 }),
    ];
    check_faults(&rt, rt.alloc(), &rows);
}

#[test]
fn a_point_alone_is_no_name(rt: HostRuntime) {
    let rows = [
        (".:", AsmFault::BadLine { line: 1 }),
        (".equ .,1", AsmFault::BadLine { line: 1 }),
    ];
    check_faults(&rt, rt.alloc(), &rows);
}

#[test]
fn a_directives_name_and_a_colon_are_a_label(rt: HostRuntime) {
    let rows = [(".ident :x", AsmFault::BadLine { line: 1 })];
    check_faults(&rt, rt.alloc(), &rows);
    check_text(&rt, rt.alloc(), b".ident : nop", &[0x00000013]);
}
