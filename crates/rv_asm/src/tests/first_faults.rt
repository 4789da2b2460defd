use super::check_faults;
use crate::AsmFault;

#[test]
fn a_line_at_fault_by_itself_stops_the_reading(rt: HostRuntime) {
    let rows = [("j nowhere\nfrob", AsmFault::BadLine { line: 2 })];
    check_faults(&rt, rt.alloc(), &rows);
}

#[test]
fn names_of_the_lines_before_the_one_that_stops_count(rt: HostRuntime) {
    let rows = [
        (
            "addi a0,a0,b\n.equ b,5000\nfrob",
            AsmFault::Range { line: 1 },
        ),
        (
            "addi a0,a0,b\n.data\nb: frob",
            AsmFault::BadLine { line: 3 },
        ),
    ];
    check_faults(&rt, rt.alloc(), &rows);
}

#[test]
fn the_least_line_at_fault_is_answered_where_none_stops(rt: HostRuntime) {
    let rows = [
        (
            "addi a0,a0,b\nj nowhere\n.data\nb:",
            AsmFault::Range { line: 1 },
        ),
        (
            "j nowhere\naddi a0,a0,b\n.data\nb:",
            AsmFault::UnknownName { line: 1 },
        ),
    ];
    check_faults(&rt, rt.alloc(), &rows);
}

#[test]
fn a_number_outside_all_ranges_is_a_range_whatever_its_names_are(rt: HostRuntime) {
    let rows = [(".word nowhere,99999999999", AsmFault::Range { line: 1 })];
    check_faults(&rt, rt.alloc(), &rows);
}
