use super::{check_lines, check_text};

// The words are those of the instructions that the manual's table of pseudoinstructions names.
#[test]
fn an_operation_on_one_register_stands_for_one_on_two(rt: HostRuntime) {
    let rows = [
        ("nop", 0x00000013),
        ("mv a0,a1", 0x00058513),
        ("not a0,a1", 0xfff5c513),
        ("neg a0,a1", 0x40b00533),
        ("seqz a0,a1", 0x0015b513),
        ("snez a0,a1", 0x00b03533),
        ("sltz a0,a1", 0x0005a533),
        ("sgtz a0,a1", 0x00b02533),
    ];
    check_lines(&rt, rt.alloc(), &rows);
}

#[test]
fn a_branch_on_one_register_compares_it_with_x0(rt: HostRuntime) {
    let rows = [
        ("beqz a0,.", 0x00050063),
        ("bnez a0,.", 0x00051063),
        ("blez a0,.", 0x00a05063),
        ("bgez a0,.", 0x00055063),
        ("bltz a0,.", 0x00054063),
        ("bgtz a0,.", 0x00a04063),
    ];
    check_lines(&rt, rt.alloc(), &rows);
}

#[test]
fn bgt_and_its_kin_exchange_their_registers(rt: HostRuntime) {
    let rows = [
        ("bgt a0,a1,.", 0x00a5c063),
        ("ble a0,a1,.", 0x00a5d063),
        ("bgtu a0,a1,.", 0x00a5e063),
        ("bleu a0,a1,.", 0x00a5f063),
    ];
    check_lines(&rt, rt.alloc(), &rows);
}

#[test]
fn jumps_without_a_return_address_write_x0(rt: HostRuntime) {
    let rows = [
        ("j .", 0x0000006f),
        ("jr a0", 0x00050067),
        ("ret", 0x00008067),
        ("call .", 0x000000ef),
    ];
    check_lines(&rt, rt.alloc(), &rows);
}

#[test]
fn li_takes_the_fewest_words(rt: HostRuntime) {
    let alloc = rt.alloc();
    check_lines(
        &rt,
        alloc,
        &[
            ("li t0,0xffffffff", 0xfff00293),
            ("li t0,0x12345000", 0x123452b7),
        ],
    );
    check_text(
        &rt,
        alloc,
        b"li t0,0x12345678\nli t0,0x800",
        &[0x123452b7, 0x67828293, 0x000012b7, 0x80028293],
    );
}

#[test]
fn la_always_takes_two_words(rt: HostRuntime) {
    check_text(&rt, rt.alloc(), b"la t0,0", &[0x000002b7, 0x00028293]);
}
