use crate::line::expression::Half;
use crate::line::mnemonics::{Form, form_of};
use crate::line::operands::{one_number, register_value_and_base, three_registers, values};
use crate::line::reading::Unread;
use rv_isa::{BranchOp, RegOp};

#[test]
fn a_word_has_its_form(rt: HostRuntime) {
    assert_eq!(rt; form_of(b"sltu"), Some(Form::Reg(RegOp::Sltu)));
    assert_eq!(rt; form_of(b"bleu"), Some(Form::Exchanged(BranchOp::Bgeu)));
    assert_eq!(rt; form_of(b"bgtz"), Some(Form::First(BranchOp::Blt)));
    assert_eq!(rt; form_of(b".p2align"), Some(Form::Power));
    assert_eq!(rt; form_of(b"frob"), None);
}

#[test]
fn blanks_may_stand_round_registers(rt: HostRuntime) {
    assert_eq!(rt; three_registers(b" a0,zero\t, x31 "), Ok((10, 0, 31)));
    assert_eq!(rt; three_registers(b" a0,a1"), Err(Unread::Other));
}

#[test]
fn a_number_has_a_range_and_no_blank_behind_its_sign(rt: HostRuntime) {
    assert_eq!(rt; one_number(b" -2147483648"), Ok(Some(-2147483648)));
    assert_eq!(rt; one_number(b" -2147483649"), Ok(None));
    assert_eq!(rt; one_number(b" 0xFFFFffff"), Ok(Some(4294967295)));
    assert_eq!(rt; one_number(b" 4294967296"), Ok(None));
    assert_eq!(rt; one_number(b" 99999999999999999999999"), Ok(None));
    assert_eq!(rt; one_number(b" - 1"), Err(Unread::Other));
}

#[test]
fn the_number_behind_a_sign_may_have_its_own(rt: HostRuntime) {
    match register_value_and_base(rt.alloc(), b"a0, %lo ( b - -4 ) (sp)") {
        Ok((register, value, base)) => {
            assert_eq!(rt; (register, base), (10, 2));
            assert!(rt; value.halves.as_slice() == [Half::Low].as_slice());
            assert!(rt; value.sum.minus);
            assert_eq!(rt; value.sum.amount, Some(-4));
        }
        Err(_) => panic!(rt; "no operands"),
    }
}

#[test]
fn a_comma_stands_between_values(rt: HostRuntime) {
    let alloc = rt.alloc();
    assert!(rt; values(alloc, b" 1, b+2 , .").is_ok());
    assert!(rt; values(alloc, b" 1,").is_err());
}
