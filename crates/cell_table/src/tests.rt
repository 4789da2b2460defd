use crate::{coefficient, forced, inputs_of, kind_of, live, value};
use coco_base::Kind;
use coco_base::Part::{One, Vary, Zero};

#[test]
fn the_signed_sums_of_and_are_those_of_its_truth_table(rt: HostRuntime) {
    let parts = [Vary, Vary, Zero, Zero];
    assert_eq!(rt; coefficient(Kind::And, parts, 0), 2);
    assert_eq!(rt; coefficient(Kind::And, parts, 1), 2);
    assert_eq!(rt; coefficient(Kind::And, parts, 2), 2);
    assert_eq!(rt; coefficient(Kind::And, parts, 3), -2);
}

#[test]
fn the_signed_sums_of_the_multiplexer_are_those_of_its_truth_table(rt: HostRuntime) {
    let parts = [Vary, Vary, Vary, Zero];
    assert_eq!(rt; coefficient(Kind::Mux, parts, 0), 0);
    assert_eq!(rt; coefficient(Kind::Mux, parts, 1), 4);
    assert_eq!(rt; coefficient(Kind::Mux, parts, 2), 4);
    assert_eq!(rt; coefficient(Kind::Mux, parts, 3), 0);
    assert_eq!(rt; coefficient(Kind::Mux, parts, 4), 0);
    assert_eq!(rt; coefficient(Kind::Mux, parts, 5), 4);
    assert_eq!(rt; coefficient(Kind::Mux, parts, 6), -4);
    assert_eq!(rt; coefficient(Kind::Mux, parts, 7), 0);
}

#[test]
fn a_known_input_is_fixed_in_a_signed_sum(rt: HostRuntime) {
    let parts = [Vary, Vary, Zero, Zero];
    assert_eq!(rt; coefficient(Kind::Mux, parts, 0), 0);
    assert_eq!(rt; coefficient(Kind::Mux, parts, 1), 4);
    assert_eq!(rt; coefficient(Kind::Mux, parts, 2), 0);
    assert_eq!(rt; coefficient(Kind::Mux, parts, 3), 0);
    assert_eq!(rt; coefficient(Kind::Xor, parts, 3), 4);
}

#[test]
fn an_output_is_known_where_the_known_inputs_force_it(rt: HostRuntime) {
    assert_eq!(rt; forced(Kind::Mux, [One, One, Vary, Zero]), One);
    assert_eq!(rt; forced(Kind::Mux, [One, Zero, Vary, Zero]), Vary);
    assert_eq!(rt; forced(Kind::Aoi4, [One, Vary, One, One]), Zero);
}

#[test]
fn no_input_of_a_forced_gate_is_live(rt: HostRuntime) {
    let parts = [Zero, Vary, Zero, Zero];
    assert!(rt; !live(Kind::And, parts, 0));
    assert!(rt; !live(Kind::And, parts, 1));
    assert!(rt; !live(Kind::And, parts, 2));
}

#[test]
fn the_select_of_a_multiplexer_is_live_where_its_data_may_differ(rt: HostRuntime) {
    assert!(rt; live(Kind::Mux, [Vary, Vary, Vary, Zero], 2));
    assert!(rt; !live(Kind::Mux, [One, One, Vary, Zero], 2));
    assert!(rt; !live(Kind::Mux, [Vary, Vary, One, Zero], 0));
}

#[test]
fn a_type_is_a_kind_by_its_whole_name(rt: HostRuntime) {
    assert_eq!(rt; kind_of("$_NMUX_"), Some(Kind::Nmux));
    assert_eq!(rt; kind_of("$_MUX4_"), None);
    assert_eq!(rt; kind_of(""), None);
}

#[test]
fn a_gates_value_goes_by_its_inputs_in_order(rt: HostRuntime) {
    assert_eq!(rt; inputs_of(Kind::Oai3), 3);
    assert!(rt; value(Kind::Mux, [false, true, true, false]));
    assert!(rt; !value(Kind::Mux, [false, true, false, false]));
}
