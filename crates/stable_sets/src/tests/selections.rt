//! Which selections are allowed, and the sets that they give.
ghost use Rattle.coco_model.specs.UnrolledRuns.{IsUnrolledValue};

use super::cases::selection;
use super::runs::{NOTHING, VARY, ZERO, both, gate, list, run_of};
use crate::{allowed, follow};
use coco_base::{Kind, NoMemory, Node, Selection, Unrolled};
use std::alloc::Global;
use std::test::Fail;

// two shares and their exclusive or
fn is_allowed(alloc: Global, choices: &[u8]) -> Result<bool, Fail> {
    let nodes = [
        NOTHING,
        Node::Label(0),
        Node::Label(1),
        both(Kind::Xor, 1, 2),
    ];
    let run = run_of(alloc, 4, 1, &nodes)?;
    let selection = Selection {
        choices: list(alloc, choices)?,
    };
    Ok(allowed(&run, &selection))
}

#[test]
fn a_selection_has_a_choice_with_a_sum_for_each_gate(rt: HostRuntime) -> Result<(), Fail> {
    for (choices, told) in [
        (&[0, 0, 0, 3][..], true),
        (&[7, 255, 1, 3], true),
        (&[0, 0, 0, 3, 0], false),
        (&[0, 0, 0], false),
        (&[], false),
        (&[0, 0, 0, 4], false),
        (&[0, 0, 0, 7], false),
        (&[0, 0, 0, 255], false),
        (&[0, 0, 0, 1], false),
        (&[0, 0, 0, 0], false),
    ] {
        assert_eq!(rt; is_allowed(rt.alloc(), choices)?, told);
    }
    Ok(())
}

#[test]
fn a_place_that_is_known_is_no_choice(rt: HostRuntime) -> Result<(), Fail> {
    for (kind, choice, told) in [
        (Kind::Xor, 2, true),
        (Kind::Xor, 3, false),
        (Kind::Xor, 1, false),
        (Kind::Or, 0, false),
        (Kind::Or, 2, true),
    ] {
        let nodes = [Node::Label(0), gate(kind, ZERO, VARY, [0, 0])];
        let run = run_of(rt.alloc(), 2, 1, &nodes)?;
        let selection = selection(rt.alloc(), 2, &[(1, choice)])?;
        assert_eq!(rt; allowed(&run, &selection), told);
    }
    Ok(())
}

// whether the set of the last node has each of the labels 0 to 3
fn last_set(alloc: Global, run: &Unrolled, chosen: &[(usize, u8)]) -> Result<[bool; 4], Fail>
    requires { IsUnrolledValue run.now }
{
    let selection = selection(alloc, run.nodes.len(), chosen)?;
    if !allowed(run, &selection) {
        return Err(Fail::from(NoMemory));
    }
    let sets = follow(alloc, run, &selection)?;
    match sets.as_slice().last() {
        Some(set) => Ok([set.has(0), set.has(1), set.has(2), set.has(3)]),
        None => Err(Fail::from(NoMemory)),
    }
}

#[test]
fn the_set_of_a_gate_is_the_difference_of_those_chosen(rt: HostRuntime) -> Result<(), Fail> {
    let nodes = [
        Node::Label(0),
        Node::Label(1),
        both(Kind::Xor, 0, 1),
        Node::Copy(1),
        both(Kind::And, 2, 3),
    ];
    let run = run_of(rt.alloc(), 5, 1, &nodes)?;
    for (choice, set) in [
        (0, [false; 4]),
        (1, [true, true, false, false]),
        (2, [false, true, false, false]),
        (3, [true, false, false, false]),
    ] {
        assert_eq!(rt; last_set(rt.alloc(), &run, &[(2, 3), (4, choice)])?, set);
    }
    Ok(())
}

#[test]
fn a_multiplexer_has_the_set_of_a_data_input_with_and_without_the_select(
    rt: HostRuntime,
) -> Result<(), Fail> {
    let select = Node::Gate {
        kind: Kind::Mux,
        parts: [VARY, VARY, VARY, ZERO],
        operands: [0, 1, 2, 0],
    };
    let run = run_of(
        rt.alloc(),
        4,
        1,
        &[Node::Label(0), Node::Label(1), Node::Label(2), select],
    )?;
    for (choice, set) in [
        (1, [true, false, false, false]),
        (2, [false, true, false, false]),
        (5, [true, false, true, false]),
        (6, [false, true, true, false]),
    ] {
        assert_eq!(rt; last_set(rt.alloc(), &run, &[(3, choice)])?, set);
    }
    Ok(())
}
