ghost use Rattle.std.specs.Prelude.{◌≡◌, ◌<◌, length, IfOk};

use crate::{ConeFault, Cones, cone_of, is_ordered_run};
use coco_base::{
    Kind, LabelTable, Limits, List, MaskPlan, NoMemory, Node, Part, SecretPlan, Text, Unrolled,
};
use std::alloc::Global;
use std::test::Fail;

// labels 0 and 1 are the shares of one secret bit, 2 is a mask
fn table(alloc: Global, masks: u32) -> Result<LabelTable, NoMemory> {
    let mut secrets = List::new(alloc);
    secrets.push(SecretPlan {
        name: Text::of(alloc, "a")?,
        width: 1,
        shares: 2,
        first: 0,
    })?;
    let mut plans = List::new(alloc);
    if masks == 1 {
        plans.push(MaskPlan {
            name: Text::of(alloc, "m")?,
            width: 1,
            first: 2,
        })?;
    }
    Ok(LabelTable {
        secrets,
        masks: plans,
        fresh: List::new(alloc),
        declared: if masks == 1 { 3 } else { 2 },
        per_cycle: 0,
    })
}

fn unrolled(
    alloc: Global,
    ranks: &[u32],
    cycles: u32,
    nodes: &[Node],
    masks: u32,
) -> Result<Unrolled, NoMemory> {
    Ok(Unrolled {
        bits: u32::try_from(ranks.len()).unwrap_or(u32::MAX),
        cycles,
        ranks: List::from_vec(ranks.to_vec(alloc)?),
        nodes: List::from_vec(nodes.to_vec(alloc)?),
        table: table(alloc, masks)?,
    })
}

const fn xor(parts: [Part; 4], operands: [u32; 4]) -> Node {
    Node::Gate {
        kind: Kind::Xor,
        parts,
        operands,
    }
}

const BOTH: [Part; 4] = [Part::Vary, Part::Vary, Part::Zero, Part::Zero];

const SECOND: [Part; 4] = [Part::Zero, Part::Vary, Part::Zero, Part::Zero];

// the two-register run: two shares, and their exclusive or
fn two_registers(alloc: Global) -> Result<Unrolled, NoMemory> {
    let nodes = [
        Node::Nothing,
        Node::Label(0),
        Node::Label(1),
        xor(BOTH, [1, 2, 0, 0]),
    ];
    unrolled(alloc, &[0, 1, 2, 3], 1, &nodes, 0)
}

// two cycles of a share that is masked, stored and read with the other share
fn masked_register(alloc: Global) -> Result<Unrolled, NoMemory> {
    let nodes = [
        Node::Nothing,
        Node::Label(0),
        Node::Label(1),
        Node::Label(2),
        Node::Nothing,
        xor(BOTH, [1, 3, 0, 0]),
        xor(SECOND, [0, 2, 0, 0]),
        Node::Nothing,
        Node::Copy(1),
        Node::Copy(2),
        Node::Copy(3),
        Node::Copy(5),
        Node::Copy(5),
        xor(BOTH, [11, 9, 0, 0]),
    ];
    unrolled(alloc, &[0, 1, 2, 3, 5, 4, 6], 2, &nodes, 1)
}

// whether a node's cone has exactly the labels below 3 that are marked
fn has_labels(cones: &Cones, node: u32, labels: [bool; 3]) -> bool
    requires { node < length cones.now.cones }
{
    let cone = cones.of(node);
    [cone.has(0), cone.has(1), cone.has(2)] == labels
}

// the cones of a run of these nodes
fn cones_of(alloc: Global, run: &Unrolled, nodes: usize, weight: u64) -> Result<Cones, ConeFault>
    ensures cones { IfOk result (λ c. length c.cones ≡ nodes) }
    ensures marks { IfOk result (λ c. length c.matters ≡ nodes) }
{
    let mut limits = Limits::usual();
    limits.weight = weight.min(16_000_000);
    if run.nodes.len() != nodes || !is_ordered_run(run) {
        return Err(ConeFault::Memory);
    }
    cone_of(alloc, run, 1, &limits)
}

#[test]
fn the_first_sum_above_the_limit_is_named(rt: HostRuntime) -> Result<(), Fail> {
    let run = two_registers(rt.alloc())?;
    assert!(rt; cones_of(rt.alloc(), &run, 4, 12).is_ok());
    for (limit, count) in [(11, 12), (9, 10), (7, 8)] {
        assert_eq!(rt;
            cones_of(rt.alloc(), &run, 4, limit).err(),
            Some(ConeFault::TooLarge { count, limit })
        );
    }
    Ok(())
}

#[test]
fn the_weight_of_the_masked_register_is_37_and_its_need_33(rt: HostRuntime) -> Result<(), Fail> {
    let run = masked_register(rt.alloc())?;
    assert_eq!(rt;
        cones_of(rt.alloc(), &run, 14, 36).err(),
        Some(ConeFault::TooLarge {
            count: 37,
            limit: 36
        })
    );
    let cones = cones_of(rt.alloc(), &run, 14, 37).ok().expect(&rt, "cones");
    assert_eq!(rt; cones.need(), 33);
    Ok(())
}

#[test]
fn a_copy_has_its_origin_s_cone_and_a_gate_that_of_its_operands(
    rt: HostRuntime,
) -> Result<(), Fail> {
    let run = masked_register(rt.alloc())?;
    match cones_of(rt.alloc(), &run, 14, 37) {
        Ok(cones) => {
            assert!(rt; has_labels(&cones, 0, [false, false, false]));
            assert!(rt; has_labels(&cones, 11, [true, false, true]));
            assert!(rt; has_labels(&cones, 13, [true, true, true]));
        }
        Err(_) => panic!(rt; "no cones"),
    }
    Ok(())
}

#[test]
fn the_cone_of_a_multiplexer_has_the_labels_of_its_select(rt: HostRuntime) -> Result<(), Fail> {
    let select = Node::Gate {
        kind: Kind::Mux,
        parts: [Part::Zero, Part::Vary, Part::Vary, Part::Zero],
        operands: [0, 0, 1, 0],
    };
    let nodes = [Node::Label(0), Node::Label(1), select];
    let run = unrolled(rt.alloc(), &[0, 1, 2], 1, &nodes, 0)?;
    match cones_of(rt.alloc(), &run, 3, 100) {
        Ok(cones) => assert!(rt; has_labels(&cones, 2, [true, true, false])),
        Err(_) => panic!(rt; "no cones"),
    }
    Ok(())
}

#[test]
fn a_gate_that_nothing_reads_does_not_matter(rt: HostRuntime) -> Result<(), Fail> {
    let run = masked_register(rt.alloc())?;
    match cones_of(rt.alloc(), &run, 14, 37) {
        Ok(cones) => {
            assert!(rt; cones.matters(2)); // a label
            assert!(rt; cones.matters(5)); // a gate to which copies lead
            assert!(rt; !cones.matters(6) && !cones.matters(13));
        }
        Err(_) => panic!(rt; "no cones"),
    }
    Ok(())
}

#[test]
fn a_run_whose_node_reads_itself_is_not_ordered(rt: HostRuntime) -> Result<(), Fail> {
    let own = unrolled(rt.alloc(), &[0], 1, &[Node::Copy(0)], 0)?;
    assert!(rt; !is_ordered_run(&own));
    let short = unrolled(rt.alloc(), &[0], 2, &[Node::Label(0)], 0)?;
    assert!(rt; !is_ordered_run(&short));
    assert!(rt; is_ordered_run(&two_registers(rt.alloc())?));
    Ok(())
}
