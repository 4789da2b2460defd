//! Runs for tests, and what is known in them.
ghost use Rattle.std.specs.Prelude.{IfOk};
ghost use Rattle.coco_model.specs.Setups.{IsBoundTo};

use crate::{Ready, run_of};
use coco_base::{List, Part};
use cycle_sim::{Sim, SimFault};
use rv_asm::Image;
use std::alloc::{AllocError, Global};
use std::process::Abort;
use std::test::Fail;

/// A program of two instructions.
fn program(alloc: Global) -> Result<Image, AllocError> {
    Ok(Image {
        text: List::from_vec(vec![in alloc; 0x13, 0x93]?),
        values: List::new(alloc),
        lines: List::from_vec(vec![in alloc; 1, 2]?),
    })
}

/// The run over the circuit of rows that a label file tells.
pub(crate) fn run(rt: &impl Abort, alloc: Global, rows: &str, file: &str) -> Result<Ready, Fail>
    ensures { IfOk result (λ r. IsBoundTo r.graph.flat r.setup) }
{
    assert!(rt; file.len() < 4_000_000_000);
    match run_of(alloc, rows, file, &program(alloc)?) {
        Ok(ready) => Ok(ready),
        Err(_) => panic!(rt; "no run"),
    }
}

/// Which of 32 bits from a bit on are known, and which of them are 1.
fn word_from(known: &[Part], first: usize) -> (u32, u32) {
    let (mut told, mut ones) = (0u32, 0u32);
    for place in 0..32usize {
        let bit = 1u32 << place as u32;
        match known.get(first.saturating_add(place)) {
            Some(Part::One) => {
                told |= bit;
                ones |= bit;
            }
            Some(Part::Zero) => told |= bit,
            _ => {}
        }
    }
    (told, ones)
}

/// Which of 32 bits from a bit on are known in each cycle, and which of them are 1; in each cycle the row before is that
/// of the cycle before, and in the first its own.
pub(crate) fn words(
    rt: &impl Abort,
    alloc: Global,
    run: &Ready,
    first: usize,
    cycles: u32,
) -> Result<Vec<(u32, u32)>, Fail>
    requires { IsBoundTo run.now.graph.flat run.now.setup }
{
    let mut sim = Sim::new(alloc, &run.graph, &run.setup)?;
    let mut words = Vec::new(alloc);
    let mut last = None;
    'cycles: for cycle in 0..cycles {
        assert!(rt; sim.next().is_ok(), "a fault in cycle {cycle}");
        let now = word_from(sim.known(), first);
        assert!(rt; word_from(sim.before(), first) == last.unwrap_or(now));
        last = Some(now);
        words.push(now)?;
    }
    Ok(words)
}

/// The fault of the first cycle that has one, which a later call answers again.
pub(crate) fn fault_in(
    rt: &impl Abort,
    alloc: Global,
    run: &Ready,
    cycles: u32,
) -> Result<Option<SimFault>, Fail>
    requires { IsBoundTo run.now.graph.flat run.now.setup }
{
    assert!(rt; cycles < 1_000);
    let mut sim = Sim::new(alloc, &run.graph, &run.setup)?;
    'cycles: for cycle in 0..cycles {
        if let Err(fault) = sim.next() {
            assert!(rt;
                sim.next() == Err(fault),
                "another fault than in cycle {cycle}"
            );
            return Ok(Some(fault));
        }
    }
    Ok(None)
}
