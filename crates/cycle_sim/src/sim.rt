ghost use Rattle.std.specs.Prelude.{◌≡◌, ◌≢◌, ◌<◌, ◌^◌, suc, [], length, None, Some, IfOk, IfErr, OnOk, IsSome, MatchOption};

use crate::checks::fault_in;
use crate::cycle::{Snapshot, make_cycle};
use crate::fault::SimFault;
use crate::memory::start_words;
use crate::parts::number_on;
use coco_base::{NoMemory, Part, Setup};
use gate_graph::Graph;
use std::alloc::Global;
use std::marker::Model;

/// The simulation of what is known of each bit, cycle by cycle. Contracts see it as the graph, the setup, the number of
/// cycles made, and what is known in the last of them.
#[derive(Debug, Drop)]
pub struct Sim<'a> {
    graph: &'a Graph,
    setup: &'a Setup,
    cycles: u32,
    rows: Snapshot,
    fault: Option<SimFault>,
}

impl<'a> Model for Sim<'a> {
    ghost use Rattle.cycle_sim.specs.Simulations.{Simulation, IsSimulation, simulation_of};

    ghost Value = { Simulation };

    ghost view = { λ s. simulation_of s.graph.now s.setup.now s.cycles s.rows s.fault };

    ghost invariant = { λ s. IsSimulation (simulation_of s.graph.now s.setup.now s.cycles s.rows s.fault) };
}

impl<'a> Sim<'a> {
    ghost use Rattle.coco_model.specs.Setups.{IsBoundTo};
    ghost use Rattle.cycle_sim.specs.Simulations.{IsSimulation, IsInRuns, IsNewSimulation, IsAfterNext, HasShown, HasStepped, IsPcInRuns, pc_of};

    /// A simulation that stands before the first cycle. After it no call takes memory.
    pub fn new(alloc: Global, graph: &'a Graph, setup: &'a Setup) -> Result<Self, NoMemory>
        requires { IsBoundTo graph.now.flat setup.now }
        ensures { IfOk result (IsNewSimulation graph.now setup.now) }
    {
        let bits = graph.bits() as usize;
        let rows = Snapshot {
            known: vec![in alloc; Part::Zero; bits]?,
            before: vec![in alloc; Part::Zero; bits]?,
            memory: start_words(alloc, setup.words.as_slice())?,
        };
        Ok(Sim {
            graph,
            setup,
            cycles: 0,
            rows,
            fault: None,
        })
    }

    /// Goes to the next cycle, unless an earlier one has a fault. Of what is at fault in the cycle the first is
    /// answered; then the rows stay, and each later call answers the same. It takes no memory.
    pub fn next(&mut self) -> Result<(), SimFault>
        requires { self.old.cycles < 4294967295 }
        ensures after { IsAfterNext self.old self.new }
        ensures ok { OnOk result (self.new.fault ≡ None) }
        ensures err { IfErr result (λ fault. self.new.fault ≡ Some fault) }
        ensures stepped { OnOk result (HasStepped self.new self.old.cycles) }
        ensures runs { OnOk result (IsInRuns self.new self.old.cycles) }
        ensures simulation { IsSimulation self.new }
    {
        if let Some(fault) = self.fault {
            return Err(fault);
        }
        let cycle = self.cycles;
        make_cycle(self.graph, self.setup, cycle, &mut self.rows);
        let known = self.rows.known.as_slice();
        let fault = fault_in(self.graph, self.setup, known, cycle);
        self.fault = fault;
        self.cycles = cycle + 1;
        answer_of(fault)
    }

    /// What is known of each bit in this cycle.
    pub fn known(&self) -> &[Part]
        requires { 0 < self.now.cycles }
        ensures row { result.now ≡ self.now.known }
        ensures shown { HasShown self.now }
        ensures simulation { IsSimulation self.now }
    {
        self.rows.known.as_slice()
    }

    /// What is known of each bit in the cycle before; before the first cycle the values are those of the first.
    pub fn before(&self) -> &[Part]
        requires { 0 < self.now.cycles }
        ensures row { result.now ≡ self.now.old }
        ensures shown { HasShown self.now }
        ensures simulation { IsSimulation self.now }
    {
        self.rows.before.as_slice()
    }

    /// The number on the net of the program counter, which is known; none where the setup has no such net.
    pub fn pc(&self) -> Option<u32>
        requires cycles { 0 < self.now.cycles }
        requires good { self.now.fault ≡ None }
        ensures none { MatchOption result (self.now.setup.pc ≡ []) (λ _. self.now.setup.pc ≢ []) }
        ensures value { MatchOption result (Unit {0}) (λ n. n ≡ pc_of self.now) }
        ensures runs { MatchOption result (Unit {0}) (IsPcInRuns self.now) }
        ensures simulation { IsSimulation self.now }
    {
        let wires = self.setup.pc.as_slice();
        if wires.is_empty() {
            return None;
        }
        Some(number_on(self.rows.known.as_slice(), wires))
    }
}

fn answer_of(fault: Option<SimFault>) -> Result<(), SimFault>
    ensures ok { OnOk result (fault ≡ None) }
    ensures err { IfErr result (λ f. fault ≡ Some f) }
{
    match fault {
        None => Ok(()),
        Some(fault) => Err(fault),
    }
}
