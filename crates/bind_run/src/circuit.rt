//! A netlist with its graph and the names of its nets.
ghost use Rattle.std.specs.Prelude.{◌≡◌, IfOk, OnOk};
ghost use Rattle.std.specs.List.{list_all, list_any};
ghost use Rattle.bind_run.specs.Binding.{after_bound, after_need, after_role, after_wires, clashes, drives_wire, is_clock, is_driven, is_flop_bit, is_input_bit, wire_clashes};
ghost use Rattle.bind_run.specs.Causes.{Answers};
ghost use Rattle.bind_run.specs.Nets.{meaning_of, seen_wires, wires_of};
ghost use Rattle.bind_run.specs.SeenNeeds.{seen_need};
ghost use Rattle.gate_graph.specs.Graphs.{IsBuilt, IsGraphOf};

use crate::bound::Bound;
use crate::fault::BindFault;
use crate::items::first;
use crate::names::Names;
use crate::need::{Need, Role};
use crate::nets::{NetFault, meaning_in, names_of};
use crate::reads::is_read;
use coco_base::{Flat, NoMemory, Text, Wire};
use gate_graph::{Driver, Graph};
use std::alloc::Global;
use std::marker::Model;

/// A netlist with its graph and the names of its nets. Contracts see it as the graph.
#[derive(Debug, Drop)]
pub(crate) struct Circuit<'a> {
    flat: &'a Flat,
    graph: &'a Graph,
    names: Names<'a>,
}

impl<'a> Model for Circuit<'a> {
    ghost use Rattle.gate_graph.specs.Graphs.{Gates};
    ghost use Rattle.bind_run.specs.Circuits.{IsCircuit};

    ghost Value = { Gates };

    ghost view = { λ c. c.graph.now };

    ghost invariant = { λ c. IsCircuit c.flat.now c.graph.now c.names };
}

impl<'a> Circuit<'a> {
    pub(crate) fn new(
        alloc: Global,
        graph: &'a Graph,
        flat: &'a Flat,
    ) -> Result<Circuit<'a>, NoMemory>
        requires { IsGraphOf flat.now graph.now }
        ensures { IfOk result (λ c. c ≡ graph.entry.now) }
    {
        let names = names_of(alloc, flat)?;
        Ok(Circuit { flat, graph, names })
    }

    pub(crate) fn bits(&self) -> u32
        ensures bits { result ≡ self.now.flat.bits }
        ensures built { IsBuilt self.now }
    {
        self.graph.bits()
    }

    pub(crate) fn flat(&self) -> &'a Flat
        ensures { result.now ≡ self.now.flat }
    {
        self.flat
    }

    /// The wires that a word means.
    pub(crate) fn meaning(&self, word: &[u8]) -> Result<&'a [Wire], NetFault>
        ensures { seen_wires result ≡ meaning_of self.now.flat word.now }
    {
        meaning_in(&self.names, word)
    }

    /// The wires that a word means, none where it means none.
    pub(crate) fn wires(&self, word: &str) -> &'a [Wire]
        ensures { result.now ≡ wires_of self.now.flat word.now }
    {
        match self.meaning(word.as_bytes()) {
            Ok(wires) => wires,
            Err(_) => &[],
        }
    }

    pub(crate) fn is_input(&self, bit: u32) -> bool
        ensures { result ≡ is_input_bit self.now.flat bit }
    {
        bit < self.graph.bits() && matches!(self.graph.driver(bit), Driver::Port(_))
    }

    fn is_flop(&self, bit: u32) -> bool
        ensures { result ≡ is_flop_bit self.now.flat bit }
    {
        bit < self.graph.bits() && matches!(self.graph.driver(bit), Driver::Flop(_))
    }

    /// Whether the bit of a wire is driven by what has to drive it.
    fn drives(&self, role: Role, wire: Wire) -> bool
        ensures { result ≡ drives_wire self.now.flat role wire }
    {
        let Wire::Bit(bit) = wire else {
            return false;
        };
        match role {
            Role::Flop => self.is_flop(bit),
            Role::Read | Role::Input | Role::Clock => self.is_input(bit),
        }
    }

    fn is_clock(&self, bit: u32) -> bool
        ensures { result ≡ is_clock self.now.clock bit }
    {
        match self.graph.clock() {
            None => false,
            Some(clock) => bit == clock,
        }
    }

    /// Whether the bit of a wire is the clock and may not be, or has to be and is not.
    fn clashes(&self, role: Role, wire: Wire) -> bool
        ensures { result ≡ wire_clashes self.now.flat self.now.clock role wire }
    {
        let Wire::Bit(bit) = wire else {
            return false;
        };
        match role {
            Role::Clock => !self.is_clock(bit) && is_read(self.flat, bit),
            Role::Read | Role::Flop | Role::Input => self.is_clock(bit),
        }
    }

    fn drives_all(&self, role: Role, wires: &[Wire]) -> bool
        ensures { result ≡ list_all (drives_wire self.now.flat role) wires.now }
    {
        wires.iter().all(|wire| self.drives(role, *wire))
    }

    fn some_clashes(&self, role: Role, wires: &[Wire]) -> bool
        ensures { result ≡ list_any (wire_clashes self.now.flat self.now.clock role) wires.now }
    {
        wires.iter().any(|wire| self.clashes(role, *wire))
    }

    /// Binds the bits of a net.
    fn bind(
        &self,
        alloc: Global,
        bound: &mut Bound,
        need: Need<'_>,
        wires: &[Wire],
    ) -> Result<(), BindFault>
        ensures { Answers (λ _. bound.new) result
            (after_bound self.now.flat self.now.clock bound.old need.entry.word.now need.entry.role wires.now) }
    {
        if !self.drives_all(need.role, wires) {
            return Err(BindFault::WrongDriver {
                name: Text::of(alloc, need.word)?,
            });
        }
        if self.some_clashes(need.role, wires) {
            return Err(BindFault::ClockMismatch {
                name: Text::of(alloc, need.word)?,
            });
        }
        bind_wires(alloc, bound, need.word, wires)
    }

    /// Takes a net of a line whose wires are known.
    fn take_wires(
        &self,
        alloc: Global,
        bound: &mut Bound,
        need: Need<'_>,
        wires: &[Wire],
    ) -> Result<(), BindFault>
        ensures { Answers (λ _. bound.new) result
            (after_role self.now.flat self.now.clock bound.old need.entry.word.now need.entry.role wires.now) }
    {
        if need.role.binds() {
            self.bind(alloc, bound, need, wires)
        } else {
            Ok(())
        }
    }

    /// Takes a net of a line.
    pub(crate) fn take(
        &self,
        alloc: Global,
        bound: &mut Bound,
        need: Need<'_>,
    ) -> Result<(), BindFault>
        ensures { Answers (λ _. bound.new) result
            (after_need self.now.flat self.now.clock bound.old (seen_need need.entry)) }
    {
        match self.meaning(need.word.as_bytes()) {
            Err(NetFault::Missing) => Err(BindFault::NoSuchNet {
                name: Text::of(alloc, need.word)?,
            }),
            Ok(wires) if need.width.fits(wires.len()) => self.take_wires(alloc, bound, need, wires),
            Ok(_) | Err(NetFault::Outside) => Err(BindFault::Width {
                name: Text::of(alloc, need.word)?,
            }),
        }
    }
}

/// Binds bits, each of which may not be bound yet.
fn bind_wires(alloc: Global, bound: &mut Bound, word: &str, wires: &[Wire]) -> Result<(), BindFault>
    ensures { Answers (λ _. bound.new) result (after_wires bound.old word.now wires.now) }
{
    let mut rest = wires;
    'wires: while let Some((wire, more)) = first(rest) {
        if let Wire::Bit(bit) = *wire {
            if bound.has(bit) {
                return Err(BindFault::BoundTwice {
                    name: Text::of(alloc, word)?,
                });
            }
            bound.add(bit)?;
        }
        rest = more;
    }
    Ok(())
}
