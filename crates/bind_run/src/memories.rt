//! What echoes, memory ports, word leaves and the program counter come of lines.
ghost use Rattle.std.specs.Prelude.{◌≡◌, ◌++◌, ◌∷◌, [], IfOk, OnOk, flat_map, slice_get};
ghost use Rattle.coco_model.specs.Netlist.{bits_in};
ghost use Rattle.bind_run.specs.Memories.{echo_plan, line_echoes, line_leaves, line_memories, wire_of};
ghost use Rattle.bind_run.specs.Nets.{wires_of};
ghost use Rattle.bind_run.specs.SetupParts.{clock_of, line_clock, line_pc};
ghost use Rattle.bind_run.specs.Values.{at_bits};

use crate::circuit::Circuit;
use crate::copies::wires_of;
use crate::items::first;
use crate::leaf_name::leaf_name;
use coco_base::{EchoPlan, LeafPlan, List, MemPlan, NoMemory, Text, Wire};
use label_file::LabelLine;
use std::alloc::Global;

fn wire_of(wires: &[Wire], place: usize) -> Wire
    ensures { result ≡ wire_of wires.now place }
{
    match wires.get(place) {
        Some(wire) => *wire,
        None => Wire::Const(false),
    }
}

/// The bits among wires.
fn bits_in(alloc: Global, wires: &[Wire]) -> Result<List<u32>, NoMemory>
    ensures { IfOk result (λ bits. bits ≡ bits_in wires.now) }
{
    let mut bits = Vec::new(alloc);
    let mut rest = wires;
    'wires: while let Some((wire, more)) = first(rest) {
        if let Wire::Bit(bit) = *wire {
            bits.push(bit)?;
        }
        rest = more;
    }
    Ok(List::from_vec(bits))
}

/// Adds an echo for each bit among wires.
fn push_echoes(plans: &mut Vec<EchoPlan>, wires: &[Wire], sources: &[Wire]) -> Result<(), NoMemory>
    ensures { OnOk result (plans.new.items ≡ plans.old.items
        ++ at_bits (λ k b. echo_plan b (wire_of sources.now k)) 0 wires.now) }
{
    let mut rest = wires;
    let mut place = 0usize;
    'wires: while let Some((wire, more)) = first(rest) {
        if let Wire::Bit(bit) = *wire {
            plans.push(EchoPlan {
                bit,
                source: wire_of(sources, place),
            })?;
        }
        place += 1;
        rest = more;
    }
    Ok(())
}

impl Circuit<'_> {
    pub(crate) fn echoes_of(
        &self,
        alloc: Global,
        lines: &[LabelLine],
    ) -> Result<List<EchoPlan>, NoMemory>
        ensures { IfOk result (λ plans. plans ≡ flat_map (line_echoes self.now.flat) lines.now) }
    {
        let mut plans = Vec::new(alloc);
        let mut rest = lines;
        'lines: while let Some((line, more)) = first(rest) {
            if let LabelLine::Echo { net, source } = line {
                push_echoes(
                    &mut plans,
                    self.wires(net.as_str()),
                    self.wires(source.as_str()),
                )?;
            }
            rest = more;
        }
        Ok(List::from_vec(plans))
    }

    fn wires_copied(&self, alloc: Global, word: &Text) -> Result<List<Wire>, NoMemory>
        ensures { IfOk result (λ wires. wires ≡ wires_of self.now.flat word.now) }
    {
        wires_of(alloc, self.wires(word.as_str()))
    }

    fn first_wire(&self, word: &Text) -> Wire
        ensures { result ≡ wire_of (wires_of self.now.flat word.now) 0 }
    {
        wire_of(self.wires(word.as_str()), 0)
    }

    fn answer_bits(&self, alloc: Global, word: &Text) -> Result<List<u32>, NoMemory>
        ensures { IfOk result (λ bits. bits ≡ bits_in (wires_of self.now.flat word.now)) }
    {
        bits_in(alloc, self.wires(word.as_str()))
    }

    /// Adds the memory port of a line.
    fn push_port(
        &self,
        alloc: Global,
        plans: &mut Vec<MemPlan>,
        line: &LabelLine,
    ) -> Result<(), NoMemory>
        ensures { OnOk result (plans.new.items ≡ plans.old.items ++ line_memories self.now.flat line.now) }
    {
        match line {
            LabelLine::Imem {
                request,
                address,
                answer,
            } => plans.push(MemPlan {
                request: self.first_wire(request),
                write: None,
                enables: List::new(alloc),
                address: self.wires_copied(alloc, address)?,
                value: List::new(alloc),
                answer: self.answer_bits(alloc, answer)?,
            })?,
            LabelLine::Dmem {
                request,
                write,
                enables,
                address,
                value,
                answer,
            } => plans.push(MemPlan {
                request: self.first_wire(request),
                write: Some(self.first_wire(write)),
                enables: self.wires_copied(alloc, enables)?,
                address: self.wires_copied(alloc, address)?,
                value: self.wires_copied(alloc, value)?,
                answer: self.answer_bits(alloc, answer)?,
            })?,
            _ => {}
        }
        Ok(())
    }

    pub(crate) fn memories_of(
        &self,
        alloc: Global,
        lines: &[LabelLine],
    ) -> Result<List<MemPlan>, NoMemory>
        ensures { IfOk result (λ plans. plans ≡ flat_map (line_memories self.now.flat) lines.now) }
    {
        let mut plans = Vec::new(alloc);
        let mut rest = lines;
        'lines: while let Some((line, more)) = first(rest) {
            self.push_port(alloc, &mut plans, line)?;
            rest = more;
        }
        Ok(List::from_vec(plans))
    }

    pub(crate) fn leaves_of(
        &self,
        alloc: Global,
        lines: &[LabelLine],
    ) -> Result<List<LeafPlan>, NoMemory>
        ensures { IfOk result (λ plans. plans ≡ flat_map (line_leaves self.now.flat) lines.now) }
    {
        let mut plans = Vec::new(alloc);
        let mut rest = lines;
        'lines: while let Some((line, more)) = first(rest) {
            if let LabelLine::Leaf { address } = line {
                let name = leaf_name(alloc, *address)?;
                plans.push(LeafPlan {
                    address: *address,
                    bits: self.answer_bits(alloc, &name)?,
                })?;
            }
            rest = more;
        }
        Ok(List::from_vec(plans))
    }

    /// The wires of the program counter.
    pub(crate) fn pc_of(&self, alloc: Global, lines: &[LabelLine]) -> Result<List<Wire>, NoMemory>
        ensures { IfOk result (λ wires. wires ≡ flat_map (line_pc self.now.flat) lines.now) }
    {
        let mut wires = Vec::new(alloc);
        let mut rest = lines;
        'lines: while let Some((line, more)) = first(rest) {
            if let LabelLine::Pc { net } = line {
                wires.extend_from_slice(self.wires(net.as_str()))?;
            }
            rest = more;
        }
        Ok(List::from_vec(wires))
    }

    /// The bits of the clock line.
    fn clock_bits(&self, alloc: Global, lines: &[LabelLine]) -> Result<List<u32>, NoMemory>
        ensures { IfOk result (λ bits. bits ≡ flat_map (line_clock self.now.flat) lines.now) }
    {
        let mut bits = Vec::new(alloc);
        let mut rest = lines;
        'lines: while let Some((line, more)) = first(rest) {
            if let LabelLine::Clock { net } = line {
                bits.extend_from_slice(self.answer_bits(alloc, net)?.as_slice())?;
            }
            rest = more;
        }
        Ok(List::from_vec(bits))
    }

    /// The bit of the clock line.
    pub(crate) fn clock_of(
        &self,
        alloc: Global,
        lines: &[LabelLine],
    ) -> Result<Option<u32>, NoMemory>
        ensures { IfOk result (λ bit. bit ≡ clock_of self.now.flat lines.now) }
    {
        let bits = self.clock_bits(alloc, lines)?;
        Ok(bits.as_slice().first().copied())
    }
}
