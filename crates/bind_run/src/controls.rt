//! The controls that come of lines and of asynchronous resets.
ghost use Rattle.std.specs.Prelude.{◌≡◌, ◌<◌, ◌+◌, ◌^◌, ◌++◌, length, map, IfOk, OnOk};
ghost use Rattle.std.specs.List.{range_with_len};
ghost use Rattle.coco_base.specs.BitNames.{name_of_bit};
ghost use Rattle.coco_model.specs.Netlist.{IsInRange, IsWireBelow};
ghost use Rattle.bind_run.specs.Controls.{control_name, controls_from, controls_of, controls_on, line_controls, lines_controls, port_count, ports_count, resets_of, wire_name};

use crate::circuit::Circuit;
use crate::items::first;
use coco_base::{ControlPlan, Flat, List, NoMemory, Text, When, Wire, names_of_bits};
use label_file::LabelLine;
use std::alloc::Global;

/// The word of the line, with the place where the net has several wires.
fn control_name(alloc: Global, word: &str, width: usize, place: usize) -> Result<Text, NoMemory>
    ensures { IfOk result (λ name. name ≡ control_name word.now width place) }
{
    if width <= 1 {
        return Text::of(alloc, word);
    }
    Ok(Text::from_string(format!(in alloc; "{word}[{place}]")?))
}

/// Adds the wires of a net as controls.
fn push_controls(
    alloc: Global,
    plans: &mut Vec<ControlPlan>,
    word: &str,
    wires: &[Wire],
    when: When,
) -> Result<(), NoMemory>
    ensures { OnOk result (plans.new.items ≡ plans.old.items
        ++ controls_from word.now (length wires.now) when 0 wires.now) }
{
    let mut rest = wires;
    let mut place = 0usize;
    'wires: while let Some((wire, more)) = first(rest) {
        plans.push(ControlPlan {
            name: control_name(alloc, word, wires.len(), place)?,
            wire: *wire,
            when,
        })?;
        place += 1;
        rest = more;
    }
    Ok(())
}

fn port_count(line: &LabelLine) -> u32
    ensures value { result ≡ port_count line.now }
    ensures small { result < 2 }
{
    match line {
        LabelLine::Imem { .. } | LabelLine::Dmem { .. } => 1,
        _ => 0,
    }
}

/// The name of a reset's bit; none for a constant.
fn wire_name(alloc: Global, flat: &Flat, names: &[Text], wire: Wire) -> Result<Text, NoMemory>
    requires names { names.now ≡ map (name_of_bit flat.now) (range_with_len 0 flat.now.bits) }
    requires below { IsWireBelow flat.now.bits wire }
    ensures { IfOk result (λ name. name ≡ wire_name flat.now wire) }
{
    match wire {
        Wire::Const(_) => Text::of(alloc, ""),
        Wire::Bit(bit) => Text::of(alloc, names[bit as usize].as_str()),
    }
}

/// Adds the asynchronous resets of flops.
fn push_resets(
    alloc: Global,
    plans: &mut Vec<ControlPlan>,
    flat: &Flat,
    names: &[Text],
) -> Result<(), NoMemory>
    requires names { names.now ≡ map (name_of_bit flat.now) (range_with_len 0 flat.now.bits) }
    requires range { IsInRange flat.now }
    ensures { OnOk result (plans.new.items ≡ plans.old.items ++ resets_of flat.now flat.now.flops) }
{
    let flops = flat.flops.as_slice();
    'flops: for flop in flops {
        if let Some(wire) = flop.reset {
            plans.push(ControlPlan {
                name: wire_name(alloc, flat, names, wire)?,
                wire,
                when: When::Always,
            })?;
        }
    }
    Ok(())
}

impl Circuit<'_> {
    /// Adds the wires of a net as controls.
    fn push_net(
        &self,
        alloc: Global,
        plans: &mut Vec<ControlPlan>,
        word: &Text,
        when: When,
    ) -> Result<(), NoMemory>
        ensures { OnOk result (plans.new.items ≡ plans.old.items ++ controls_on self.now.flat when word.now) }
    {
        let wires = self.wires(word.as_str());
        push_controls(alloc, plans, word.as_str(), wires, when)
    }

    /// Adds the controls of a line, where so many memory ports stand before it.
    fn push_line_controls(
        &self,
        alloc: Global,
        plans: &mut Vec<ControlPlan>,
        port: u32,
        line: &LabelLine,
    ) -> Result<(), NoMemory>
        ensures { OnOk result (plans.new.items ≡ plans.old.items ++ line_controls self.now.flat port line.now) }
    {
        match line {
            LabelLine::Imem {
                request,
                address,
                ..
            } => {
                self.push_net(alloc, plans, request, When::Always)?;
                self.push_net(alloc, plans, address, When::Requested(port))
            }
            LabelLine::Dmem {
                request,
                write,
                enables,
                address,
                ..
            } => {
                self.push_net(alloc, plans, request, When::Always)?;
                self.push_net(alloc, plans, write, When::Requested(port))?;
                self.push_net(alloc, plans, enables, When::Written(port))?;
                self.push_net(alloc, plans, address, When::Requested(port))
            }
            LabelLine::Control { net } | LabelLine::Pc { net } => {
                self.push_net(alloc, plans, net, When::Always)
            }
            _ => Ok(()),
        }
    }

    /// The controls of lines.
    fn lines_controls(
        &self,
        alloc: Global,
        lines: &[LabelLine],
    ) -> Result<Vec<ControlPlan>, NoMemory>
        requires { ports_count lines.now < 2 ^ 32 }
        ensures { IfOk result (λ plans. plans.items ≡ lines_controls self.now.flat 0 lines.now) }
    {
        let mut plans = Vec::new(alloc);
        let mut port = 0u32;
        let mut rest = lines;
        'lines: while let Some((line, more)) = first(rest) {
            self.push_line_controls(alloc, &mut plans, port, line)?;
            port += port_count(line);
            rest = more;
        }
        Ok(plans)
    }

    /// The controls of lines, and then the asynchronous resets. A list of them has numbers of 32 bits for its places.
    pub(crate) fn controls_of(
        &self,
        alloc: Global,
        lines: &[LabelLine],
    ) -> Result<List<ControlPlan>, NoMemory>
        requires { ports_count lines.now < 2 ^ 32 }
        ensures controls { IfOk result (λ plans. plans ≡ controls_of self.now.flat lines.now) }
        ensures few { IfOk result (λ plans. length plans < 2 ^ 32) }
    {
        let mut plans = self.lines_controls(alloc, lines)?;
        let _bits = self.bits();
        let flat = self.flat();
        let names = names_of_bits(alloc, flat)?;
        push_resets(alloc, &mut plans, flat, names.as_slice())?;
        if plans.len() >= 1 << 32 {
            return Err(NoMemory);
        }
        Ok(List::from_vec(plans))
    }
}
