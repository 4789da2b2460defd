//! Binding: the setup of a run, or the first fault.
ghost use Rattle.std.specs.Prelude.{◌≡◌, ◌<◌, ◌^◌, length, IfOk, IfErr};
ghost use Rattle.coco_model.specs.Setups.{IsBoundTo};
ghost use Rattle.label_file.specs.Conditions.{AreLabels};
ghost use Rattle.bind_run.specs.Controls.{ports_count};
ghost use Rattle.bind_run.specs.Inputs.{fresh_count};
ghost use Rattle.bind_run.specs.Binding.{bound_by};
ghost use Rattle.bind_run.specs.Outcomes.{IsBindFault, IsNamedUnbound, IsSetupOf};
ghost use Rattle.bind_run.specs.SetupParts.{setup_of, table_of};
ghost use Rattle.bind_run.specs.Values.{HaveRoom};
ghost use Rattle.gate_graph.specs.Graphs.{IsGraphOf};

use crate::bound::Bound;
use crate::circuit::Circuit;
use crate::copies::name_of;
use crate::fault::BindFault;
use crate::word_plans::words_of;
use coco_base::{Flat, LabelTable, List, MaskPlan, NoMemory, SecretPlan, Setup, name_of_bit};
use gate_graph::Graph;
use label_file::Labels;
use rv_asm::Image;
use std::alloc::Global;

fn secrets_of(alloc: Global, secrets: &[SecretPlan]) -> Result<List<SecretPlan>, NoMemory>
    ensures { IfOk result (λ copies. copies ≡ secrets.now) }
{
    let mut copies = Vec::new(alloc);
    'secrets: for secret in secrets {
        copies.push(SecretPlan {
            name: name_of(alloc, &secret.name)?,
            width: secret.width,
            shares: secret.shares,
            first: secret.first,
        })?;
    }
    Ok(List::from_vec(copies))
}

fn masks_of(alloc: Global, masks: &[MaskPlan]) -> Result<List<MaskPlan>, NoMemory>
    ensures { IfOk result (λ copies. copies ≡ masks.now) }
{
    let mut copies = Vec::new(alloc);
    'masks: for mask in masks {
        copies.push(MaskPlan {
            name: name_of(alloc, &mask.name)?,
            width: mask.width,
            first: mask.first,
        })?;
    }
    Ok(List::from_vec(copies))
}

fn lines_of(alloc: Global, lines: &[u32]) -> Result<List<u32>, NoMemory>
    ensures { IfOk result (λ copies. copies ≡ lines.now) }
{
    Ok(List::from_vec(Vec::from_slice(alloc, lines)?))
}

impl Circuit<'_> {
    /// The labels that the file declares, and the fresh masks.
    fn table_of(&self, alloc: Global, labels: &Labels) -> Result<LabelTable, NoMemory>
        requires { fresh_count self.now.flat labels.now.lines < 2 ^ 32 }
        ensures { IfOk result (λ table. table ≡ table_of self.now.flat labels.now) }
    {
        let lines = labels.lines.as_slice();
        Ok(LabelTable {
            secrets: secrets_of(alloc, labels.table.secrets.as_slice())?,
            masks: masks_of(alloc, labels.table.masks.as_slice())?,
            fresh: self.fresh_masks(alloc, lines)?,
            declared: labels.table.declared,
            per_cycle: self.fresh_count(lines),
        })
    }

    /// What lines and a program say of a run.
    fn setup_of(&self, alloc: Global, image: &Image, labels: &Labels) -> Result<Setup, NoMemory>
        requires room { HaveRoom labels.now.lines }
        requires fresh { fresh_count self.now.flat labels.now.lines < 2 ^ 32 }
        requires ports { ports_count labels.now.lines < 2 ^ 32 }
        ensures setup { IfOk result (λ setup. setup ≡ setup_of self.now.flat image.now labels.now) }
        ensures few { IfOk result (λ setup. length setup.controls < 2 ^ 32) }
    {
        let lines = labels.lines.as_slice();
        let words = words_of(alloc, image, lines)?;
        Ok(Setup {
            starts: self.starts_of(alloc, words.as_slice(), lines)?,
            inputs: self.inputs_of(alloc, lines)?,
            echoes: self.echoes_of(alloc, lines)?,
            memories: self.memories_of(alloc, lines)?,
            words,
            leaves: self.leaves_of(alloc, lines)?,
            controls: self.controls_of(alloc, lines)?,
            pc: self.pc_of(alloc, lines)?,
            lines: lines_of(alloc, image.lines.as_slice())?,
            table: self.table_of(alloc, labels)?,
            clock: self.clock_of(alloc, lines)?,
        })
    }

    /// Why the input port bit is a fault.
    fn unbound_fault(&self, alloc: Global, bit: u32) -> BindFault
        ensures { IsNamedUnbound self.now.flat bit result }
    {
        match name_of_bit(alloc, self.flat(), bit) {
            Ok(name) => BindFault::InputUnbound { name },
            Err(_) => BindFault::Memory,
        }
    }

    /// The setup of lines that have no fault, or the least input port bit that they do not bind.
    fn finish(
        &self,
        alloc: Global,
        image: &Image,
        labels: &Labels,
        bound: &Bound,
    ) -> Result<Setup, BindFault>
        requires labels { AreLabels labels.now }
        requires bound { bound_by self.now.flat self.now.clock labels.now.lines ≡ Ok bound.now }
        ensures setup { IfOk result (IsSetupOf self.now.flat self.now.clock image.now labels.now) }
        ensures bound { IfOk result (IsBoundTo self.now.flat) }
        ensures fault { IfErr result (IsBindFault self.now.flat self.now.clock labels.now) }
    {
        let _bits = self.bits();
        match self.first_unbound(bound) {
            Some(bit) => Err(self.unbound_fault(alloc, bit)),
            None => match self.setup_of(alloc, image, labels) {
                Ok(setup) => Ok(setup),
                Err(_) => Err(BindFault::Memory),
            },
        }
    }
}

/// The setup of a run: what the lines of a label file say of the bits of a netlist, with the words of a program; or the
/// first fault, line by line and net by net, and then the least input port bit that no line binds. The numbers of controls
/// are numbers of 32 bits: more of them count as want of memory.
pub fn bind(
    alloc: Global,
    graph: &Graph,
    flat: &Flat,
    image: &Image,
    labels: &Labels,
) -> Result<Setup, BindFault>
    requires graph { IsGraphOf flat.now graph.now }
    requires labels { AreLabels labels.now }
    ensures setup { IfOk result (IsSetupOf flat.now graph.now.clock image.now labels.now) }
    ensures bound { IfOk result (IsBoundTo flat.now) }
    ensures fault { IfErr result (IsBindFault flat.now graph.now.clock labels.now) }
{
    let Ok(circuit) = Circuit::new(alloc, graph, flat) else {
        return Err(BindFault::Memory);
    };
    match circuit.bound_by(alloc, labels.lines.as_slice()) {
        Ok(bound) => circuit.finish(alloc, image, labels, &bound),
        Err(fault) => Err(fault),
    }
}
