//! What inputs come of lines.
ghost use Rattle.std.specs.Prelude.{◌≡◌, ◌<◌, ◌+◌, ◌^◌, ◌++◌, ◌∷◌, [], length, All, IfOk, OnOk};
ghost use Rattle.bind_run.specs.Inputs.{fresh_count, fresh_width, input_plan, inputs_of, line_inputs, starts_at};
ghost use Rattle.bind_run.specs.Values.{HasRoom, HaveRoom, LineHasRoom, at_bits};

use crate::circuit::Circuit;
use crate::items::first;
use crate::values::starts_at;
use coco_base::{InputPlan, List, NoMemory, Start, Wire};
use label_file::{LabelLine, LabelValue};
use std::alloc::Global;

/// Adds an input with values for each bit among wires.
fn push_inputs(
    alloc: Global,
    plans: &mut Vec<InputPlan>,
    wires: &[Wire],
    values: &[LabelValue],
) -> Result<(), NoMemory>
    requires { All HasRoom values.now }
    ensures { OnOk result (plans.new.items ≡ plans.old.items
        ++ at_bits (λ k b. input_plan b (starts_at values.now k)) 0 wires.now) }
{
    let mut rest = wires;
    let mut place = 0usize;
    'wires: while let Some((wire, more)) = first(rest) {
        if let Wire::Bit(bit) = *wire {
            plans.push(InputPlan {
                bit,
                values: starts_at(alloc, values, place)?,
            })?;
        }
        place += 1;
        rest = more;
    }
    Ok(())
}

fn one_start(alloc: Global, start: Start) -> Result<List<Start>, NoMemory>
    ensures { IfOk result (λ starts. starts ≡ start ∷ []) }
{
    let mut starts = List::new(alloc);
    starts.push(start)?;
    Ok(starts)
}

/// Adds an input with labels of a cycle for each bit among wires.
fn push_fresh(
    alloc: Global,
    plans: &mut Vec<InputPlan>,
    wires: &[Wire],
    fresh: u32,
) -> Result<(), NoMemory>
    requires { fresh + length wires.now < 2 ^ 32 }
    ensures { OnOk result (plans.new.items ≡ plans.old.items
        ++ at_bits (λ k b. input_plan b (Start.Fresh (fresh + k) ∷ [])) 0 wires.now) }
{
    let mut rest = wires;
    let mut place = 0u32;
    'wires: while let Some((wire, more)) = first(rest) {
        if let Wire::Bit(bit) = *wire {
            plans.push(InputPlan {
                bit,
                values: one_start(alloc, Start::Fresh(fresh + place))?,
            })?;
        }
        place += 1;
        rest = more;
    }
    Ok(())
}

impl Circuit<'_> {
    /// Adds the inputs of a line.
    fn push_line_inputs(
        &self,
        alloc: Global,
        plans: &mut Vec<InputPlan>,
        fresh: u32,
        line: &LabelLine,
    ) -> Result<(), NoMemory>
        requires room { LineHasRoom line.now }
        requires few { fresh + fresh_width self.now.flat line.now < 2 ^ 32 }
        ensures { OnOk result (plans.new.items ≡ plans.old.items ++ line_inputs self.now.flat fresh line.now) }
    {
        match line {
            LabelLine::Input { net, values } => {
                push_inputs(alloc, plans, self.wires(net.as_str()), values.as_slice())
            }
            LabelLine::Fresh { net, .. } => {
                push_fresh(alloc, plans, self.wires(net.as_str()), fresh)
            }
            _ => Ok(()),
        }
    }

    /// The inputs of lines, in the order of the lines and of the places of each net.
    pub(crate) fn inputs_of(
        &self,
        alloc: Global,
        lines: &[LabelLine],
    ) -> Result<List<InputPlan>, NoMemory>
        requires room { HaveRoom lines.now }
        requires few { fresh_count self.now.flat lines.now < 2 ^ 32 }
        ensures { IfOk result (λ plans. plans ≡ inputs_of self.now.flat 0 lines.now) }
    {
        let mut plans = Vec::new(alloc);
        let mut fresh = 0u32;
        let mut rest = lines;
        'lines: while let Some((line, more)) = first(rest) {
            self.push_line_inputs(alloc, &mut plans, fresh, line)?;
            fresh += self.fresh_width(line) as u32;
            rest = more;
        }
        Ok(List::from_vec(plans))
    }
}
