//! What the nets of lines are taken for, line by line.
ghost use Rattle.std.specs.Prelude.{◌≡◌, ℕ, map, MatchOption};
ghost use Rattle.bind_run.specs.Binding.{IsLeastUnbound, IsUnbound, after_needs, bound_by};
ghost use Rattle.bind_run.specs.Causes.{Answers};
ghost use Rattle.bind_run.specs.Needs.{need, needs_of, port_needs};
ghost use Rattle.bind_run.specs.SeenNeeds.{seen_need, seen_width};

use crate::bound::Bound;
use crate::circuit::Circuit;
use crate::fault::BindFault;
use crate::items::first;
use crate::leaf_name::leaf_name;
use crate::need::{Need, Role, Width};
use coco_base::Text;
use label_file::LabelLine;
use std::alloc::Global;

fn reads<'a>(word: &'a Text, width: Width<'a>) -> Need<'a>
    ensures { seen_need result ≡ need word.entry.now (seen_width width.entry) Role.Read }
{
    Need {
        word: word.as_str(),
        width,
        role: Role::Read,
    }
}

fn binds<'a>(word: &'a Text, width: Width<'a>, role: Role) -> Need<'a>
    ensures { seen_need result ≡ need word.entry.now (seen_width width.entry) role }
{
    Need {
        word: word.as_str(),
        width,
        role,
    }
}

impl Circuit<'_> {
    fn take_each(
        &self,
        alloc: Global,
        bound: &mut Bound,
        needs: &[Need<'_>],
    ) -> Result<(), BindFault>
        ensures { Answers (λ _. bound.new) result
            (after_needs self.now.flat self.now.clock bound.old (map seen_need needs.now)) }
    {
        let mut rest = needs;
        'needs: while let [need, more @ ..] = rest {
            self.take(alloc, bound, *need)?;
            rest = more;
        }
        Ok(())
    }

    /// Takes the nets of a memory port.
    fn take_port(&self, alloc: Global, bound: &mut Bound, line: &LabelLine) -> Result<(), BindFault>
        ensures { Answers (λ _. bound.new) result
            (after_needs self.now.flat self.now.clock bound.old (port_needs line.now)) }
    {
        match line {
            LabelLine::Imem {
                request,
                address,
                answer,
            } => {
                let needs = [
                    reads(request, Width::Exactly(1)),
                    reads(address, Width::Number),
                    binds(answer, Width::Exactly(32), Role::Input),
                ];
                self.take_each(alloc, bound, &needs)
            }
            LabelLine::Dmem {
                request,
                write,
                enables,
                address,
                value,
                answer,
            } => {
                let needs = [
                    reads(request, Width::Exactly(1)),
                    reads(write, Width::Exactly(1)),
                    reads(enables, Width::Exactly(4)),
                    reads(address, Width::Number),
                    reads(value, Width::Exactly(32)),
                    binds(answer, Width::Exactly(32), Role::Input),
                ];
                self.take_each(alloc, bound, &needs)
            }
            _ => Ok(()),
        }
    }

    fn take_echo(
        &self,
        alloc: Global,
        bound: &mut Bound,
        net: &Text,
        source: &Text,
    ) -> Result<(), BindFault>
        ensures { Answers (λ _. bound.new) result
            (after_needs self.now.flat self.now.clock bound.old
            (needs_of self.now.flat (LabelLine.Echo net.now source.now))) }
    {
        let width = self.wires(net.as_str()).len();
        let needs = [
            binds(net, Width::Any, Role::Input),
            reads(source, Width::Exactly(width)),
        ];
        self.take_each(alloc, bound, &needs)
    }

    fn take_leaf(&self, alloc: Global, bound: &mut Bound, address: u32) -> Result<(), BindFault>
        ensures { Answers (λ _. bound.new) result
            (after_needs self.now.flat self.now.clock bound.old (needs_of self.now.flat (LabelLine.Leaf address))) }
    {
        let name = leaf_name(alloc, address)?;
        self.take_each(
            alloc,
            bound,
            &[binds(&name, Width::Exactly(32), Role::Input)],
        )
    }

    /// Takes the nets of a line.
    fn take_line(&self, alloc: Global, bound: &mut Bound, line: &LabelLine) -> Result<(), BindFault>
        ensures { Answers (λ _. bound.new) result
            (after_needs self.now.flat self.now.clock bound.old (needs_of self.now.flat line.now)) }
    {
        let need = match line {
            LabelLine::Fresh { net, .. } => binds(net, Width::Any, Role::Input),
            LabelLine::Reg { net, value } => binds(net, Width::Value(*value), Role::Flop),
            LabelLine::Input { net, values } => {
                binds(net, Width::Values(values.as_slice()), Role::Input)
            }
            LabelLine::Leaf { address } => return self.take_leaf(alloc, bound, *address),
            LabelLine::Echo { net, source } => return self.take_echo(alloc, bound, net, source),
            LabelLine::Clock { net } => binds(net, Width::Exactly(1), Role::Clock),
            LabelLine::Control { net } => reads(net, Width::Any),
            LabelLine::Pc { net } => reads(net, Width::Number),
            _ => return self.take_port(alloc, bound, line),
        };
        self.take_each(alloc, bound, &[need])
    }

    /// The bits that lines bind, or the first fault of their nets.
    pub(crate) fn bound_by(&self, alloc: Global, lines: &[LabelLine]) -> Result<Bound, BindFault>
        ensures { Answers (λ b. b) result (bound_by self.now.flat self.now.clock lines.now) }
    {
        let mut bound = Bound::new(alloc);
        let mut rest = lines;
        'lines: while let Some((line, more)) = first(rest) {
            match self.take_line(alloc, &mut bound, line) {
                Ok(()) => rest = more,
                Err(fault) => return Err(fault),
            }
        }
        Ok(bound)
    }

    /// The least input port bit that is not bound.
    pub(crate) fn first_unbound(&self, bound: &Bound) -> Option<u32>
        ensures { MatchOption result ((b : ℕ) → IsUnbound self.now.flat bound.now b → ⊥)
            (IsLeastUnbound self.now.flat bound.now) }
    {
        'bits: for bit in 0..self.bits() {
            if self.is_input(bit) && !bound.has(bit) {
                return Some(bit);
            }
        }
        None
    }
}
