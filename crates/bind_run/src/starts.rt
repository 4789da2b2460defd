//! What each bit starts at.
ghost use Rattle.std.specs.Prelude.{◌≡◌, ◌<◌, ◌+◌, ◌^◌, length, false, replicate, IfOk, OnOk};
ghost use Rattle.bind_run.specs.Inputs.{fresh_count, fresh_width, given_starts, line_starts, starts_of, with_starts};
ghost use Rattle.bind_run.specs.Sources.{SourceHasRoom, source_start, source_starts};
ghost use Rattle.bind_run.specs.Values.{HaveRoom, LineHasRoom, at_bits};
ghost use Rattle.coco_model.specs.Carried.{word_start};

use crate::circuit::Circuit;
use crate::items::first;
use crate::leaf_name::leaf_name;
use crate::values::{first_start, value_start};
use coco_base::{List, NoMemory, Start, Wire, WordPlan};
use label_file::{LabelLine, LabelValue};
use std::alloc::Global;

/// Where the starts of a net's bits come from: a value, the first of values, the labels of a cycle from a number on, or
/// the memory word at an address.
#[derive(Clone, Copy, Debug)]
pub(crate) enum Source<'a> {
    Value(LabelValue),
    First(&'a [LabelValue]),
    Fresh(u32),
    Word(&'a [WordPlan], u32),
}

/// What the bit at a place of the memory word at an address starts at.
fn word_start(words: &[WordPlan], address: u32, place: usize) -> Start
    ensures { result ≡ word_start words.now address place }
{
    let mut rest = words;
    'words: while let Some((word, more)) = first(rest) {
        if word.address == address {
            return match word.bits.as_slice().get(place) {
                Some(start) => *start,
                None => Start::Public(false),
            };
        }
        rest = more;
    }
    Start::Public(false)
}

/// What the bit at a place starts at.
fn source_start(source: Source<'_>, place: usize) -> Start
    requires { SourceHasRoom (place + 1) source }
    ensures { result ≡ source_start source.entry place }
{
    match source {
        Source::Value(value) => value_start(value, place),
        Source::First(values) => first_start(values, place),
        Source::Fresh(first) => Start::Fresh(first + place as u32),
        Source::Word(words, address) => word_start(words, address, place),
    }
}

/// Gives the bits among wires their starts.
fn give(starts: &mut [Start], wires: &[Wire], source: Source<'_>)
    requires { SourceHasRoom (length wires.now) source }
    ensures { starts.new ≡ with_starts starts.old (source_starts source.entry 0 wires.now) }
{
    let mut rest = wires;
    let mut place = 0usize;
    'wires: while let Some((wire, more)) = first(rest) {
        if let Wire::Bit(bit) = *wire {
            if (bit as usize) < starts.len() {
                starts[bit as usize] = source_start(source, place);
            }
        }
        place += 1;
        rest = more;
    }
}

impl Circuit<'_> {
    /// Gives the bits of a line their starts.
    fn give_line(
        &self,
        alloc: Global,
        starts: &mut [Start],
        words: &[WordPlan],
        fresh: u32,
        line: &LabelLine,
    ) -> Result<(), NoMemory>
        requires room { LineHasRoom line.now }
        requires few { fresh + fresh_width self.now.flat line.now < 2 ^ 32 }
        ensures { OnOk result (starts.new
            ≡ with_starts starts.old (line_starts self.now.flat words.now fresh line.now)) }
    {
        match line {
            LabelLine::Reg { net, value } => {
                give(starts, self.wires(net.as_str()), Source::Value(*value));
            }
            LabelLine::Input { net, values } => {
                give(
                    starts,
                    self.wires(net.as_str()),
                    Source::First(values.as_slice()),
                );
            }
            LabelLine::Fresh { net, .. } => {
                give(starts, self.wires(net.as_str()), Source::Fresh(fresh));
            }
            LabelLine::Leaf { address } => {
                let name = leaf_name(alloc, *address)?;
                give(
                    starts,
                    self.wires(name.as_str()),
                    Source::Word(words, *address),
                );
            }
            _ => {}
        }
        Ok(())
    }

    /// What each bit starts at.
    pub(crate) fn starts_of(
        &self,
        alloc: Global,
        words: &[WordPlan],
        lines: &[LabelLine],
    ) -> Result<List<Start>, NoMemory>
        requires room { HaveRoom lines.now }
        requires few { fresh_count self.now.flat lines.now < 2 ^ 32 }
        ensures { IfOk result (λ starts. starts ≡ starts_of self.now.flat words.now lines.now) }
    {
        let mut starts = public_starts(alloc, self.bits())?;
        let mut fresh = 0u32;
        let mut rest = lines;
        'lines: while let Some((line, more)) = first(rest) {
            self.give_line(alloc, starts.as_mut_slice(), words, fresh, line)?;
            fresh += self.fresh_width(line) as u32;
            rest = more;
        }
        Ok(List::from_vec(starts))
    }
}

/// So many bits that start at public 0.
fn public_starts(alloc: Global, bits: u32) -> Result<Vec<Start>, NoMemory>
    ensures { IfOk result (λ starts. starts.items ≡ replicate bits (Start.Public false)) }
{
    let mut starts = Vec::with_capacity(alloc, bits as usize)?;
    'bits: for _bit in 0..bits {
        starts.push(Start::Public(false))?;
    }
    Ok(starts)
}
