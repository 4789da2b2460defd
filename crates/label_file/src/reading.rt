//! What the lines so far say, and what a line adds.
ghost use Rattle.std.specs.Prelude.{◌≡◌, ◌≤◌, ◌*◌, OnOk};
ghost use Rattle.label_file.specs.Causes.{Answers};
ghost use Rattle.label_file.specs.Readings.{HasSpace, IsNew, added, empty, indexed, labels_after, with_mask, with_secret};

use crate::addresses::Addresses;
use crate::cause::Cause;
use crate::line::LabelLine;
use crate::names::{Meaning, Names};
use coco_base::{LabelTable, List, MaskPlan, NoMemory, SecretPlan, Text};
use std::alloc::Global;

/// What the lines so far say: the names that they declare, the addresses of `mem` and of `leaf` lines, the lines
/// themselves, and the labels.
#[derive(Debug, Drop)]
pub(crate) struct Reading {
    pub(crate) names: Names,
    pub(crate) words: Addresses,
    pub(crate) leaves: Addresses,
    pub(crate) lines: List<LabelLine>,
    pub(crate) table: LabelTable,
}

/// The number of labels with `more` added.
#[tactic(auto, unfolding(crate::specs::Readings::labels_after))]
fn labels_after(limit: u32, declared: u32, more: u64) -> Result<u32, Cause>
    requires { more ≤ 4294967295 * 4294967295 }
    ensures { Answers (λ n. n) result (labels_after limit declared more) }
{
    let count = u64::from(declared) + more;
    let limit = u64::from(limit);
    if count <= limit {
        Ok(count as u32)
    } else {
        Err(Cause::TooMany { count, limit })
    }
}

impl Reading {
    pub(crate) fn new(alloc: Global) -> Reading
        ensures { result ≡ empty }
    {
        Reading {
            names: Names::new(alloc),
            words: Addresses::new(alloc),
            leaves: Addresses::new(alloc),
            lines: List::new(alloc),
            table: LabelTable {
                secrets: List::new(alloc),
                masks: List::new(alloc),
                fresh: List::new(alloc),
                declared: 0,
                per_cycle: 0,
            },
        }
    }

    fn add_secret(
        &mut self,
        alloc: Global,
        name: &Text,
        width: u32,
        shares: u32,
        declared: u32,
    ) -> Result<(), NoMemory>
        requires { IsNew self.old name.now }
        ensures { OnOk result (self.new ≡ with_secret self.old name.now width shares declared) }
    {
        let first = self.table.declared;
        let meaning = Meaning::Secret {
            first,
            width,
            shares,
        };
        self.names.add(alloc, name.as_bytes(), meaning)?;
        self.table.secrets.push(SecretPlan {
            name: Text::of(alloc, name.as_str())?,
            width,
            shares,
            first,
        })?;
        self.table.declared = declared;
        Ok(())
    }

    fn add_mask(
        &mut self,
        alloc: Global,
        name: &Text,
        width: u32,
        declared: u32,
    ) -> Result<(), NoMemory>
        requires { IsNew self.old name.now }
        ensures { OnOk result (self.new ≡ with_mask self.old name.now width declared) }
    {
        let first = self.table.declared;
        self.names
            .add(alloc, name.as_bytes(), Meaning::Mask { first, width })?;
        self.table.masks.push(MaskPlan {
            name: Text::of(alloc, name.as_str())?,
            width,
            first,
        })?;
        self.table.declared = declared;
        Ok(())
    }

    /// Adds the name, the address and the labels of a line.
    fn index(&mut self, alloc: Global, limit: u32, line: &LabelLine) -> Result<(), Cause>
        requires { HasSpace self.old line.now }
        ensures { Answers (λ _. self.new) result (indexed limit self.old line.now) }
    {
        match line {
            LabelLine::Secret {
                name,
                width,
                shares,
            } => {
                let more = u64::from(*shares) * u64::from(*width);
                let declared = labels_after(limit, self.table.declared, more)?;
                self.add_secret(alloc, name, *width, *shares, declared)?;
            }
            LabelLine::Mask { name, width } => {
                let declared = labels_after(limit, self.table.declared, u64::from(*width))?;
                self.add_mask(alloc, name, *width, declared)?;
            }
            LabelLine::Fresh { name, .. } => self
                .names
                .add(alloc, name.as_bytes(), Meaning::Fresh)?,
            LabelLine::Mem { address, .. } => self.words.add(*address)?,
            LabelLine::Leaf { address } => self.leaves.add(*address)?,
            _ => {}
        }
        Ok(())
    }

    /// Adds a line.
    #[tactic(auto, unfolding(crate::specs::Readings::added))]
    pub(crate) fn add(&mut self, alloc: Global, limit: u32, line: LabelLine) -> Result<(), Cause>
        requires { HasSpace self.old line }
        ensures { Answers (λ _. self.new) result (added limit self.old line) }
    {
        self.index(alloc, limit, &line)?;
        self.lines.push(line)?;
        Ok(())
    }
}
