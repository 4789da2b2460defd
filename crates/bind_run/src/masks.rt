//! The fresh masks of lines, whose widths their nets tell.
ghost use Rattle.std.specs.Prelude.{◌≡◌, ◌<◌, ◌+◌, ◌^◌, IfOk, OnOk, ◌++◌};
ghost use Rattle.bind_run.specs.Inputs.{fresh_count, fresh_masks, fresh_width, line_masks};

use crate::circuit::Circuit;
use crate::copies::name_of;
use crate::items::first;
use coco_base::{List, MaskPlan, NoMemory};
use label_file::LabelLine;
use std::alloc::Global;

impl Circuit<'_> {
    /// How many labels a line adds to each cycle.
    pub(crate) fn fresh_width(&self, line: &LabelLine) -> usize
        ensures { result ≡ fresh_width self.now.flat line.now }
    {
        match line {
            LabelLine::Fresh { net, .. } => self.wires(net.as_str()).len(),
            _ => 0,
        }
    }

    /// How many labels lines add to each cycle.
    pub(crate) fn fresh_count(&self, lines: &[LabelLine]) -> u32
        requires { fresh_count self.now.flat lines.now < 2 ^ 32 }
        ensures { result ≡ fresh_count self.now.flat lines.now }
    {
        let mut count = 0u32;
        let mut rest = lines;
        'lines: while let Some((line, more)) = first(rest) {
            count += self.fresh_width(line) as u32;
            rest = more;
        }
        count
    }

    /// The fresh masks of lines, in order.
    pub(crate) fn fresh_masks(
        &self,
        alloc: Global,
        lines: &[LabelLine],
    ) -> Result<List<MaskPlan>, NoMemory>
        requires { fresh_count self.now.flat lines.now < 2 ^ 32 }
        ensures { IfOk result (λ masks. masks ≡ fresh_masks self.now.flat 0 lines.now) }
    {
        let mut masks = Vec::new(alloc);
        let mut fresh = 0u32;
        let mut rest = lines;
        'lines: while let Some((line, more)) = first(rest) {
            let width = self.fresh_width(line) as u32;
            if let LabelLine::Fresh { name, .. } = line {
                masks.push(MaskPlan {
                    name: name_of(alloc, name)?,
                    width,
                    first: fresh,
                })?;
            }
            fresh += width;
            rest = more;
        }
        Ok(List::from_vec(masks))
    }
}
