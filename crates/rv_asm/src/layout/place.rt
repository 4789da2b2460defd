//! Places in the two parts of memory.
ghost use Rattle.std.specs.Prelude.{◌≡◌, ◌<◌, ◌^◌, ℤ, pos};
ghost use Rattle.rv_asm.specs.Causes.{Answers};
ghost use Rattle.rv_asm.specs.Layouts.{address_of, after_cells, in_part, used_in};

use crate::layout::cause::Cause;
use crate::line::statement::Part;

// The part that is written to, and how far each part is written.
#[derive(Clone, Copy, Debug, PartialEq, Eq)]
pub(crate) struct Place {
    pub(crate) part: Part,
    // The words of the text so far.
    pub(crate) words: u32,
    // The bytes of the data so far.
    pub(crate) bytes: u32,
}

// The most words of the text, and the most bytes of the data.
pub(crate) const MOST_CELLS: u64 = 4096;

impl Place {
    // The address of what comes next.
    pub(crate) fn address(self) -> u64
        ensures value { result ≡ address_of self }
        ensures small { result < 2 ^ 35 }
    {
        match self.part {
            Part::Text => 4 * u64::from(self.words),
            Part::Data => 0x1_0000 + u64::from(self.bytes),
        }
    }

    // The address as a value.
    pub(crate) fn here(self) -> i64
        ensures { result ≡ pos (address_of self) }
    {
        self.address() as i64
    }

    // The same place in this part.
    pub(crate) fn in_part(self, part: Part) -> Place
        ensures { result ≡ in_part part self }
    {
        Place { part, ..self }
    }

    fn used(self) -> u64
        ensures value { result ≡ used_in self.part self }
        ensures small { result < 2 ^ 32 }
    {
        match self.part {
            Part::Text => u64::from(self.words),
            Part::Data => u64::from(self.bytes),
        }
    }

    // The place `count` words or bytes on.
    pub(crate) fn after_cells(self, count: u64) -> Result<Place, Cause>
        ensures { Answers (λ p. p) result (after_cells self count) }
    {
        if count > MOST_CELLS || self.used() + count > MOST_CELLS {
            return Err(Cause::Range);
        }
        match self.part {
            Part::Text => Ok(Place {
                words: self.words + count as u32,
                ..self
            }),
            Part::Data => Ok(Place {
                bytes: self.bytes + count as u32,
                ..self
            }),
        }
    }
}
