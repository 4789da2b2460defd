ghost use Rattle.std.specs.Prelude.{◌≡◌};
ghost use Rattle.rv_asm.specs.declared.fault.AsmFault.TheVariants.{Memory};

use coco_base::NoMemory;

/// Why a text gives no image. Lines count from 1; numbers past the last `u32` stay there.
#[derive(Clone, Copy, Debug, PartialEq, Eq)]
pub enum AsmFault {
    /// The line is outside the language.
    BadLine { line: u32 },
    /// The line has a name that nothing defines, or one that `.equ`, `.set` or `li` needs defined on a line before, as a
    /// number.
    UnknownName { line: u32 },
    /// The line has a number, a value, a count or an alignment outside its range, or passes the end of a region.
    Range { line: u32 },
    /// The line defines a name that is defined before.
    Twice { line: u32 },
    /// Memory was refused.
    Memory,
}

impl From<NoMemory> for AsmFault {
    ghost from_gives = { λ _ e. e ≡ Memory };

    fn from(_: NoMemory) -> Self {
        AsmFault::Memory
    }
}
