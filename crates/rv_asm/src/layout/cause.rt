ghost use Rattle.std.specs.Prelude.{◌≡◌};
ghost use Rattle.rv_asm.specs.declared.layout.cause.Cause.TheVariants.{Memory};
ghost use Rattle.rv_asm.specs.Causes.{cause_of, fault_of};

use crate::fault::AsmFault;
use crate::line::reading::Unread;
use coco_base::NoMemory;
use std::alloc::AllocError;

// What is wrong with a line: as in `AsmFault`, without the line.
#[derive(Clone, Copy, Debug, PartialEq, Eq)]
pub(crate) enum Cause {
    BadLine,
    UnknownName,
    Range,
    Twice,
    Memory,
}

impl From<NoMemory> for Cause {
    ghost from_gives = { λ _ e. e ≡ Memory };

    fn from(_: NoMemory) -> Self {
        Cause::Memory
    }
}

impl From<AllocError> for Cause {
    ghost from_gives = { λ _ e. e ≡ Memory };

    fn from(_: AllocError) -> Self {
        Cause::Memory
    }
}

impl From<Unread> for Cause {
    ghost from_gives = { λ u e. e ≡ cause_of u };

    fn from(unread: Unread) -> Self {
        match unread {
            Unread::Memory => Cause::Memory,
            Unread::Other => Cause::BadLine,
        }
    }
}

impl Cause {
    // The fault of the line of this number.
    pub(crate) fn at(self, line: u32) -> AsmFault
        ensures { result ≡ fault_of line self }
    {
        match self {
            Cause::BadLine => AsmFault::BadLine { line },
            Cause::UnknownName => AsmFault::UnknownName { line },
            Cause::Range => AsmFault::Range { line },
            Cause::Twice => AsmFault::Twice { line },
            Cause::Memory => AsmFault::Memory,
        }
    }
}
