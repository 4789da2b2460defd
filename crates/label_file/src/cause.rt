ghost use Rattle.std.specs.Prelude.{◌≡◌};
ghost use Rattle.label_file.specs.declared.cause.Cause.TheVariants.{Memory};
ghost use Rattle.label_file.specs.Causes.{fault_at};

use crate::fault::LabelFault;
use coco_base::NoMemory;

/// What is wrong with a line: as in `LabelFault`, without the line.
#[derive(Clone, Copy, Debug, PartialEq, Eq)]
pub(crate) enum Cause {
    BadLine,
    Twice,
    UnknownSecret,
    ShareRange,
    TooMany { count: u64, limit: u64 },
    Memory,
}

impl From<NoMemory> for Cause {
    ghost from_gives = { λ _ e. e ≡ Memory };

    fn from(_: NoMemory) -> Self {
        Cause::Memory
    }
}

impl Cause {
    /// The fault of the line of this number.
    pub(crate) fn at(self, line: u32) -> LabelFault
        ensures { result ≡ fault_at line self }
    {
        match self {
            Cause::BadLine => LabelFault::BadLine { line },
            Cause::Twice => LabelFault::Twice { line },
            Cause::UnknownSecret => LabelFault::UnknownSecret { line },
            Cause::ShareRange => LabelFault::ShareRange { line },
            Cause::TooMany { count, limit } => LabelFault::TooMany { count, limit },
            Cause::Memory => LabelFault::Memory,
        }
    }
}
