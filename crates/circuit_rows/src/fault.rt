ghost use Rattle.std.specs.Prelude.{◌≡◌};
ghost use Rattle.circuit_rows.specs.declared.fault.RowFault.TheVariants.{Memory};

use coco_base::NoMemory;
use std::alloc::{AllocError, AllocFailed};
use thiserror::Error;

/// Why rows are no circuit.
#[derive(Clone, Copy, Debug, PartialEq, Eq, Error)]
pub enum RowFault {
    /// The line is outside the notation, repeats a name, or names a bit that no line adds. Lines count from 1.
    #[error("line {line} is no row")]
    Outside { line: u32 },
    /// Memory was refused.
    #[error("no memory")]
    Memory,
}

impl From<NoMemory> for RowFault {
    ghost from_gives = { λ _ e. e ≡ Memory };

    fn from(_: NoMemory) -> Self {
        RowFault::Memory
    }
}

impl From<AllocError> for RowFault {
    ghost from_gives = { λ _ e. e ≡ Memory };

    fn from(_: AllocError) -> Self {
        RowFault::Memory
    }
}

impl<T: Drop> From<AllocFailed<T>> for RowFault {
    ghost from_gives = { λ _ e. e ≡ Memory };

    fn from(_: AllocFailed<T>) -> Self {
        RowFault::Memory
    }
}
