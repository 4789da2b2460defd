ghost use Rattle.std.specs.Prelude.{◌≡◌};
ghost use Rattle.rv_asm.specs.declared.line.reading.Unread.TheVariants.{Memory};

use coco_base::NoMemory;

// Why the front of a line is not read.
#[derive(Clone, Copy, Debug, PartialEq, Eq)]
pub(crate) enum Unread {
    // Memory was refused.
    Memory,
    // It has another form.
    Other,
}

impl From<NoMemory> for Unread {
    ghost from_gives = { λ _ e. e ≡ Memory };

    fn from(_: NoMemory) -> Self {
        Unread::Memory
    }
}
