ghost use Rattle.std.specs.Prelude.{◌≡◌, ◌+◌, ◌≤◌, [], ◌∷◌, ◌++◌, length, OnOk};

pub(crate) mod assembler;
pub(crate) mod word_file;

use coco_base::{List, NoMemory};
use std::alloc::Global;

/// A program as words: those of the text, which begins at address 00000000, those of the data, which begin at
/// 00010000, and for each word of the text the line that it comes from.
#[derive(Debug, Drop)]
pub struct Image {
    pub text: List<u32>,
    pub values: List<u32>,
    pub lines: List<u32>,
}

impl Image {
    // The image without words.
    pub(crate) fn empty(alloc: Global) -> Image
        ensures text { result.text ≡ [] }
        ensures values { result.values ≡ [] }
        ensures lines { result.lines ≡ [] }
    {
        Image {
            text: List::new(alloc),
            values: List::new(alloc),
            lines: List::new(alloc),
        }
    }

    // Adds a word to the text.
    pub(crate) fn push(&mut self, word: u32, line: u32) -> Result<(), NoMemory>
        ensures text { OnOk result (self.new.text ≡ self.old.text ++ word ∷ []) }
        ensures values { self.new.values ≡ self.old.values }
        ensures lines { OnOk result (self.new.lines ≡ self.old.lines ++ line ∷ []) }
    {
        self.text.push(word)?;
        self.lines.push(line)?;
        Ok(())
    }
}
