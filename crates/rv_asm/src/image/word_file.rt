//! Files of words: eight hexadecimal digits a line.
ghost use Rattle.std.specs.Prelude.{◌≡◌, IfOk, IfErr, OnOk};
ghost use Rattle.std.specs.List.{list_all};
ghost use Rattle.std.specs.Str.Lines.{lines};
ghost use Rattle.rv_asm.specs.Regions.{IsWithinRegions};
ghost use Rattle.coco_base.specs.Texts.{is_blank};
ghost use Rattle.rv_asm.specs.WordFile.{has_nothing, HasWords, IsLineFault, IsWordFault, TakesLine, word_line};

use crate::fault::AsmFault;
use crate::image::Image;
use crate::layout::place::MOST_CELLS;
use crate::line::tokens::is_blank_byte;
use coco_base::next_line;
use std::alloc::Global;

// What a line of a word file holds.
#[derive(Clone, Copy, Debug, PartialEq, Eq)]
enum WordLine {
    Nothing,
    Word(u32),
    Other,
}

/// The image of a file of words, without data. A line is a word of eight hexadecimal digits of either case, spaces
/// and tabs alone, or anything that begins with `#`. The first other line is answered, or the line of the word 4,097,
/// whichever comes first.
pub fn read_words(alloc: Global, bytes: &[u8]) -> Result<Image, AsmFault>
    ensures image { IfOk result (HasWords (lines bytes.now)) }
    ensures room { IfOk result IsWithinRegions }
    ensures fault { IfErr result (IsWordFault (lines bytes.now)) }
{
    let mut image = Image::empty(alloc);
    let mut rest = bytes;
    let mut number = 0u32;
    'reading: while let Some((line, after)) = next_line(rest) {
        number = number.saturating_add(1);
        take_line(&mut image, line, number)?;
        rest = after;
    }
    Ok(image)
}

// Adds the word of a line to the image.
fn take_line(image: &mut Image, line: &[u8], number: u32) -> Result<(), AsmFault>
    ensures ok { OnOk result (TakesLine image.old image.new line.now number) }
    ensures fault { IfErr result (IsLineFault image.old line.now number) }
{
    match word_on(line) {
        WordLine::Nothing => Ok(()),
        WordLine::Word(word) => {
            if image.text.len() as u64 >= MOST_CELLS {
                return Err(AsmFault::Range { line: number });
            }
            image.push(word, number)?;
            Ok(())
        }
        WordLine::Other => Err(AsmFault::BadLine { line: number }),
    }
}

fn word_on(line: &[u8]) -> WordLine
    ensures { result ≡ word_line line.now }
{
    if holds_nothing(line) {
        return WordLine::Nothing;
    }
    let mut word = [0u8; 4];
    match hex::decode_to_slice(line, &mut word) {
        Ok(()) => WordLine::Word(u32::from_be_bytes(word)),
        Err(_) => WordLine::Other,
    }
}

fn holds_nothing(line: &[u8]) -> bool
    ensures { result ≡ has_nothing line.now }
{
    is_all_blank(line) || line.starts_with(b"#")
}

fn is_all_blank(line: &[u8]) -> bool
    ensures { result ≡ list_all is_blank line.now }
{
    line.iter().all(|b| is_blank_byte(*b))
}
