//! Programs in assembly as images.
ghost use Rattle.std.specs.Prelude.{◌≡◌, ◌<◌, ◌≤◌, [], ◌∷◌, ◌++◌, length, map, IfErr, IfOk, IfSome, MatchOption, OnOk};
ghost use Rattle.std.specs.Str.Lines.{lines};
ghost use Rattle.rv_asm.specs.Causes.{Answers};
ghost use Rattle.rv_asm.specs.Regions.{IsWithinRegions};
ghost use Rattle.rv_asm.specs.Programs.{all_known, AreWithin, FailsUnlessMemory, HasPlaced, HasPut, IsFaultOf, IsImageOf, IsOutsideAt, PutsWords, stored_bytes, words_of, words_of_bytes};

use crate::fault::AsmFault;
use crate::image::Image;
use crate::layout::cause::Cause;
use crate::layout::content::{Content, bytes_each, has_outside};
use crate::layout::demands::all_words;
use crate::layout::names::Names;
use crate::layout::values::is_known;
use crate::layout::{Cut, Layout, Placed, lay_out};
use crate::line::expression::Expr;
use crate::line::statement::Part;
use crate::lists::list_of;
use coco_base::{List, NoMemory};
use std::alloc::Global;

// Whether the names of all expressions are defined.
fn all_known(names: &Names, values: &[Expr]) -> bool
    ensures { result ≡ all_known names.now values.now }
{
    values.iter().all(|value| is_known(names, value))
}

// The words of what is placed, with the names of the program.
fn words_of(alloc: Global, names: &Names, placed: &Placed) -> Result<List<u32>, Cause>
    ensures { Answers (λ l. l) result (words_of names.now placed.now) }
{
    match &placed.content {
        Content::Known(words) => Ok(list_of(alloc, words.as_slice())?),
        Content::Fill { count, word } => Ok(List::from_vec(
            vec![in alloc; *word; *count as usize]?,
        )),
        Content::Asked { demand, values } => {
            if all_known(names, values.as_slice()) {
                all_words(
                    alloc,
                    names,
                    placed.place.here(),
                    *demand,
                    values.as_slice(),
                )
            } else {
                Err(Cause::UnknownName)
            }
        }
    }
}

// The text, with the words of a line.
fn put_text(image: &mut Image, words: &[u32], line: u32) -> Result<(), NoMemory>
    ensures text { OnOk result (image.new.text ≡ image.old.text ++ words.now) }
    ensures lines { OnOk result (image.new.lines ≡ image.old.lines ++ map (λ _. line) words.now) }
    ensures values { image.new.values ≡ image.old.values }
{
    'words: for word in words {
        image.push(*word, line)?;
    }
    Ok(())
}

// The data, with the first `count` bytes of each word, the lowest first.
fn put_data(bytes: &mut Vec<u8>, words: &[u32], count: u64) -> Result<(), NoMemory>
    requires { count ≤ 4 }
    ensures { OnOk result (bytes.new.items ≡ bytes.old.items ++ stored_bytes count words.now) }
{
    'words: for word in words {
        bytes.extend_from_slice(&word.to_le_bytes()[..count as usize])?;
    }
    Ok(())
}

// The image without its data's words, and the bytes of its data.
#[derive(Debug, Drop)]
struct Memory {
    image: Image,
    bytes: Vec<u8>,
}

// Puts words where they are placed.
fn put_words(memory: &mut Memory, placed: &Placed, words: &[u32]) -> Result<(), NoMemory>
    ensures { OnOk result (PutsWords memory.old memory.new placed.now words.now) }
{
    match placed.place.part {
        Part::Text => put_text(&mut memory.image, words, placed.line),
        Part::Data => put_data(&mut memory.bytes, words, bytes_each(&placed.content)),
    }
}

// Puts all that is placed, or answers the first that has a fault.
fn put_all(alloc: Global, names: &Names, placed: &[Placed]) -> Result<Memory, AsmFault>
    ensures ok { IfOk result (HasPut names.now placed.now) }
    ensures fault { IfErr result (FailsUnlessMemory names.now placed.now) }
{
    let mut memory = Memory {
        image: Image::empty(alloc),
        bytes: Vec::new(alloc),
    };
    'placed: for item in placed {
        match words_of(alloc, names, item) {
            Ok(words) => put_words(&mut memory, item, words.as_slice())?,
            Err(cause) => return Err(cause.at(item.line)),
        }
    }
    Ok(memory)
}

// The word at the front, and the bytes after it.
fn first_word(bytes: &[u8]) -> Option<(u32, &[u8])>
    ensures word { MatchOption result (words_of_bytes bytes.now ≡ [])
        (λ p. words_of_bytes bytes.now ≡ p.0 ∷ words_of_bytes p.1.now) }
    ensures shorter { IfSome result (λ p. length p.1.now < length bytes.now) }
{
    match bytes {
        [] => None,
        [a] => Some((u32::from_le_bytes([*a, 0, 0, 0]), &[])),
        [a, b] => Some((u32::from_le_bytes([*a, *b, 0, 0]), &[])),
        [a, b, c] => Some((u32::from_le_bytes([*a, *b, *c, 0]), &[])),
        [a, b, c, d, rest @ ..] => Some((u32::from_le_bytes([*a, *b, *c, *d]), rest)),
    }
}

// The words of bytes, of which the last is filled with zeros.
fn words_of_bytes(alloc: Global, bytes: &[u8]) -> Result<List<u32>, NoMemory>
    ensures { IfOk result (λ l. l ≡ words_of_bytes bytes.now) }
{
    let mut words = List::new(alloc);
    let mut rest = bytes;
    'words: while let Some((word, after)) = first_word(rest) {
        words.push(word)?;
        rest = after;
    }
    Ok(words)
}

// The image of what is placed, with the names of the program.
fn image_of(alloc: Global, names: &Names, placed: &[Placed]) -> Result<Image, AsmFault>
    ensures ok { IfOk result (HasPlaced names.now placed.now) }
    ensures fault { IfErr result (FailsUnlessMemory names.now placed.now) }
{
    let Memory { image, bytes } = put_all(alloc, names, placed)?;
    let Image { text, lines, .. } = image;
    let values = words_of_bytes(alloc, &bytes)?;
    Ok(Image {
        text,
        values,
        lines,
    })
}

// The first line with a value that is known and outside what is asked for.
fn outside_line(alloc: Global, names: &Names, placed: &[Placed]) -> Result<Option<u32>, NoMemory>
    ensures { IfOk result
        (λ line. MatchOption line (AreWithin names.now placed.now) (IsOutsideAt names.now placed.now)) }
{
    'placed: for item in placed {
        if has_outside(alloc, names, item.place, &item.content)? {
            return Ok(Some(item.line));
        }
    }
    Ok(None)
}

/// The image of a program in assembly, which `docs/formats-assembly.md` describes.
///
/// Each line has labels and then a statement or none. The image has the words of the text, the line of each, and the words
/// of the data. The least line at fault is answered: `BadLine` for a line outside the language, `Twice` for a name that is
/// defined before, `UnknownName` for a name that is not defined, and `Range` for a value outside its field or a part
/// without room, in this order within a line. The least line that is at fault by what it and the lines before it hold
/// stops the reading: then values before it are outside their fields only by the names of the lines before it.
pub fn assemble(alloc: Global, bytes: &[u8]) -> Result<Image, AsmFault>
    ensures image { IfOk result (IsImageOf (lines bytes.now)) }
    ensures room { IfOk result IsWithinRegions }
    ensures fault { IfErr result (IsFaultOf (lines bytes.now)) }
{
    let Cut { layout, fault } = lay_out(alloc, bytes)?;
    let Layout { names, placed, .. } = layout;
    match fault {
        Some(fault) => match outside_line(alloc, &names, placed.as_slice())? {
            Some(line) => Err(AsmFault::Range { line }),
            None => Err(fault),
        },
        None => image_of(alloc, &names, placed.as_slice()),
    }
}
