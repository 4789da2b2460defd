//! The memory words that a program and lines give.
ghost use Rattle.std.specs.Prelude.{◌≡◌, ◌≤◌, ◌<◌, ◌+◌, ◌*◌, ◌^◌, ◌++◌, None, Some, flat_map, IfOk, IfSome, OnOk};
ghost use Rattle.std.specs.List.{range_with_len};
ghost use Rattle.bind_run.specs.Values.{HasRoom, HaveRoom};
ghost use Rattle.bind_run.specs.WordPlans.{data_start, data_words, first_of, image_value, mem_lines, mem_value, plans_of, region_plans, text_words, words_of};

use crate::items::first;
use crate::values::word_bits;
use coco_base::{List, NoMemory, WordPlan};
use label_file::{LabelLine, LabelValue};
use rv_asm::Image;
use std::alloc::Global;

/// A part of the memory: where it starts, the program's words there, and what else stands in a word.
#[derive(Clone, Copy, Debug)]
struct Region<'a> {
    start: u32,
    words: &'a [u32],
    fill: Option<LabelValue>,
}

/// How many words the text has room for.
#[tactic(auto, unfolding(crate::specs::WordPlans::text_words))]
fn text_words() -> u32
    ensures value { result ≡ text_words }
    ensures small { text_words ≤ 4096 }
{
    4_096
}

/// How many words the data have.
#[tactic(auto, unfolding(crate::specs::WordPlans::data_words))]
fn data_words() -> u32
    ensures value { result ≡ data_words }
    ensures small { data_words ≤ 1024 }
{
    1_024
}

/// The address of the first word of the data.
#[tactic(auto, unfolding(crate::specs::WordPlans::data_start))]
fn data_start() -> u32
    ensures value { result ≡ data_start }
    ensures small { data_start ≤ 65536 }
{
    0x1_0000
}

/// The `mem` lines among lines, so that a word is not sought among all of them.
fn mem_lines(alloc: Global, lines: &[LabelLine]) -> Result<Vec<LabelLine>, NoMemory>
    ensures { IfOk result (λ mems. mems.items ≡ mem_lines lines.now) }
{
    let mut mems = Vec::new(alloc);
    let mut rest = lines;
    'lines: while let Some((line, more)) = first(rest) {
        if let LabelLine::Mem { address, value } = line {
            mems.push(LabelLine::Mem {
                address: *address,
                value: *value,
            })?;
        }
        rest = more;
    }
    Ok(mems)
}

/// The value that a `mem` line gives a word.
fn mem_value(lines: &[LabelLine], address: u32) -> Option<LabelValue>
    requires { HaveRoom lines.now }
    ensures value { result ≡ mem_value address lines.now }
    ensures room { IfSome result HasRoom }
{
    let mut rest = lines;
    'lines: while let Some((line, more)) = first(rest) {
        if let LabelLine::Mem { address: at, value } = line {
            if address == *at {
                return Some(*value);
            }
        }
        rest = more;
    }
    None
}

/// The word of the program at a place.
fn image_value(words: &[u32], place: u32) -> Option<LabelValue>
    ensures value { result ≡ image_value words.now place }
    ensures room { IfSome result HasRoom }
{
    match words.get(place as usize) {
        Some(word) => Some(LabelValue::Number(*word)),
        None => None,
    }
}

fn first_of(one: Option<LabelValue>, other: Option<LabelValue>) -> Option<LabelValue>
    ensures { result ≡ first_of one other }
{
    match one {
        Some(value) => Some(value),
        None => other,
    }
}

/// Adds a word where it has a value.
fn push_word(
    alloc: Global,
    plans: &mut Vec<WordPlan>,
    address: u32,
    value: Option<LabelValue>,
) -> Result<(), NoMemory>
    requires { IfSome value HasRoom }
    ensures { OnOk result (plans.new.items ≡ plans.old.items ++ plans_of address value) }
{
    if let Some(value) = value {
        plans.push(WordPlan {
            address,
            bits: word_bits(alloc, value)?,
        })?;
    }
    Ok(())
}

/// Adds so many words of a region.
fn push_region(
    alloc: Global,
    plans: &mut Vec<WordPlan>,
    region: Region<'_>,
    lines: &[LabelLine],
    count: u32,
) -> Result<(), NoMemory>
    requires room { HaveRoom lines.now }
    requires fill { IfSome region.fill HasRoom }
    requires addresses { region.start + 4 * count < 2 ^ 32 }
    ensures { OnOk result (plans.new.items ≡ plans.old.items
        ++ flat_map (region_plans region.entry.start region.entry.words.now region.entry.fill lines.now)
        (range_with_len 0 count)) }
{
    'words: for place in 0..count {
        let address = region.start + 4 * place;
        let given = first_of(mem_value(lines, address), image_value(region.words, place));
        push_word(alloc, plans, address, first_of(given, region.fill))?;
    }
    Ok(())
}

/// The words of the text and of the data, by address.
fn words_among(
    alloc: Global,
    image: &Image,
    lines: &[LabelLine],
) -> Result<List<WordPlan>, NoMemory>
    requires { HaveRoom lines.now }
    ensures { IfOk result (λ plans. plans ≡ words_of image.now lines.now) }
{
    let mut plans = Vec::new(alloc);
    let text = Region {
        start: 0,
        words: image.text.as_slice(),
        fill: None,
    };
    push_region(alloc, &mut plans, text, lines, text_words())?;
    let data = Region {
        start: data_start(),
        words: image.values.as_slice(),
        fill: Some(LabelValue::Number(0)),
    };
    push_region(alloc, &mut plans, data, lines, data_words())?;
    Ok(List::from_vec(plans))
}

/// The words of the text that are given, and all words of the data, by address.
pub(crate) fn words_of(
    alloc: Global,
    image: &Image,
    lines: &[LabelLine],
) -> Result<List<WordPlan>, NoMemory>
    requires { HaveRoom lines.now }
    ensures { IfOk result (λ plans. plans ≡ words_of image.now lines.now) }
{
    let mems = mem_lines(alloc, lines)?;
    words_among(alloc, image, mems.as_slice())
}
