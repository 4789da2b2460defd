//! The words that values and instructions stand for.
ghost use Rattle.std.specs.Prelude.{◌≡◌, ◌-ℤ◌, ◌≤◌, IfOk};
ghost use Rattle.rv_asm.specs.Causes.{Answers};
ghost use Rattle.rv_asm.specs.Demands.{address_words, all_words, any_outside, byte_count, field_of, field_words, fit_word, is_short, is_stored, is_outside, number_words, signed_word, unsigned_word, wide_field_of, word_count, words_at, words_of};

use crate::layout::cause::Cause;
use crate::layout::names::Names;
use crate::layout::values::{high_half, low_half, low_word, value_of};
use crate::line::expression::Expr;
use crate::line::statement::{Demand, Size};
use crate::lists::list_of;
use coco_base::{List, NoMemory};
use rv_isa::{ImmOp, Instr, encode, fits};
use std::alloc::Global;

// The word of an instruction that fits.
pub(crate) fn fit_word(instr: Instr) -> Result<u32, Cause>
    ensures { Answers (λ w. w) result (fit_word instr) }
{
    if fits(instr) {
        Ok(encode(instr))
    } else {
        Err(Cause::Range)
    }
}

// `lui` and `addi`, which make the word in a register.
#[tactic(auto, unfolding(crate::specs::Demands::address_words))]
fn address_words(alloc: Global, rd: u8, word: u32) -> Result<List<u32>, Cause>
    ensures { Answers (λ l. l) result (address_words rd word) }
{
    let upper = fit_word(Instr::Lui {
        rd,
        imm: high_half(word),
    })?;
    let lower = fit_word(Instr::Imm {
        op: ImmOp::Addi,
        rd,
        rs1: rd,
        imm: low_half(word),
    })?;
    Ok(list_of(alloc, &[upper, lower])?)
}

fn is_short(value: i32) -> bool
    ensures { result ≡ is_short value }
{
    -2048 <= value && value <= 2047
}

// `li`: the fewest of `lui` and `addi` that make the word in a register.
#[tactic(auto, unfolding(crate::specs::Demands::number_words))]
pub(crate) fn number_words(alloc: Global, rd: u8, word: u32) -> Result<List<u32>, Cause>
    ensures { Answers (λ l. l) result (number_words rd word) }
{
    let imm = word.cast_signed();
    if is_short(imm) {
        let word = fit_word(Instr::Imm {
            op: ImmOp::Addi,
            rd,
            rs1: 0,
            imm,
        })?;
        return Ok(list_of(alloc, &[word])?);
    }
    if word % 4096 == 0 {
        let word = fit_word(Instr::Lui {
            rd,
            imm: high_half(word),
        })?;
        return Ok(list_of(alloc, &[word])?);
    }
    address_words(alloc, rd, word)
}

fn signed_word(value: i128) -> Result<i32, Cause>
    ensures { Answers (λ z. z) result (signed_word value) }
{
    if -0x8000_0000 <= value && value <= 0x7fff_ffff {
        Ok(value as i32)
    } else {
        Err(Cause::Range)
    }
}

fn unsigned_word(value: i128) -> Result<u32, Cause>
    ensures { Answers (λ n. n) result (unsigned_word value) }
{
    if 0 <= value && value <= 0xffff_ffff {
        Ok(value as u32)
    } else {
        Err(Cause::Range)
    }
}

// How far a target is from an address.
fn offset(target: i128, here: i64) -> Result<i32, Cause>
    ensures { Answers (λ z. z) result (signed_word (target -ℤ here)) }
{
    match target.checked_sub(i128::from(here)) {
        Some(offset) => signed_word(offset),
        None => Err(Cause::Range),
    }
}

// The instruction whose immediate of 12 bits a value is.
fn field_of(demand: Demand, here: i64, value: i128) -> Result<Instr, Cause>
    ensures { Answers (λ i. i) result (field_of demand here value) }
{
    match demand {
        Demand::Imm { op, rd, rs1 } => {
            let imm = signed_word(value)?;
            Ok(Instr::Imm { op, rd, rs1, imm })
        }
        Demand::Load { op, rd, rs1 } => {
            let imm = signed_word(value)?;
            Ok(Instr::Load { op, rd, rs1, imm })
        }
        Demand::Store { op, rs1, rs2 } => {
            let imm = signed_word(value)?;
            Ok(Instr::Store { op, rs1, rs2, imm })
        }
        Demand::Jalr { rd, rs1 } => {
            let imm = signed_word(value)?;
            Ok(Instr::Jalr { rd, rs1, imm })
        }
        _ => wide_field_of(demand, here, value),
    }
}

// The instruction whose offset or field of 20 bits a value gives.
fn wide_field_of(demand: Demand, here: i64, value: i128) -> Result<Instr, Cause>
    ensures { Answers (λ i. i) result (wide_field_of demand here value) }
{
    match demand {
        Demand::Branch { op, rs1, rs2 } => {
            let offset = offset(value, here)?;
            Ok(Instr::Branch {
                op,
                rs1,
                rs2,
                offset,
            })
        }
        Demand::Lui { rd } => {
            let imm = unsigned_word(value)?;
            Ok(Instr::Lui { rd, imm })
        }
        Demand::Auipc { rd } => {
            let imm = unsigned_word(value)?;
            Ok(Instr::Auipc { rd, imm })
        }
        Demand::Jal { rd } => {
            let offset = offset(value, here)?;
            Ok(Instr::Jal { rd, offset })
        }
        _ => Err(Cause::Range),
    }
}

#[tactic(auto, unfolding(crate::specs::Demands::field_words))]
fn field_words(alloc: Global, demand: Demand, here: i64, value: i128) -> Result<List<u32>, Cause>
    ensures { Answers (λ l. l) result (field_words demand here value) }
{
    let instr = field_of(demand, here, value)?;
    let word = fit_word(instr)?;
    Ok(list_of(alloc, &[word])?)
}

pub(crate) fn is_stored(size: Size, value: i128) -> bool
    ensures { result ≡ is_stored size value }
{
    match size {
        Size::Byte => -128 <= value && value <= 255,
        Size::Half => -32768 <= value && value <= 65535,
        Size::Word => -0x8000_0000 <= value && value <= 0xffff_ffff,
    }
}

// The words that a value stands for.
fn words_of(alloc: Global, demand: Demand, here: i64, value: i128) -> Result<List<u32>, Cause>
    ensures { Answers (λ l. l) result (words_of demand here value) }
{
    match demand {
        Demand::Value(size) => {
            if is_stored(size, value) {
                Ok(list_of(alloc, &[low_word(value)])?)
            } else {
                Err(Cause::Range)
            }
        }
        Demand::Address { rd } => address_words(alloc, rd, low_word(value)),
        _ => field_words(alloc, demand, here, value),
    }
}

// How many words a value stands for.
pub(crate) fn word_count(demand: Demand) -> u64
    ensures value { result ≡ word_count demand }
    ensures some { 1 ≤ result }
    ensures small { result ≤ 2 }
{
    match demand {
        Demand::Address { .. } => 2,
        _ => 1,
    }
}

// How many bytes of each word stand in the data.
pub(crate) fn byte_count(demand: Demand) -> u64
    ensures value { result ≡ byte_count demand }
    ensures some { 1 ≤ result }
    ensures small { result ≤ 4 }
{
    match demand {
        Demand::Value(Size::Byte) => 1,
        Demand::Value(Size::Half) => 2,
        _ => 4,
    }
}

// The words that an expression stands for.
#[tactic(auto, unfolding(crate::specs::Demands::words_at))]
fn words_at(
    alloc: Global,
    names: &Names,
    here: i64,
    demand: Demand,
    value: &Expr,
) -> Result<List<u32>, Cause>
    ensures { Answers (λ l. l) result (words_at names.now here demand value.now) }
{
    let value = value_of(names, here, value)?;
    words_of(alloc, demand, here, value)
}

fn is_outside(
    alloc: Global,
    names: &Names,
    here: i64,
    demand: Demand,
    value: &Expr,
) -> Result<bool, NoMemory>
    ensures { IfOk result (λ b. b ≡ is_outside names.now here demand value.now) }
{
    match words_at(alloc, names, here, demand, value) {
        Err(Cause::Range) => Ok(true),
        Err(Cause::Memory) => Err(NoMemory),
        _ => Ok(false),
    }
}

// Whether a value is known and outside what is asked for.
pub(crate) fn any_outside(
    alloc: Global,
    names: &Names,
    here: i64,
    demand: Demand,
    values: &[Expr],
) -> Result<bool, NoMemory>
    ensures { IfOk result (λ b. b ≡ any_outside names.now here demand values.now) }
{
    'values: for value in values {
        if is_outside(alloc, names, here, demand, value)? {
            return Ok(true);
        }
    }
    Ok(false)
}

// The words of expressions, in order.
pub(crate) fn all_words(
    alloc: Global,
    names: &Names,
    here: i64,
    demand: Demand,
    values: &[Expr],
) -> Result<List<u32>, Cause>
    ensures { Answers (λ l. l) result (all_words names.now here demand values.now) }
{
    let mut found = Vec::new(alloc);
    'values: for value in values {
        let words = words_at(alloc, names, here, demand, value)?;
        found.extend_from_slice(words.as_slice())?;
    }
    Ok(List::from_vec(found))
}
