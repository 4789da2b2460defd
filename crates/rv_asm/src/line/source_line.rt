//! Lines of a program: labels, and then a statement or none.
ghost use Rattle.std.specs.Prelude.{◌≡◌, ◌≤◌, length, Some};
ghost use Rattle.std.specs.Str.{is_utf8};
ghost use Rattle.rv_asm.specs.Readings.{Gives, items_at};
ghost use Rattle.rv_asm.specs.SourceLines.{begins_comment, code_length, code_of, label_at, labelled_at, line_of, operands_at, order_at, rest_at};

use crate::line::instructions::statement;
use crate::line::mnemonics::form_of;
use crate::line::reading::Unread;
use crate::line::statement::{Line, Statement};
use crate::line::tokens::{end, is_blank_byte, mark, name, word};
use crate::lists::list_of;
use coco_base::List;
use std::alloc::Global;
use std::str;

// Whether a comment begins with this byte, before these.
fn begins_comment(byte: u8, more: &[u8]) -> bool
    ensures { result ≡ begins_comment byte more.now }
{
    byte == b'#' || (byte == b'/' && more.starts_with(b"/"))
}

fn code_length(bytes: &[u8]) -> usize
    ensures value { result ≡ code_length bytes.now }
    ensures bound { result ≤ length bytes.now }
{
    let mut count = 0usize;
    let mut rest = bytes;
    'code: while let [byte, more @ ..] = rest {
        if begins_comment(*byte, more) {
            break;
        }
        count += 1;
        rest = more;
    }
    count
}

// What stands before the first comment.
fn code_of(bytes: &[u8]) -> &[u8]
    ensures { result.now ≡ code_of bytes.now }
{
    &bytes[..code_length(bytes)]
}

// A name and a colon.
#[tactic(auto, unfolding(crate::specs::SourceLines::label_at))]
fn label(alloc: Global, bytes: &[u8]) -> Result<(List<u8>, &[u8]), Unread>
    ensures { Gives (λ x. (x.0, x.1.now)) result (label_at bytes.now) }
{
    let (name, rest) = name(bytes)?;
    let rest = mark(b':', rest)?;
    let name = list_of(alloc, name)?;
    Ok((name, rest))
}

// All labels at the front.
fn labels(alloc: Global, bytes: &[u8]) -> Result<(List<List<u8>>, &[u8]), Unread>
    ensures { Gives (λ x. (x.0, x.1.now)) result (Some (items_at label_at bytes.now)) }
{
    let mut found = List::new(alloc);
    let mut rest = bytes;
    // Each takes a byte at least.
    'labels: for _turn in 0..bytes.len() {
        match label(alloc, rest) {
            Ok((name, after)) => {
                found.push(name)?;
                rest = after;
            }
            Err(Unread::Memory) => return Err(Unread::Memory),
            Err(Unread::Other) => return Ok((found, rest)),
        }
    }
    Ok((found, rest))
}

// The operands behind a word.
fn operands(bytes: &[u8]) -> Result<&[u8], Unread>
    ensures { Gives (λ x. x.now) result (operands_at bytes.now) }
{
    match bytes {
        [] => Ok(bytes),
        [byte, ..] if is_blank_byte(*byte) => Ok(bytes),
        _ => Err(Unread::Other),
    }
}

// A mnemonic or directive, and its operands.
#[tactic(auto, unfolding(crate::specs::SourceLines::order_at))]
fn order(alloc: Global, bytes: &[u8]) -> Result<Statement, Unread>
    ensures { Gives (λ s. s) result (order_at bytes.now) }
{
    let (word, rest) = word(bytes)?;
    let Some(form) = form_of(word) else {
        return Err(Unread::Other);
    };
    let operands = operands(rest)?;
    statement(alloc, form, operands)
}

// A statement or none.
#[tactic(auto, unfolding(crate::specs::SourceLines::rest_at))]
fn rest_of(alloc: Global, bytes: &[u8]) -> Result<Statement, Unread>
    ensures { Gives (λ s. s) result (rest_at bytes.now) }
{
    match end(bytes) {
        Ok(()) => Ok(Statement::Nothing),
        Err(Unread::Memory) => Err(Unread::Memory),
        Err(Unread::Other) => order(alloc, bytes),
    }
}

#[tactic(auto, unfolding(crate::specs::SourceLines::labelled_at))]
fn labelled_line(alloc: Global, bytes: &[u8]) -> Result<Line, Unread>
    ensures { Gives (λ l. l) result (labelled_at bytes.now) }
{
    let (labels, rest) = labels(alloc, bytes)?;
    let statement = rest_of(alloc, rest)?;
    Ok(Line { labels, statement })
}

fn is_text(bytes: &[u8]) -> bool
    ensures { result ≡ is_utf8 bytes.now }
{
    str::from_utf8(bytes).is_ok()
}

// What a line says.
#[tactic(auto, unfolding(crate::specs::SourceLines::line_of))]
pub(crate) fn line_of(alloc: Global, bytes: &[u8]) -> Result<Line, Unread>
    ensures { Gives (λ l. l) result (line_of bytes.now) }
{
    if !is_text(bytes) {
        return Err(Unread::Other);
    }
    labelled_line(alloc, code_of(bytes))
}
