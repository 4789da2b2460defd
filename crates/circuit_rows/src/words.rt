//! The lines of a text, and their words.
ghost use Rattle.std.specs.Prelude.{◌≡◌, ◌++◌, ◌∷◌, ◌<◌, [], length, filter, position, IfOk, IfSome, OnOk, MatchOption};
ghost use Rattle.std.specs.List.{list_all};
ghost use Rattle.std.specs.Str.{bytes_eq};
ghost use Rattle.circuit_rows.specs.Words.{is_among, is_plain, is_word, lines_of, pieces, plain, shown, words_of};

use coco_base::{NoMemory, Text};
use std::alloc::Global;

pub(crate) fn is(word: &[u8], text: &[u8]) -> bool
    ensures { result ≡ bytes_eq word.now text.now }
{
    word == text
}

// bytes up to a separator, and those behind it
#[derive(Clone, Copy)]
struct Cut<'a> {
    piece: &'a [u8],
    rest: &'a [u8],
}

fn is_among(byte: u8, separators: &[u8]) -> bool
    ensures { result ≡ is_among separators.now byte }
{
    separators.contains(&byte)
}

fn place_of(bytes: &[u8], separators: &[u8]) -> Option<usize>
    ensures first { result ≡ position (is_among separators.now) bytes.now }
    ensures within { IfSome result (λ place. place < length bytes.now) }
{
    bytes.iter().position(|byte| is_among(*byte, separators))
}

fn first_piece<'a>(bytes: &'a [u8], separators: &[u8]) -> Option<Cut<'a>>
    ensures pieces { MatchOption result (pieces separators.now bytes.entry.now ≡ bytes.entry.now ∷ [])
        (λ c. pieces separators.now bytes.entry.now ≡ c.piece.now ∷ pieces separators.now c.rest.now) }
    ensures shorter { IfSome result (λ c. length c.rest.now < length bytes.entry.now) }
{
    match place_of(bytes, separators) {
        None => None,
        Some(place) => Some(Cut {
            piece: &bytes[..place],
            rest: &bytes[place + 1..],
        }),
    }
}

/// The lines of a text.
pub(crate) fn lines(alloc: Global, text: &[u8]) -> Result<Vec<&[u8]>, NoMemory>
    ensures { IfOk result (λ v. shown v.items ≡ lines_of text.entry.now) }
{
    let mut lines = Vec::new(alloc);
    let mut rest = text;
    'lines: while let Some(cut) = first_piece(rest, b"\n") {
        lines.push(cut.piece)?;
        rest = cut.rest;
    }
    lines.push(rest)?;
    Ok(lines)
}

fn add_word<'a>(words: &mut Vec<&'a [u8]>, piece: &'a [u8]) -> Result<(), NoMemory>
    ensures { OnOk result (shown words.new.items ≡ shown words.old.items ++ filter is_word (piece.entry.now ∷ [])) }
{
    if !piece.is_empty() {
        words.push(piece)?;
    }
    Ok(())
}

/// What stands between blanks, `=`, brackets, commas and colons.
pub(crate) fn words(alloc: Global, line: &[u8]) -> Result<Vec<&[u8]>, NoMemory>
    ensures { IfOk result (λ v. shown v.items ≡ words_of line.entry.now) }
{
    let mut words = Vec::new(alloc);
    let mut rest = line;
    'words: while let Some(cut) = first_piece(rest, b" =(),:") {
        add_word(&mut words, cut.piece)?;
        rest = cut.rest;
    }
    add_word(&mut words, rest)?;
    Ok(words)
}

fn is_plain(byte: u8) -> bool
    ensures { result ≡ is_plain byte }
{
    33 <= byte && byte <= 126 && byte != b'"' && byte != b'\\'
}

fn has_plain(word: &[u8]) -> bool
    ensures { result ≡ list_all is_plain word.now }
{
    word.iter().all(|byte| is_plain(*byte))
}

/// A word as text, where its characters stand for themselves in JSON.
pub(crate) fn text(alloc: Global, word: &[u8]) -> Result<Option<Text>, NoMemory>
    ensures { IfOk result (λ o. o ≡ plain word.now) }
{
    if !has_plain(word) {
        return Ok(None);
    }
    match str::from_utf8(word) {
        Ok(text) => Ok(Some(Text::of(alloc, text)?)),
        Err(_) => Ok(None),
    }
}
