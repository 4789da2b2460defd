//! The lines of a file, and the words of a line.
ghost use Rattle.std.specs.Prelude.{◌≡◌, ◌<◌, ◌==◌, [], ◌∷◌, ◌≤◌, length, position, IfOk, IfSome, MatchOption};
ghost use Rattle.std.specs.List.{prefix_len};
ghost use Rattle.std.specs.Str.Lines.{lines, strip_carriage_return};
ghost use Rattle.coco_base.specs.Texts.{is_blank, texts, words};

use crate::fault::NoMemory;
use crate::list::List;
use std::alloc::Global;

/// The first line, and the bytes after it. A line feed ends a line, and the last line may lack it; a carriage return
/// before a line feed is no part of the line.
pub fn next_line(bytes: &[u8]) -> Option<(&[u8], &[u8])>
    ensures line { MatchOption result (lines bytes.now ≡ []) (λ p. lines bytes.now ≡ p.0.now ∷ lines p.1.now) }
    ensures shorter { MatchOption result (bytes.now ≡ []) (λ p. length p.1.now < length bytes.now) }
{
    if bytes.is_empty() {
        return None;
    }
    match line_feed(bytes) {
        Some(end) => Some((without_return(&bytes[..end]), &bytes[end + 1..])),
        None => Some((bytes, &[])),
    }
}

fn line_feed(bytes: &[u8]) -> Option<usize>
    ensures { result ≡ position (λ b. b == 10) bytes.now }
{
    bytes.iter().position(|b| *b == b'\n')
}

fn without_return(line: &[u8]) -> &[u8]
    ensures { result.now ≡ strip_carriage_return line.now }
{
    match line {
        [front @ .., b'\r'] => front,
        _ => line,
    }
}

/// The words of a line, which spaces and tabs separate.
pub fn words(alloc: Global, line: &str) -> Result<List<&str>, NoMemory>
    ensures { IfOk result (λ ws. texts ws ≡ words line.entry.now) }
{
    let mut all = List::new(alloc);
    let mut rest = line;
    'words: while let Some((word, after)) = next_word(rest) {
        all.push(word)?;
        rest = after;
    }
    Ok(all)
}

/// The first word of a line, and what stands behind it.
fn next_word(line: &str) -> Option<(&str, &str)>
    ensures word { MatchOption result (words line.now ≡ []) (λ p. words line.now ≡ p.0.now ∷ words p.1.now) }
    ensures shorter { IfSome result (λ p. length p.1.now < length line.now) }
{
    let line = trim_blanks(line);
    if line.is_empty() {
        return None;
    }
    match first_blank(line) {
        Some(end) => Some(line.split_at(end)),
        None => Some((line, "")),
    }
}

/// What stands behind the spaces and tabs at the front.
fn trim_blanks(line: &str) -> &str
    ensures words { words result.now ≡ words line.now }
    ensures front { prefix_len is_blank result.now ≡ 0 }
    ensures within { length result.now ≤ length line.now }
{
    let mut rest = line;
    'blanks: while let [byte, ..] = rest.as_bytes() {
        if !is_blank(*byte) {
            break;
        }
        rest = &rest[1..];
    }
    rest
}

fn first_blank(line: &str) -> Option<usize>
    ensures { result ≡ position is_blank line.now }
{
    line.as_bytes().iter().position(|byte| is_blank(*byte))
}

fn is_blank(byte: u8) -> bool
    ensures { result ≡ is_blank byte }
{
    matches!(byte, b' ' | b'\t')
}
