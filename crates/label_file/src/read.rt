//! Reading a label file line by line.
ghost use Rattle.std.specs.Prelude.{◌≡◌, ◌≤◌, ◌<◌, ◌^◌, [], ◌∷◌, false, true, length, IfErr, IfOk, MatchOption, Ok};
ghost use Rattle.std.specs.Str.{is_utf8};
ghost use Rattle.std.specs.Str.Lines.{lines};
ghost use Rattle.coco_base.specs.Texts.{texts};
ghost use Rattle.label_file.specs.Causes.{Answers};
ghost use Rattle.label_file.specs.Conditions.{AreLabels};
ghost use Rattle.label_file.specs.Files.{IsFaultOf, after_form, after_line, after_words, before_comment, begins_comment, is_second, labels_of, stands, words_of};
ghost use Rattle.label_file.specs.Values.{HaveRoom};

use crate::cause::Cause;
use crate::fault::LabelFault;
use crate::form::{Form, form_of, operands_of};
use crate::line::{LabelLine, Labels};
use crate::operand::fits;
use crate::reading::Reading;
use crate::statement::line_of;
use coco_base::{Limits, next_line, words};
use std::alloc::Global;
use std::str;

fn begins_comment(word: &str) -> bool
    ensures { result ≡ begins_comment word.now }
{
    matches!(word.as_bytes(), [b'#', ..])
}

/// How many words stand before the comment.
fn words_of(words: &[&str]) -> usize
    ensures value { result ≡ words_of (texts words.now) }
    ensures within { result ≤ length words.now }
{
    let mut count = 0usize;
    let mut rest = words;
    'words: while let [word, more @ ..] = rest {
        if begins_comment(word) {
            break;
        }
        count += 1;
        rest = more;
    }
    count
}

/// Whether the first line says that the file has version 2.
fn is_second(lines: &[LabelLine]) -> bool
    ensures { result ≡ is_second lines.now }
{
    matches!(lines, [LabelLine::Version { number: 2 }, ..])
}

/// Whether a form may stand behind these lines.
fn stands(lines: &[LabelLine], form: Form) -> bool
    ensures { result ≡ stands lines.now form }
{
    match form {
        Form::Version => lines.is_empty(),
        Form::Leaf => is_second(lines),
        _ => true,
    }
}

/// The words before the comment.
fn before_comment<'a, 'b>(words: &'a [&'b str]) -> &'a [&'b str]
    ensures { texts result.now ≡ before_comment (texts words.entry.now) }
{
    &words[..words_of(words)]
}

/// The text of bytes in UTF-8.
fn text_of(bytes: &[u8]) -> Option<&str>
    ensures { MatchOption result (is_utf8 bytes.now ≡ false) (λ t. (t.now ≡ bytes.now) × (is_utf8 bytes.now ≡ true)) }
{
    str::from_utf8(bytes).ok()
}

/// The first word, and those behind it.
fn first_word<'a, 'b>(words: &'a [&'b str]) -> Option<(&'b str, &'a [&'b str])>
    ensures { MatchOption result (texts words.entry.now ≡ []) (λ p. texts words.entry.now ≡ p.0.now ∷ texts p.1.now) }
{
    match words {
        [word, rest @ ..] => Some((word, rest)),
        [] => None,
    }
}

/// Takes a line of a form.
#[tactic(auto, unfolding(crate::specs::Files::after_form))]
fn take_form(
    alloc: Global,
    limit: u32,
    reading: &mut Reading,
    form: Form,
    operands: &[&str],
) -> Result<(), Cause>
    requires { HaveRoom reading.old.names }
    ensures { Answers (λ _. reading.new) result (after_form limit reading.old form (texts operands.now)) }
{
    if !fits(operands_of(form), operands) || !stands(reading.lines.as_slice(), form) {
        return Err(Cause::BadLine);
    }
    match line_of(alloc, reading, form, operands) {
        Ok(line) => reading.add(alloc, limit, line),
        Err(cause) => Err(cause),
    }
}

/// Takes the words of a line.
#[tactic(auto, unfolding(crate::specs::Files::after_words))]
fn take_words(alloc: Global, limit: u32, reading: &mut Reading, words: &[&str]) -> Result<(), Cause>
    requires { HaveRoom reading.old.names }
    ensures { Answers (λ _. reading.new) result (after_words limit reading.old (texts words.now)) }
{
    let Some((word, operands)) = first_word(words) else {
        return Ok(());
    };
    match form_of(word.as_bytes()) {
        Some(form) => take_form(alloc, limit, reading, form, operands),
        None => Err(Cause::BadLine),
    }
}

/// Takes a line.
#[tactic(auto, unfolding(crate::specs::Files::after_line))]
fn take_line(alloc: Global, limit: u32, reading: &mut Reading, line: &[u8]) -> Result<(), Cause>
    requires { HaveRoom reading.old.names }
    ensures { Answers (λ _. reading.new) result (after_line limit reading.old line.now) }
{
    let Some(text) = text_of(line) else {
        return Err(Cause::BadLine);
    };
    let all = words(alloc, text)?;
    take_words(alloc, limit, reading, before_comment(all.as_slice()))
}

/// The lines and labels of a label file, whose language `docs/FORMATS.md` describes. The least line at fault is
/// answered, and of its faults the one that stands first in `LabelFault`.
pub fn read_labels(alloc: Global, bytes: &[u8], limits: &Limits) -> Result<Labels, LabelFault>
    requires size { length bytes.now < 2 ^ 32 }
    requires limits { limits.now.labels ≤ 4096 }
    ensures labels { IfOk result (λ l. labels_of limits.now.labels (lines bytes.now) ≡ Ok l) }
    ensures kept { IfOk result AreLabels }
    ensures fault { IfErr result (IsFaultOf (labels_of limits.now.labels (lines bytes.now))) }
{
    let mut reading = Reading::new(alloc);
    let mut rest = bytes;
    let mut number = 0u32;
    'reading: while let Some((line, after)) = next_line(rest) {
        number += 1;
        match take_line(alloc, limits.labels, &mut reading, line) {
            Ok(()) => rest = after,
            Err(cause) => return Err(cause.at(number)),
        }
    }
    let Reading { lines, table, .. } = reading;
    Ok(Labels { lines, table })
}
