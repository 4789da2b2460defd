//! The line that a form makes of its operands, after the lines so far.
ghost use Rattle.std.specs.Prelude.{◌≡◌, [], false, IfOk, Ok, drop, slice_index_or};
ghost use Rattle.std.specs.List.{list_any};
ghost use Rattle.coco_base.specs.Texts.{texts};
ghost use Rattle.label_file.specs.Causes.{Answers};
ghost use Rattle.label_file.specs.declared.reading.Reading.{Reading};
ghost use Rattle.label_file.specs.Readings.{HasSpace, has_address};
ghost use Rattle.label_file.specs.Statements.{clock_line, control_line, dmem_line, echo_line, fresh_line, imem_line, input_line, is_form, leaf_line, line_of, mask_line, mem_line, new_address, new_name, once, pc_line, reg_line, secret_line, version_line};
ghost use Rattle.label_file.specs.Values.{HaveRoom};

use crate::addresses::Addresses;
use crate::cause::Cause;
use crate::form::Form;
use crate::line::LabelLine;
use crate::names::Names;
use crate::numbers::{address_of, count_of};
use crate::reading::Reading;
use crate::values::{value_of, values_of};
use coco_base::Text;
use std::alloc::Global;

/// The greatest width of a secret or a mask.
const MOST_BITS: u32 = 32;

/// The most shares of a secret.
const MOST_SHARES: u32 = 16;

/// The word in a place behind the first one.
fn operand<'a>(words: &[&'a str], place: usize) -> &'a str
    ensures { result.now ≡ slice_index_or (texts words.now) place [] }
{
    match words.get(place) {
        Some(word) => word,
        None => "",
    }
}

/// That a name is not declared before.
fn new_name(names: &Names, name: &str) -> Result<(), Cause>
    ensures { Answers (λ u. u) result (new_name names.now name.now) }
{
    match names.get(name.as_bytes()) {
        None => Ok(()),
        Some(_) => Err(Cause::Twice),
    }
}

/// The address of a memory word, which no line names before.
#[tactic(auto, unfolding(crate::specs::Statements::new_address))]
fn new_address(addresses: &Addresses, word: &str) -> Result<u32, Cause>
    ensures value { Answers (λ a. a) result (new_address addresses.now word.now) }
    ensures new { IfOk result (λ a. has_address addresses.now a ≡ false) }
{
    let Some(address) = address_of(word.as_bytes()) else {
        return Err(Cause::BadLine);
    };
    if addresses.has(address) {
        return Err(Cause::Twice);
    }
    Ok(address)
}

fn is_form(form: Form, line: &LabelLine) -> bool
    ensures { result ≡ is_form form line.now }
{
    match form {
        Form::Clock => matches!(line, LabelLine::Clock { .. }),
        Form::Imem => matches!(line, LabelLine::Imem { .. }),
        Form::Dmem => matches!(line, LabelLine::Dmem { .. }),
        Form::Pc => matches!(line, LabelLine::Pc { .. }),
        _ => false,
    }
}

fn has_form(lines: &[LabelLine], form: Form) -> bool
    ensures { result ≡ list_any (is_form form) lines.now }
{
    lines.iter().any(|line| is_form(form, line))
}

/// That no line before has this form.
fn once(lines: &[LabelLine], form: Form) -> Result<(), Cause>
    ensures { Answers (λ u. u) result (once lines.now form) }
{
    if has_form(lines, form) {
        Err(Cause::Twice)
    } else {
        Ok(())
    }
}

fn version_line(words: &[&str]) -> LabelLine
    ensures { result ≡ version_line (texts words.now) }
{
    match operand(words, 0).as_bytes() {
        b"2" => LabelLine::Version { number: 2 },
        _ => LabelLine::Version { number: 1 },
    }
}

#[tactic(auto, unfolding(crate::specs::Statements::secret_line))]
fn secret_line(alloc: Global, reading: &Reading, words: &[&str]) -> Result<LabelLine, Cause>
    ensures line { Answers (λ l. l) result (secret_line reading.now (texts words.now)) }
    ensures space { IfOk result (HasSpace reading.now) }
{
    let name = operand(words, 0);
    new_name(&reading.names, name)?;
    let width = count_of(operand(words, 1).as_bytes(), MOST_BITS)?;
    let shares = count_of(operand(words, 2).as_bytes(), MOST_SHARES)?;
    let name = Text::of(alloc, name)?;
    Ok(LabelLine::Secret {
        name,
        width,
        shares,
    })
}

#[tactic(auto, unfolding(crate::specs::Statements::mask_line))]
fn mask_line(alloc: Global, reading: &Reading, words: &[&str]) -> Result<LabelLine, Cause>
    ensures line { Answers (λ l. l) result (mask_line reading.now (texts words.now)) }
    ensures space { IfOk result (HasSpace reading.now) }
{
    let name = operand(words, 0);
    new_name(&reading.names, name)?;
    let width = count_of(operand(words, 1).as_bytes(), MOST_BITS)?;
    let name = Text::of(alloc, name)?;
    Ok(LabelLine::Mask { name, width })
}

#[tactic(auto, unfolding(crate::specs::Statements::fresh_line))]
fn fresh_line(alloc: Global, reading: &Reading, words: &[&str]) -> Result<LabelLine, Cause>
    ensures line { Answers (λ l. l) result (fresh_line reading.now (texts words.now)) }
    ensures space { IfOk result (HasSpace reading.now) }
{
    let name = operand(words, 1);
    new_name(&reading.names, name)?;
    let net = Text::of(alloc, operand(words, 0))?;
    let name = Text::of(alloc, name)?;
    Ok(LabelLine::Fresh { net, name })
}

#[tactic(auto, using(crate::proofs::CauseLemmas::fails_itself), unfolding(crate::specs::Statements::reg_line))]
fn reg_line(alloc: Global, reading: &Reading, words: &[&str]) -> Result<LabelLine, Cause>
    requires { HaveRoom reading.now.names }
    ensures line { Answers (λ l. l) result (reg_line reading.now (texts words.now)) }
    ensures space { IfOk result (HasSpace reading.now) }
{
    let value = value_of(&reading.names, operand(words, 1).as_bytes())?;
    let net = Text::of(alloc, operand(words, 0))?;
    Ok(LabelLine::Reg { net, value })
}

#[tactic(auto, unfolding(crate::specs::Statements::input_line))]
fn input_line(alloc: Global, reading: &Reading, words: &[&str]) -> Result<LabelLine, Cause>
    requires { HaveRoom reading.now.names }
    ensures line { Answers (λ l. l) result (input_line reading.now (texts words.now)) }
    ensures space { IfOk result (HasSpace reading.now) }
{
    let values = values_of(alloc, &reading.names, behind(words))?;
    let net = Text::of(alloc, operand(words, 0))?;
    Ok(LabelLine::Input { net, values })
}

/// The words behind the first operand.
fn behind<'a, 'b>(words: &'a [&'b str]) -> &'a [&'b str]
    ensures { texts result.now ≡ drop 1 (texts words.entry.now) }
{
    match words {
        [_, rest @ ..] => rest,
        [] => words,
    }
}

#[tactic(auto, using(crate::proofs::CauseLemmas::fails_itself), unfolding(crate::specs::Statements::mem_line))]
fn mem_line(reading: &Reading, words: &[&str]) -> Result<LabelLine, Cause>
    requires { HaveRoom reading.now.names }
    ensures line { Answers (λ l. l) result (mem_line reading.now (texts words.now)) }
    ensures space { IfOk result (HasSpace reading.now) }
{
    let address = new_address(&reading.words, operand(words, 0))?;
    let value = value_of(&reading.names, operand(words, 1).as_bytes())?;
    Ok(LabelLine::Mem { address, value })
}

#[tactic(auto, unfolding(crate::specs::Statements::leaf_line))]
fn leaf_line(reading: &Reading, words: &[&str]) -> Result<LabelLine, Cause>
    ensures line { Answers (λ l. l) result (leaf_line reading.now (texts words.now)) }
    ensures space { IfOk result (HasSpace reading.now) }
{
    let address = new_address(&reading.leaves, operand(words, 0))?;
    Ok(LabelLine::Leaf { address })
}

#[tactic(auto, unfolding(crate::specs::Statements::echo_line))]
fn echo_line(alloc: Global, words: &[&str]) -> Result<LabelLine, Cause>
    ensures line { Answers (λ l. l) result (Ok (echo_line (texts words.now))) }
    ensures space { IfOk result (λ l. (r : Reading) → HasSpace r l) }
{
    let net = Text::of(alloc, operand(words, 0))?;
    let source = Text::of(alloc, operand(words, 1))?;
    Ok(LabelLine::Echo { net, source })
}

#[tactic(auto, unfolding(crate::specs::Statements::clock_line))]
fn clock_line(alloc: Global, reading: &Reading, words: &[&str]) -> Result<LabelLine, Cause>
    ensures line { Answers (λ l. l) result (clock_line reading.now (texts words.now)) }
    ensures space { IfOk result (HasSpace reading.now) }
{
    once(reading.lines.as_slice(), Form::Clock)?;
    let net = Text::of(alloc, operand(words, 0))?;
    Ok(LabelLine::Clock { net })
}

#[tactic(auto, unfolding(crate::specs::Statements::imem_line))]
fn imem_line(alloc: Global, reading: &Reading, words: &[&str]) -> Result<LabelLine, Cause>
    ensures line { Answers (λ l. l) result (imem_line reading.now (texts words.now)) }
    ensures space { IfOk result (HasSpace reading.now) }
{
    once(reading.lines.as_slice(), Form::Imem)?;
    let request = Text::of(alloc, operand(words, 0))?;
    let address = Text::of(alloc, operand(words, 1))?;
    let answer = Text::of(alloc, operand(words, 2))?;
    Ok(LabelLine::Imem {
        request,
        address,
        answer,
    })
}

#[tactic(auto, unfolding(crate::specs::Statements::dmem_line))]
fn dmem_line(alloc: Global, reading: &Reading, words: &[&str]) -> Result<LabelLine, Cause>
    ensures line { Answers (λ l. l) result (dmem_line reading.now (texts words.now)) }
    ensures space { IfOk result (HasSpace reading.now) }
{
    once(reading.lines.as_slice(), Form::Dmem)?;
    let request = Text::of(alloc, operand(words, 0))?;
    let write = Text::of(alloc, operand(words, 1))?;
    let enables = Text::of(alloc, operand(words, 2))?;
    let address = Text::of(alloc, operand(words, 3))?;
    let value = Text::of(alloc, operand(words, 4))?;
    let answer = Text::of(alloc, operand(words, 5))?;
    Ok(LabelLine::Dmem {
        request,
        write,
        enables,
        address,
        value,
        answer,
    })
}

#[tactic(auto, unfolding(crate::specs::Statements::control_line))]
fn control_line(alloc: Global, words: &[&str]) -> Result<LabelLine, Cause>
    ensures line { Answers (λ l. l) result (Ok (control_line (texts words.now))) }
    ensures space { IfOk result (λ l. (r : Reading) → HasSpace r l) }
{
    let net = Text::of(alloc, operand(words, 0))?;
    Ok(LabelLine::Control { net })
}

#[tactic(auto, unfolding(crate::specs::Statements::pc_line))]
fn pc_line(alloc: Global, reading: &Reading, words: &[&str]) -> Result<LabelLine, Cause>
    ensures line { Answers (λ l. l) result (pc_line reading.now (texts words.now)) }
    ensures space { IfOk result (HasSpace reading.now) }
{
    once(reading.lines.as_slice(), Form::Pc)?;
    let net = Text::of(alloc, operand(words, 0))?;
    Ok(LabelLine::Pc { net })
}

/// The line that a form makes of its operands.
pub(crate) fn line_of(
    alloc: Global,
    reading: &Reading,
    form: Form,
    words: &[&str],
) -> Result<LabelLine, Cause>
    requires { HaveRoom reading.now.names }
    ensures line { Answers (λ l. l) result (line_of reading.now form (texts words.now)) }
    ensures space { IfOk result (HasSpace reading.now) }
{
    match form {
        Form::Version => Ok(version_line(words)),
        Form::Secret => secret_line(alloc, reading, words),
        Form::Mask => mask_line(alloc, reading, words),
        Form::Fresh => fresh_line(alloc, reading, words),
        Form::Reg => reg_line(alloc, reading, words),
        Form::Input => input_line(alloc, reading, words),
        Form::Mem => mem_line(reading, words),
        Form::Leaf => leaf_line(reading, words),
        Form::Echo => echo_line(alloc, words),
        Form::Clock => clock_line(alloc, reading, words),
        Form::Imem => imem_line(alloc, reading, words),
        Form::Dmem => dmem_line(alloc, reading, words),
        Form::Control => control_line(alloc, words),
        Form::Pc => pc_line(alloc, reading, words),
    }
}
