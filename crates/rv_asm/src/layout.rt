//! Where each line's statement stands, and which names it defines.
ghost use Rattle.std.specs.Prelude.{◌≡◌, length, take, IfErr, IfOk, Ok, OnErr, OnOk};
ghost use Rattle.std.specs.Str.Lines.{lines};
ghost use Rattle.rv_asm.specs.Causes.{Answers, Fails};
ghost use Rattle.rv_asm.specs.Layouts.{effect_of, equal_meaning, equal_named, is_misplaced, is_misplaced_value, statement_effect, with_labels};
ghost use Rattle.rv_asm.specs.Programs.{after_line, IsCutBy, start};

pub(crate) mod cause;
pub(crate) mod content;
pub(crate) mod demands;
pub(crate) mod names;
pub(crate) mod place;
pub(crate) mod values;

use crate::fault::AsmFault;
use crate::layout::cause::Cause;
use crate::layout::content::{Content, put};
use crate::layout::demands::is_stored;
use crate::layout::names::{Meaning, Names};
use crate::layout::place::Place;
use crate::layout::values::{is_known, value_of};
use crate::line::expression::Expr;
use crate::line::source_line::line_of;
use crate::line::statement::{Demand, Line, Part, Size, Statement};
use coco_base::{List, NoMemory, next_line};
use std::alloc::Global;

// What a line puts at a place.
#[derive(Debug, Drop)]
pub(crate) struct Placed {
    pub(crate) place: Place,
    pub(crate) content: Content,
    // The number of the line.
    pub(crate) line: u32,
}

// What lines do: the place behind them, the names that they define, and what they put.
#[derive(Drop)]
pub(crate) struct Layout {
    pub(crate) place: Place,
    pub(crate) names: Names,
    pub(crate) placed: List<Placed>,
}

// The layout of the lines before the first that is at fault by what it and the lines before it hold, and its fault; or
// of all lines.
#[derive(Drop)]
pub(crate) struct Cut {
    pub(crate) layout: Layout,
    pub(crate) fault: Option<AsmFault>,
}

// What `.equ` gives a name.
fn equal_meaning(names: &Names, here: i64, name: &[u8], value: &Expr) -> Result<Meaning, Cause>
    ensures { Answers (λ m. m) result (equal_meaning names.now here name.now value.now) }
{
    if names.get(name).is_some() {
        return Err(Cause::Twice);
    }
    if !is_known(names, value) {
        return Err(Cause::UnknownName);
    }
    let value = value_of(names, here, value)?;
    if is_stored(Size::Word, value) {
        Ok(Meaning {
            value: value as i64,
            is_number: true,
        })
    } else {
        Err(Cause::Range)
    }
}

// Defines labels as the address.
fn add_labels(alloc: Global, names: &mut Names, here: i64, labels: &[List<u8>]) -> Result<(), Cause>
    ensures ok { OnOk result (with_labels names.old here labels.now ≡ Ok names.new) }
    ensures fault { IfErr result (λ e. Fails e (with_labels names.old here labels.now)) }
    ensures kept { take (length names.old) names.new ≡ names.old }
{
    'labels: for label in labels {
        if names.get(label.as_slice()).is_some() {
            return Err(Cause::Twice);
        }
        let meaning = Meaning {
            value: here,
            is_number: false,
        };
        names.add(alloc, label.as_slice(), meaning)?;
    }
    Ok(())
}

fn is_misplaced_value(part: Part, demand: Demand) -> bool
    ensures { result ≡ is_misplaced_value part demand }
{
    match (part, demand) {
        (Part::Text, Demand::Value(Size::Byte | Size::Half)) => true,
        (Part::Text, _) => false,
        (Part::Data, Demand::Value(_)) => false,
        (Part::Data, _) => true,
    }
}

// Whether a statement may not stand in a part.
fn is_misplaced(part: Part, statement: &Statement) -> bool
    ensures { result ≡ is_misplaced part statement.now }
{
    match statement {
        Statement::Whole(_) | Statement::LoadNumber { .. } => matches!(part, Part::Data),
        Statement::Asks { demand, .. } => is_misplaced_value(part, *demand),
        _ => false,
    }
}

// Defines a name as `.equ` does.
#[tactic(auto, unfolding(crate::specs::Layouts::equal_named))]
fn take_equal(
    alloc: Global,
    here: i64,
    names: &mut Names,
    name: &[u8],
    value: &Expr,
) -> Result<(), Cause>
    ensures ok { OnOk result (equal_named names.old here name.now value.now ≡ Ok names.new) }
    ensures fault { IfErr result (λ e. Fails e (equal_named names.old here name.now value.now)) }
    ensures kept { take (length names.old) names.new ≡ names.old }
{
    let meaning = equal_meaning(names, here, name, value)?;
    names.add(alloc, name, meaning)?;
    Ok(())
}

// What a statement does at a place.
#[tactic(auto, unfolding(crate::specs::Layouts::equal_effect, crate::specs::Layouts::content_effect))]
fn take_statement(
    alloc: Global,
    place: &mut Place,
    names: &mut Names,
    statement: Statement,
) -> Result<Option<Content>, Cause>
    ensures ok { IfOk result
        (λ content. statement_effect place.old names.old statement ≡ Ok (effect_of place.new names.new content)) }
    ensures fault { IfErr result (λ e. Fails e (statement_effect place.old names.old statement)) }
    ensures kept { take (length names.old) names.new ≡ names.old }
{
    match statement {
        Statement::Nothing => Ok(None),
        Statement::Enter(part) => {
            *place = place.in_part(part);
            Ok(None)
        }
        Statement::Equal { name, value } => {
            take_equal(alloc, place.here(), names, name.as_slice(), &value)?;
            Ok(None)
        }
        statement => {
            let (content, behind) = put(alloc, *place, names, statement)?;
            *place = behind;
            Ok(Some(content))
        }
    }
}

// What a line does after a layout.
#[tactic(auto, unfolding(crate::specs::Layouts::line_effect, crate::specs::Layouts::parts_effect, crate::specs::Programs::after_line))]
fn take_line(alloc: Global, layout: &mut Layout, line: &[u8], number: u32) -> Result<(), Cause>
    ensures ok { OnOk result (after_line layout.old number line.now ≡ Ok layout.new) }
    ensures fault { IfErr result (λ e. Fails e (after_line layout.old number line.now)) }
    ensures kept { take (length layout.old.names) layout.new.names ≡ layout.old.names }
    ensures placed { OnErr result (layout.new.placed ≡ layout.old.placed) }
{
    let Line { labels, statement } = line_of(alloc, line)?;
    let place = layout.place;
    if is_misplaced(place.part, &statement) {
        return Err(Cause::BadLine);
    }
    add_labels(alloc, &mut layout.names, place.here(), labels.as_slice())?;
    let taken = take_statement(alloc, &mut layout.place, &mut layout.names, statement)?;
    if let Some(content) = taken {
        layout.placed.push(Placed {
            place,
            content,
            line: number,
        })?;
    }
    Ok(())
}

// The same, where a fault leaves the layout as it was.
fn try_line(alloc: Global, layout: &mut Layout, line: &[u8], number: u32) -> Result<(), Cause>
    ensures ok { OnOk result (after_line layout.old number line.now ≡ Ok layout.new) }
    ensures fault { IfErr result (λ e. Fails e (after_line layout.old number line.now)) }
    ensures same { OnErr result (layout.new ≡ layout.old) }
{
    let place = layout.place;
    let known = layout.names.len();
    match take_line(alloc, layout, line, number) {
        Ok(()) => Ok(()),
        Err(cause) => {
            layout.place = place;
            layout.names.truncate(known);
            Err(cause)
        }
    }
}

// The layout before the first line.
fn start(alloc: Global) -> Layout
    ensures { result ≡ start }
{
    Layout {
        place: Place {
            part: Part::Text,
            words: 0,
            bytes: 0,
        },
        names: Names::new(alloc),
        placed: List::new(alloc),
    }
}

// The layout of a program.
pub(crate) fn lay_out(alloc: Global, bytes: &[u8]) -> Result<Cut, NoMemory>
    ensures { IfOk result (λ cut. IsCutBy (lines bytes.now) cut.layout cut.fault) }
{
    let mut layout = start(alloc);
    let mut rest = bytes;
    let mut number = 0u32;
    'lines: while let Some((line, after)) = next_line(rest) {
        number = number.saturating_add(1);
        match try_line(alloc, &mut layout, line, number) {
            Ok(()) => rest = after,
            Err(Cause::Memory) => return Err(NoMemory),
            Err(cause) => {
                return Ok(Cut {
                    layout,
                    fault: Some(cause.at(number)),
                })
            }
        }
    }
    Ok(Cut {
        layout,
        fault: None,
    })
}
