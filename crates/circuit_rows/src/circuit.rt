//! What the lines of a text say: the names of all bits, and a row for each net, input and cell.
ghost use Rattle.std.specs.Prelude.{◌≡◌, ◌≤◌, ◌∷◌, [], IfOk, length, position, count_by};
ghost use Rattle.std.specs.List.{list_any};
ghost use Rattle.std.specs.Str.{bytes_eq};
ghost use Rattle.circuit_rows.specs.Circuits.{bit_wire, cell_of, circuit_of, clock_row, form_of, has_name, is_before, names_net, net_wires, pin_of, row_of, rows_after, wire_of, with_line, with_row};
ghost use Rattle.circuit_rows.specs.Gates.{shown_pairs};
ghost use Rattle.circuit_rows.specs.Outcomes.{Answers, Leaves};
ghost use Rattle.circuit_rows.specs.Words.{each_of, shown};

use crate::bits::{add_own_bits, bits, names_bits};
use crate::fault::RowFault;
use crate::gates::{Pair, pairs};
use crate::words::{is, lines, text, words};
use coco_base::{List, NoMemory, Text, Wire};
use std::alloc::Global;

/// A port of a cell, and its wire.
#[derive(Drop)]
pub(crate) struct Pin {
    pub(crate) port: Text,
    pub(crate) wire: Wire,
}

/// What a row has beside a net.
#[derive(Drop)]
pub(crate) enum Form {
    /// An input port.
    Input,
    /// Nothing.
    Net,
    /// A cell of this word, as `XOR`, `FLOP` or `$_DFF_PN0_`.
    Cell { word: Text, pins: List<Pin> },
}

/// A net, and what drives it. Lines count from 1.
#[derive(Drop)]
pub(crate) struct Row {
    pub(crate) line: u32,
    pub(crate) name: Text,
    pub(crate) wires: List<Wire>,
    pub(crate) form: Form,
}

/// The names of the bits, in the order of their numbers, and the rows, in the order of their names.
#[derive(Drop)]
pub(crate) struct Circuit {
    pub(crate) bits: List<List<u8>>,
    pub(crate) rows: List<Row>,
}

fn place_of(bits: &[List<u8>], word: &[u8]) -> Option<usize>
    ensures { result ≡ position (λ bit. bytes_eq bit word.now) bits.now }
{
    bits.iter().position(|bit| is(bit.as_slice(), word))
}

fn bit_wire(place: usize) -> Option<Wire>
    ensures { result ≡ bit_wire place }
{
    if place < 4_294_967_296 {
        Some(Wire::Bit(place as u32))
    } else {
        None
    }
}

fn wire(bits: &[List<u8>], word: &[u8]) -> Option<Wire>
    ensures { result ≡ wire_of bits.now word.now }
{
    if is(word, b"0") {
        return Some(Wire::Const(false));
    }
    if is(word, b"1") {
        return Some(Wire::Const(true));
    }
    bit_wire(place_of(bits, word)?)
}

fn wires(alloc: Global, bits: &[List<u8>], words: &[&[u8]]) -> Result<Option<List<Wire>>, NoMemory>
    ensures { IfOk result (λ o. o ≡ each_of (wire_of bits.now) (shown words.now)) }
{
    let mut wires = List::new(alloc);
    'words: for word in words {
        let Some(wire) = wire(bits, word) else {
            return Ok(None);
        };
        wires.push(wire)?;
    }
    Ok(Some(wires))
}

fn pin_of(alloc: Global, bits: &[List<u8>], pair: Pair<'_>) -> Result<Option<Pin>, NoMemory>
    ensures { IfOk result (λ o. o ≡ pin_of bits.now (pair.entry.0.now, pair.entry.1.now)) }
{
    let Some(port) = text(alloc, pair.0)? else {
        return Ok(None);
    };
    let Some(wire) = wire(bits, pair.1) else {
        return Ok(None);
    };
    Ok(Some(Pin { port, wire }))
}

fn pins(alloc: Global, bits: &[List<u8>], pairs: &[Pair<'_>]) -> Result<Option<List<Pin>>, NoMemory>
    ensures { IfOk result (λ o. o ≡ each_of (pin_of bits.now) (shown_pairs pairs.now)) }
{
    let mut pins = List::new(alloc);
    'pairs: for pair in pairs {
        let Some(pin) = pin_of(alloc, bits, *pair)? else {
            return Ok(None);
        };
        pins.push(pin)?;
    }
    Ok(Some(pins))
}

// a cell with an output of this name
fn cell(
    alloc: Global,
    bits: &[List<u8>],
    name: &[u8],
    word: &[u8],
    args: &[&[u8]],
) -> Result<Option<Form>, NoMemory>
    ensures { IfOk result (λ o. o ≡ cell_of bits.now name.now word.now (shown args.now)) }
{
    let Some(pairs) = pairs(alloc, name, word, args)? else {
        return Ok(None);
    };
    let Some(pins) = pins(alloc, bits, pairs.as_slice())? else {
        return Ok(None);
    };
    let Some(word) = text(alloc, word)? else {
        return Ok(None);
    };
    Ok(Some(Form::Cell { word, pins }))
}

fn names_net(word: &[u8]) -> bool
    ensures { result ≡ names_net word.now }
{
    names_bits(word) || is(word, b"net")
}

fn form_of(
    alloc: Global,
    bits: &[List<u8>],
    first: &[u8],
    second: &[u8],
    more: &[&[u8]],
) -> Result<Option<Form>, NoMemory>
    ensures { IfOk result (λ o. o ≡ form_of bits.now first.now second.now (shown more.now)) }
{
    if is(first, b"in") {
        return Ok(Some(Form::Input));
    }
    if names_net(first) {
        return Ok(Some(Form::Net));
    }
    cell(alloc, bits, first, second, more)
}

// the wires of the bits of these names
fn bit_wires(
    alloc: Global,
    bits: &[List<u8>],
    names: &[List<u8>],
) -> Result<Option<List<Wire>>, NoMemory>
    ensures { IfOk result (λ o. o ≡ each_of (wire_of bits.now) names.now) }
{
    let mut wires = List::new(alloc);
    'names: for name in names {
        let Some(wire) = wire(bits, name.as_slice()) else {
            return Ok(None);
        };
        wires.push(wire)?;
    }
    Ok(Some(wires))
}

// the wires of the net of a line of these words
fn net_wires(
    alloc: Global,
    bits: &[List<u8>],
    words: &[&[u8]],
) -> Result<Option<List<Wire>>, NoMemory>
    ensures { IfOk result (λ o. o ≡ net_wires bits.now (shown words.now)) }
{
    if let [first, _, more @ ..] = words
        && is(first, b"net")
    {
        return wires(alloc, bits, more);
    }
    let mut own = List::new(alloc);
    if !add_own_bits(&mut own, alloc, words)? {
        return Ok(None);
    }
    bit_wires(alloc, bits, own.as_slice())
}

// the row of a line of these words
fn row_of(
    alloc: Global,
    bits: &[List<u8>],
    line: u32,
    words: &[&[u8]],
) -> Result<Option<Row>, NoMemory>
    ensures { IfOk result (λ o. o ≡ row_of bits.now line (shown words.now)) }
{
    match words {
        [] => Ok(None),
        [_] => Ok(None),
        [first, second, more @ ..] => {
            let Some(name) = text(alloc, if names_net(first) { second } else { first })? else {
                return Ok(None);
            };
            let Some(wires) = net_wires(alloc, bits, words)? else {
                return Ok(None);
            };
            let Some(form) = form_of(alloc, bits, first, second, more)? else {
                return Ok(None);
            };
            Ok(Some(Row {
                line,
                name,
                wires,
                form,
            }))
        }
    }
}

fn has_row(rows: &[Row], name: &[u8]) -> bool
    ensures { result ≡ list_any (has_name name.now) rows.now }
{
    rows.iter().any(|row| is(row.name.as_bytes(), name))
}

fn is_before(row: &Row, name: &[u8]) -> bool
    ensures { result ≡ is_before name.now row.now }
{
    row.name.as_bytes().cmp(name).is_lt()
}

// how many rows stand before a name
fn place_before(rows: &[Row], name: &[u8]) -> usize
    ensures value { result ≡ count_by (is_before name.now) rows.now }
    ensures bound { result ≤ length rows.now }
{
    rows.iter().filter(|row| is_before(row, name)).count()
}

// puts a row in its place, and tells whether its name is new
fn put(rows: &mut Vec<Row>, row: Row) -> Result<bool, NoMemory>
    ensures { IfOk result (λ is_new. Leaves is_new (with_row rows.old.items row) rows.new.items) }
{
    if has_row(rows.as_slice(), row.name.as_bytes()) {
        return Ok(false);
    }
    let place = place_before(rows.as_slice(), row.name.as_bytes());
    rows.insert(place, row)?;
    Ok(true)
}

// takes a line, and tells whether it is one that may stand there
fn put_line(
    rows: &mut Vec<Row>,
    alloc: Global,
    bits: &[List<u8>],
    line: u32,
    words: &[&[u8]],
) -> Result<bool, NoMemory>
    ensures { IfOk result (λ taken.
        Leaves taken (with_line bits.now rows.old.items line (shown words.now)) rows.new.items) }
{
    if words.is_empty() {
        return Ok(true);
    }
    match row_of(alloc, bits, line, words)? {
        Some(row) => put(rows, row),
        None => Ok(false),
    }
}

fn clock(alloc: Global) -> Result<Row, NoMemory>
    ensures { IfOk result (λ row. row ≡ clock_row) }
{
    let mut wires = List::new(alloc);
    wires.push(Wire::Bit(0))?;
    Ok(Row {
        line: 0,
        name: Text::of(alloc, "clk")?,
        wires,
        form: Form::Input,
    })
}

fn rows(alloc: Global, bits: &[List<u8>], lines: &[&[u8]]) -> Result<List<Row>, RowFault>
    ensures { Answers result (rows_after bits.now (clock_row ∷ []) 0 (shown lines.now)) }
{
    let mut rows = Vec::new(alloc);
    rows.push(clock(alloc)?)?;
    let mut number = 0u32;
    'lines: for line in lines {
        number = number.saturating_add(1);
        let words = words(alloc, line)?;
        if !put_line(&mut rows, alloc, bits, number, words.as_slice())? {
            return Err(RowFault::Outside { line: number });
        }
    }
    Ok(List::from_vec(rows))
}

/// What the lines of a text say.
pub(crate) fn read(alloc: Global, text: &str) -> Result<Circuit, RowFault>
    ensures { Answers result (circuit_of text.now) }
{
    let lines = lines(alloc, text.as_bytes())?;
    let bits = bits(alloc, lines.as_slice())?;
    let rows = rows(alloc, bits.as_slice(), lines.as_slice())?;
    Ok(Circuit { bits, rows })
}
