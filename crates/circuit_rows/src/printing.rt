//! The JSON text of a circuit.
ghost use Rattle.std.specs.Prelude.{◌≡◌, ◌++◌, [], ◌∷◌, IfOk, OnOk, map, flat_map};
ghost use Rattle.circuit_rows.specs.Json.{after_comma, cell_text, cell_texts, json_of, listed, net_text, pin_text, port_text, port_texts, quoted, wire_text, wires_text};
ghost use Rattle.circuit_rows.specs.declared.circuit.Row.{Row};

use crate::circuit::{Form, Pin, Row};
use crate::gates::type_name;
use coco_base::{List, NoMemory, Wire};
use std::alloc::Global;

fn add(text: &mut Vec<u8>, bytes: &[u8]) -> Result<(), NoMemory>
    ensures { OnOk result (text.new.items ≡ text.old.items ++ bytes.now) }
{
    text.extend_from_slice(bytes)?;
    Ok(())
}

fn add_quoted(text: &mut Vec<u8>, bytes: &[u8]) -> Result<(), NoMemory>
    ensures { OnOk result (text.new.items ≡ text.old.items ++ quoted bytes.now) }
{
    add(text, b"\"")?;
    add(text, bytes)?;
    add(text, b"\"")
}

// adds texts with a comma before each
fn add_after_commas(text: &mut Vec<u8>, texts: &[List<u8>]) -> Result<(), NoMemory>
    ensures { OnOk result (text.new.items ≡ text.old.items ++ flat_map after_comma texts.now) }
{
    'texts: for added in texts {
        add(text, b",")?;
        add(text, added.as_slice())?;
    }
    Ok(())
}

// adds texts with commas between
fn add_listed(text: &mut Vec<u8>, texts: &[List<u8>]) -> Result<(), NoMemory>
    ensures { OnOk result (text.new.items ≡ text.old.items ++ listed texts.now) }
{
    match texts {
        [] => Ok(()),
        [first, others @ ..] => {
            add(text, first.as_slice())?;
            add_after_commas(text, others)
        }
    }
}

fn wire_text(alloc: Global, wire: Wire) -> Result<List<u8>, NoMemory>
    ensures { IfOk result (λ text. text ≡ wire_text wire) }
{
    let mut text = Vec::new(alloc);
    match wire {
        Wire::Const(false) => add_quoted(&mut text, b"0")?,
        Wire::Const(true) => add_quoted(&mut text, b"1")?,
        Wire::Bit(bit) => {
            let number = u64::from(bit) + 2;
            add(&mut text, number.to_string(alloc)?.as_bytes())?;
        }
    }
    Ok(List::from_vec(text))
}

fn add_wires(text: &mut Vec<u8>, alloc: Global, wires: &[Wire]) -> Result<(), NoMemory>
    ensures { OnOk result (text.new.items ≡ text.old.items ++ wires_text wires.now) }
{
    let mut texts = List::new(alloc);
    'wires: for wire in wires {
        texts.push(wire_text(alloc, *wire)?)?;
    }
    add(text, b"[")?;
    add_listed(text, texts.as_slice())?;
    add(text, b"]")
}

fn pin_text(alloc: Global, pin: &Pin) -> Result<List<u8>, NoMemory>
    ensures { IfOk result (λ text. text ≡ pin_text pin.now) }
{
    let mut text = Vec::new(alloc);
    add_quoted(&mut text, pin.port.as_bytes())?;
    add(&mut text, b":")?;
    add_wires(&mut text, alloc, &[pin.wire])?;
    Ok(List::from_vec(text))
}

fn add_pins(text: &mut Vec<u8>, alloc: Global, pins: &[Pin]) -> Result<(), NoMemory>
    ensures { OnOk result (text.new.items ≡ text.old.items ++ listed (map pin_text pins.now)) }
{
    let mut texts = List::new(alloc);
    'pins: for pin in pins {
        texts.push(pin_text(alloc, pin)?)?;
    }
    add_listed(text, texts.as_slice())
}

#[tactic(auto, unfolding(crate::specs::Json::cell_text))]
fn cell_text(alloc: Global, name: &[u8], word: &[u8], pins: &[Pin]) -> Result<List<u8>, NoMemory>
    ensures { IfOk result (λ text. text ≡ cell_text name.now word.now pins.now) }
{
    let mut text = Vec::new(alloc);
    add(&mut text, b"\"c_")?;
    add(&mut text, name)?;
    add(&mut text, b"\":{\"type\":")?;
    add_quoted(&mut text, type_name(alloc, word)?.as_slice())?;
    add(&mut text, b",\"connections\":{")?;
    add_pins(&mut text, alloc, pins)?;
    add(&mut text, b"}}")?;
    Ok(List::from_vec(text))
}

#[tactic(auto, unfolding(crate::specs::Json::net_text))]
fn net_text(alloc: Global, row: &Row) -> Result<List<u8>, NoMemory>
    ensures { IfOk result (λ text. text ≡ net_text row.now) }
{
    let mut text = Vec::new(alloc);
    add_quoted(&mut text, row.name.as_bytes())?;
    add(&mut text, b":{\"bits\":")?;
    add_wires(&mut text, alloc, row.wires.as_slice())?;
    add(&mut text, b"}")?;
    Ok(List::from_vec(text))
}

#[tactic(auto, unfolding(crate::specs::Json::port_text))]
fn port_text(alloc: Global, row: &Row) -> Result<List<u8>, NoMemory>
    ensures { IfOk result (λ text. text ≡ port_text row.now) }
{
    let mut text = Vec::new(alloc);
    add_quoted(&mut text, row.name.as_bytes())?;
    add(&mut text, b":{\"direction\":\"input\",\"bits\":")?;
    add_wires(&mut text, alloc, row.wires.as_slice())?;
    add(&mut text, b"}")?;
    Ok(List::from_vec(text))
}

// the texts of ports, of cells and of nets
#[derive(Drop)]
struct Texts {
    ports: List<List<u8>>,
    cells: List<List<u8>>,
    nets: List<List<u8>>,
}

fn add_row(texts: &mut Texts, alloc: Global, row: &Row) -> Result<(), NoMemory>
    ensures ports { OnOk result (texts.new.ports ≡ texts.old.ports ++ port_texts row.now row.now.form) }
    ensures cells { OnOk result (texts.new.cells ≡ texts.old.cells ++ cell_texts row.now row.now.form) }
    ensures nets { OnOk result (texts.new.nets ≡ texts.old.nets ++ net_text row.now ∷ []) }
{
    texts.nets.push(net_text(alloc, row)?)?;
    match &row.form {
        Form::Input => texts.ports.push(port_text(alloc, row)?),
        Form::Net => Ok(()),
        Form::Cell { word, pins } => texts.cells.push(cell_text(
            alloc,
            row.name.as_bytes(),
            word.as_bytes(),
            pins.as_slice(),
        )?),
    }
}

fn row_texts(alloc: Global, rows: &[Row]) -> Result<Texts, NoMemory>
    ensures ports { IfOk result (λ t. t.ports ≡ flat_map (λ (r : Row). port_texts r r.form) rows.now) }
    ensures cells { IfOk result (λ t. t.cells ≡ flat_map (λ (r : Row). cell_texts r r.form) rows.now) }
    ensures nets { IfOk result (λ t. t.nets ≡ map net_text rows.now) }
{
    let mut texts = Texts {
        ports: List::new(alloc),
        cells: List::new(alloc),
        nets: List::new(alloc),
    };
    'rows: for row in rows {
        add_row(&mut texts, alloc, row)?;
    }
    Ok(texts)
}

/// The text of a module `t` with these rows.
#[tactic(auto, unfolding(crate::specs::Json::json_of))]
pub(crate) fn json(alloc: Global, rows: &[Row]) -> Result<List<u8>, NoMemory>
    ensures { IfOk result (λ text. text ≡ json_of rows.now) }
{
    let texts = row_texts(alloc, rows)?;
    let mut text = Vec::new(alloc);
    add(&mut text, b"{\"modules\":{\"t\":{\"ports\":{")?;
    add_listed(&mut text, texts.ports.as_slice())?;
    add(&mut text, b"},\"cells\":{")?;
    add_listed(&mut text, texts.cells.as_slice())?;
    add(&mut text, b"},\"netnames\":{")?;
    add_listed(&mut text, texts.nets.as_slice())?;
    add(&mut text, b"}}}}")?;
    Ok(List::from_vec(text))
}
