ghost use Rattle.std.specs.Prelude.{◌≡◌, IfOk};
ghost use Rattle.netlist_json.specs.Wires.{bit_of, constant_of, wire_of, wires_of};
ghost use Rattle.serde_json.specs.View.{items_view, view};

use coco_base::{List, NoMemory, Wire};
use serde_json::Value;
use std::alloc::Global;

const LAST_NUMBER: u64 = 2_147_483_647;

fn bit(number: u64) -> Option<Wire>
    ensures { result ≡ bit_of number }
{
    if number <= LAST_NUMBER {
        Some(Wire::Bit(number as u32))
    } else {
        None
    }
}

fn constant(text: &str) -> Option<Wire>
    ensures { result ≡ constant_of text.now }
{
    if text == "1" {
        Some(Wire::Const(true))
    } else if text == "0" || text == "x" || text == "z" {
        Some(Wire::Const(false))
    } else {
        None
    }
}

fn wire(value: &Value) -> Option<Wire>
    ensures { result ≡ wire_of (view value.now) }
{
    match value.as_u64() {
        Some(number) => bit(number),
        None => match value.as_str() {
            Some(text) => constant(text),
            None => None,
        },
    }
}

/// The places of a bit list.
pub fn wires(alloc: Global, values: &[Value]) -> Result<Option<List<Wire>>, NoMemory>
    ensures { IfOk result (λ o. o ≡ wires_of (items_view values.now)) }
{
    let mut all = List::new(alloc);
    let mut rest = values;
    'places: while let [first, after @ ..] = rest {
        let Some(wire) = wire(first) else {
            return Ok(None);
        };
        all.push(wire)?;
        rest = after;
    }
    Ok(Some(all))
}
