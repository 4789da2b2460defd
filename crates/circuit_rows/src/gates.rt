//! Gates by the words that rows have for them, and the ports of cells.
ghost use Rattle.std.specs.Prelude.{◌≡◌, IfOk, Some, Vec, option_map};
ghost use Rattle.std.specs.Option.{option_or};
ghost use Rattle.circuit_rows.specs.Gates.{binary_gate, gate_of, in_turn, is_type, large_gates, lettered, letters_of, mixed_gates, monotone_gates, named, pairs_of, shown_gate, shown_pairs, small_gates, type_of};
ghost use Rattle.circuit_rows.specs.Words.{shown};

use crate::words::is;
use coco_base::{Kind, NoMemory};
use std::alloc::Global;

/// A gate: its kind, and the letters of its inputs' ports in order.
#[derive(Clone, Copy)]
pub(crate) struct Gate {
    pub(crate) kind: Kind,
    pub(crate) ports: &'static [u8],
}

fn shape(kind: Kind, ports: &'static [u8]) -> Option<Gate>
    ensures { option_map shown_gate result ≡ Some (kind, ports.now) }
{
    Some(Gate { kind, ports })
}

fn small_gate(word: &[u8]) -> Option<Gate>
    ensures { option_map shown_gate result ≡ named small_gates word.now }
{
    match word {
        b"BUF" => shape(Kind::Buf, b"A"),
        b"NOT" => shape(Kind::Not, b"A"),
        _ => None,
    }
}

fn monotone_gate(word: &[u8]) -> Option<Gate>
    ensures { option_map shown_gate result ≡ named monotone_gates word.now }
{
    match word {
        b"AND" => shape(Kind::And, b"AB"),
        b"NAND" => shape(Kind::Nand, b"AB"),
        b"OR" => shape(Kind::Or, b"AB"),
        b"NOR" => shape(Kind::Nor, b"AB"),
        _ => None,
    }
}

fn mixed_gate(word: &[u8]) -> Option<Gate>
    ensures { option_map shown_gate result ≡ named mixed_gates word.now }
{
    if is(b"XOR", word) {
        return shape(Kind::Xor, b"AB");
    }
    if is(b"XNOR", word) {
        return shape(Kind::Xnor, b"AB");
    }
    if is(b"ANDNOT", word) {
        return shape(Kind::AndNot, b"AB");
    }
    if is(b"ORNOT", word) {
        return shape(Kind::OrNot, b"AB");
    }
    None
}

fn large_gate(word: &[u8]) -> Option<Gate>
    ensures { option_map shown_gate result ≡ named large_gates word.now }
{
    match word {
        b"MUX" => shape(Kind::Mux, b"ABS"),
        b"NMUX" => shape(Kind::Nmux, b"ABS"),
        b"AOI3" => shape(Kind::Aoi3, b"ABC"),
        b"OAI3" => shape(Kind::Oai3, b"ABC"),
        b"AOI4" => shape(Kind::Aoi4, b"ABCD"),
        b"OAI4" => shape(Kind::Oai4, b"ABCD"),
        _ => None,
    }
}

fn first_gate(one: Option<Gate>, other: Option<Gate>) -> Option<Gate>
    ensures { option_map shown_gate result ≡ option_or (option_map shown_gate one) (option_map shown_gate other) }
{
    match one {
        Some(gate) => Some(gate),
        None => other,
    }
}

// the gate of two inputs of a word
fn binary_gate(word: &[u8]) -> Option<Gate>
    ensures { option_map shown_gate result ≡ binary_gate word.now }
{
    first_gate(monotone_gate(word), mixed_gate(word))
}

/// The gate of a word, as `XOR`.
pub(crate) fn gate_of(word: &[u8]) -> Option<Gate>
    ensures { option_map shown_gate result ≡ gate_of word.now }
{
    first_gate(
        small_gate(word),
        first_gate(binary_gate(word), large_gate(word)),
    )
}

/// A port's name and the word of its wire.
pub(crate) type Pair<'a> = (&'a [u8], &'a [u8]);

// a wire for each letter
fn lettered<'a>(
    alloc: Global,
    letters: &'static [u8],
    words: &[&'a [u8]],
) -> Result<Option<Vec<Pair<'a>>>, NoMemory>
    ensures { IfOk result (λ o.
        option_map (λ (v : Vec _ _). shown_pairs v.items) o ≡ lettered letters.now (shown words.now)) }
{
    let mut pairs = Vec::new(alloc);
    let mut letters = letters;
    let mut words = words;
    'letters: while let [_, more @ ..] = letters {
        let [word, others @ ..] = words else {
            return Ok(None);
        };
        pairs.push((&letters[..1], *word))?;
        letters = more;
        words = others;
    }
    if words.is_empty() {
        Ok(Some(pairs))
    } else {
        Ok(None)
    }
}

// a port and its wire in turn
fn in_turn<'a>(alloc: Global, words: &[&'a [u8]]) -> Result<Option<Vec<Pair<'a>>>, NoMemory>
    ensures { IfOk result (λ o. option_map (λ (v : Vec _ _). shown_pairs v.items) o ≡ in_turn (shown words.now)) }
{
    let mut pairs = Vec::new(alloc);
    let mut words = words;
    'ports: while let [port, word, more @ ..] = words {
        pairs.push((*port, *word))?;
        words = more;
    }
    if words.is_empty() {
        Ok(Some(pairs))
    } else {
        Ok(None)
    }
}

fn is_type(word: &[u8]) -> bool
    ensures { result ≡ is_type word.now }
{
    match word {
        [] => false,
        [first, ..] => *first == b'$',
    }
}

fn letters(word: &[u8]) -> Option<&'static [u8]>
    ensures { option_map (λ s. s.now) result ≡ letters_of word.now }
{
    if is(word, b"FLOP") {
        return Some(b"D");
    }
    match gate_of(word) {
        Some(gate) => Some(gate.ports),
        None => None,
    }
}

/// The ports of a cell of this word that drives a bit of this name, with the words of their wires.
pub(crate) fn pairs<'a>(
    alloc: Global,
    name: &'a [u8],
    word: &[u8],
    args: &[&'a [u8]],
) -> Result<Option<Vec<Pair<'a>>>, NoMemory>
    ensures { IfOk result (λ o.
        option_map (λ (v : Vec _ _). shown_pairs v.items) o ≡ pairs_of name.now word.now (shown args.now)) }
{
    if is_type(word) {
        return in_turn(alloc, args);
    }
    let Some(letters) = letters(word) else {
        return Ok(None);
    };
    let Some(mut pairs) = lettered(alloc, letters, args)? else {
        return Ok(None);
    };
    if is(word, b"FLOP") {
        pairs.insert(0, (b"C", b"clk"))?;
        pairs.push((b"Q", name))?;
    } else {
        pairs.push((b"Y", name))?;
    }
    Ok(Some(pairs))
}

/// The type of a cell of this word.
pub(crate) fn type_name(alloc: Global, word: &[u8]) -> Result<Vec<u8>, NoMemory>
    ensures { IfOk result (λ v. v.items ≡ type_of word.now) }
{
    if is_type(word) {
        return Ok(Vec::from_slice(alloc, word)?);
    }
    if is(word, b"FLOP") {
        return Ok(Vec::from_slice(alloc, b"$_DFF_P_")?);
    }
    let mut text = Vec::from_slice(alloc, b"$_")?;
    text.extend_from_slice(word)?;
    text.extend_from_slice(b"_")?;
    Ok(text)
}
