ghost use Rattle.std.specs.Prelude.{◌≡◌, length, map, option_map};
ghost use Rattle.netlist_json.specs.CellForms.{form_of};
ghost use Rattle.netlist_json.specs.CellTypes.{enable_of, enable_port, first_flop, flop_forms, flop_in, flop_of, gate_of, input_ports, letters_after, level_of, mux_steps, output_port, reset_of, reset_port, type_of, value_of};

use cell_table::kind_of;
use coco_base::Kind;

/// How a flop is reset: not at all, at once, or at the clock edge.
#[derive(Clone, Copy, Debug, PartialEq, Eq)]
pub enum Reset {
    NoReset,
    Asynchronous,
    Synchronous,
}

/// Whether a flop has an enable, and whether its multiplexer stands inside that of a synchronous reset or outside.
#[derive(Clone, Copy, Debug, PartialEq, Eq)]
pub enum Enable {
    NoEnable,
    Inside,
    Outside,
}

/// The type of a flop at the rising edge. A level is that at which the reset or the enable is active, and false where
/// there is none; `reset_value` is what a reset leaves.
#[derive(Clone, Copy, Debug, PartialEq, Eq)]
pub struct FlopType {
    pub reset: Reset,
    pub reset_level: bool,
    pub reset_value: bool,
    pub enable: Enable,
    pub enable_level: bool,
}

/// The type of a cell that is read.
#[derive(Clone, Copy, Debug, PartialEq, Eq)]
pub enum CellType {
    Gate(Kind),
    Flop(FlopType),
}

/// A multiplexer that stands before a flop.
#[derive(Clone, Copy, Debug, PartialEq, Eq)]
pub enum MuxStep {
    EnableMux,
    ResetMux,
}

// the types of flops: how they begin, and what the letters behind stand for
#[derive(Clone, Copy, Debug)]
struct FlopForm {
    prefix: &'static str,
    reset: Reset,
    enable: Enable,
}

fn form(prefix: &'static str, reset: Reset, enable: Enable) -> FlopForm
    ensures { form_of result ≡ record { prefix = prefix.entry.now; reset = reset; enable = enable } }
{
    FlopForm {
        prefix,
        reset,
        enable,
    }
}

fn flop_forms() -> [FlopForm; 7]
    ensures { map form_of result ≡ flop_forms }
{
    [
        form("$_DFF_P", Reset::NoReset, Enable::NoEnable),
        form("$_DFFE_P", Reset::NoReset, Enable::Inside),
        form("$_DFF_P", Reset::Asynchronous, Enable::NoEnable),
        form("$_DFFE_P", Reset::Asynchronous, Enable::Inside),
        form("$_SDFF_P", Reset::Synchronous, Enable::NoEnable),
        form("$_SDFFE_P", Reset::Synchronous, Enable::Inside),
        form("$_SDFFCE_P", Reset::Synchronous, Enable::Outside),
    ]
}

fn level(letter: u8) -> Option<bool>
    ensures { result ≡ level_of letter }
{
    match letter {
        b'P' => Some(true),
        b'N' => Some(false),
        _ => None,
    }
}

fn value(letter: u8) -> Option<bool>
    ensures { result ≡ value_of letter }
{
    match letter {
        b'1' => Some(true),
        b'0' => Some(false),
        _ => None,
    }
}

// the text behind a prefix
fn letters_after<'a>(prefix: &str, text: &'a [u8]) -> Option<&'a [u8]>
    ensures { option_map (λ s. s.now) result ≡ letters_after prefix.now text.entry.now }
{
    let mut prefix = prefix.as_bytes();
    let mut text = text;
    'letters: while let [wanted, more @ ..] = prefix {
        let [letter, rest @ ..] = text else {
            return None;
        };
        if *letter != *wanted {
            return None;
        }
        prefix = more;
        text = rest;
    }
    Some(text)
}

// the level and the value of a reset, and the letters behind
fn reset_letters(reset: Reset, text: &[u8]) -> Option<(bool, bool, &[u8])>
    ensures { option_map (λ r. (r.0, r.1, r.2.now)) result ≡ reset_of reset text.entry.now }
{
    if reset == Reset::NoReset {
        return Some((false, false, text));
    }
    let [first, second, rest @ ..] = text else {
        return None;
    };
    let Some(level) = level(*first) else {
        return None;
    };
    let Some(value) = value(*second) else {
        return None;
    };
    Some((level, value, rest))
}

// the level of an enable, and the letters behind
fn enable_letters(enable: Enable, text: &[u8]) -> Option<(bool, &[u8])>
    ensures { option_map (λ e. (e.0, e.1.now)) result ≡ enable_of enable text.entry.now }
{
    if enable == Enable::NoEnable {
        return Some((false, text));
    }
    let [first, rest @ ..] = text else {
        return None;
    };
    let Some(level) = level(*first) else {
        return None;
    };
    Some((level, rest))
}

fn flop_in(reset: Reset, enable: Enable, text: &[u8]) -> Option<FlopType>
    ensures { result ≡ flop_in reset enable text.now }
{
    let Some((reset_level, reset_value, text)) = reset_letters(reset, text) else {
        return None;
    };
    let Some((enable_level, text)) = enable_letters(enable, text) else {
        return None;
    };
    if text != b"_".as_slice() {
        return None;
    }
    Some(FlopType {
        reset,
        reset_level,
        reset_value,
        enable,
        enable_level,
    })
}

fn flop_of(form: FlopForm, text: &str) -> Option<FlopType>
    ensures { result ≡ flop_of (form_of form) text.now }
{
    match letters_after(form.prefix, text.as_bytes()) {
        Some(letters) => flop_in(form.reset, form.enable, letters),
        None => None,
    }
}

fn flop_type(text: &str) -> Option<FlopType>
    ensures { result ≡ first_flop flop_forms text.now }
{
    let forms = flop_forms();
    'forms: for form in &forms {
        if let Some(flop) = flop_of(*form, text) {
            return Some(flop);
        }
    }
    None
}

fn gate_of(text: &str) -> Option<Kind>
    ensures { result ≡ gate_of text.now }
{
    match kind_of(text) {
        Some(kind) => Some(kind),
        None => None,
    }
}

/// The type that a text names, as the Yosys manual writes it.
pub fn type_of(text: &str) -> Option<CellType>
    ensures { result ≡ type_of text.now }
{
    if let Some(kind) = gate_of(text) {
        return Some(CellType::Gate(kind));
    }
    match flop_type(text) {
        Some(flop) => Some(CellType::Flop(flop)),
        None => None,
    }
}

fn enable_port(enable: Enable) -> Option<&'static str>
    ensures { option_map (λ s. s.now) result ≡ enable_port enable }
{
    match enable {
        Enable::NoEnable => None,
        Enable::Inside | Enable::Outside => Some("E"),
    }
}

fn reset_port(reset: Reset) -> Option<&'static str>
    ensures { option_map (λ s. s.now) result ≡ reset_port reset }
{
    match reset {
        Reset::NoReset => None,
        Reset::Asynchronous | Reset::Synchronous => Some("R"),
    }
}

/// The input ports of a type in order, up to four.
pub fn input_ports(cell: CellType) -> [Option<&'static str>; 4]
    ensures { map (option_map (λ s. s.now)) result ≡ input_ports cell }
{
    match cell {
        CellType::Gate(Kind::Buf | Kind::Not) => [Some("A"), None, None, None],
        CellType::Gate(Kind::Mux | Kind::Nmux) => [Some("A"), Some("B"), Some("S"), None],
        CellType::Gate(Kind::Aoi3 | Kind::Oai3) => [Some("A"), Some("B"), Some("C"), None],
        CellType::Gate(Kind::Aoi4 | Kind::Oai4) => [Some("A"), Some("B"), Some("C"), Some("D")],
        CellType::Gate(_) => [Some("A"), Some("B"), None, None],
        CellType::Flop(flop) => [
            Some("D"),
            Some("C"),
            enable_port(flop.enable),
            reset_port(flop.reset),
        ],
    }
}

/// The output port of a type.
pub fn output_port(cell: CellType) -> &'static str
    ensures { result.now ≡ output_port cell }
{
    match cell {
        CellType::Gate(_) => "Y",
        CellType::Flop(_) => "Q",
    }
}

/// The multiplexers before a flop, the inner one first.
pub fn mux_steps(flop: FlopType) -> &'static [MuxStep]
    ensures { result.now ≡ mux_steps flop }
{
    let resets = flop.reset == Reset::Synchronous;
    match flop.enable {
        Enable::NoEnable if resets => &[MuxStep::ResetMux],
        Enable::NoEnable => &[],
        Enable::Inside if resets => &[MuxStep::EnableMux, MuxStep::ResetMux],
        Enable::Outside if resets => &[MuxStep::ResetMux, MuxStep::EnableMux],
        Enable::Inside | Enable::Outside => &[MuxStep::EnableMux],
    }
}
