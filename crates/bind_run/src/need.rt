//! What lines ask of the nets that they name.
ghost use Rattle.std.specs.Prelude.{◌≡◌};
ghost use Rattle.std.specs.List.{list_all};
ghost use Rattle.bind_run.specs.Needs.{binds, fits, value_fits};
ghost use Rattle.bind_run.specs.SeenNeeds.{seen_width};

use coco_base::Text;
use label_file::LabelValue;

/// What a line does with a net: it reads it, or it binds outputs of flops, bits of input ports, or the clock.
#[derive(Clone, Copy, Debug, PartialEq, Eq)]
pub(crate) enum Role {
    Read,
    Flop,
    Input,
    Clock,
}

/// How wide a net may be: any width, so many wires, from 1 to 32 wires, or what a value or values fit.
#[derive(Clone, Copy, Debug)]
pub(crate) enum Width<'a> {
    Any,
    Exactly(usize),
    Number,
    Value(LabelValue),
    Values(&'a [LabelValue]),
}

/// A net of a line.
#[derive(Clone, Copy, Debug)]
pub(crate) struct Need<'a> {
    pub(crate) word: &'a str,
    pub(crate) width: Width<'a>,
    pub(crate) role: Role,
}

impl Role {
    /// Whether the line binds the bits of the net.
    pub(crate) fn binds(self) -> bool
        ensures { result ≡ binds self }
    {
        match self {
            Role::Read => false,
            Role::Flop | Role::Input | Role::Clock => true,
        }
    }
}

fn number_fits(number: u32, width: usize) -> bool
    ensures { result ≡ value_fits width (LabelValue.Number number) }
{
    if width >= 32 {
        return true;
    }
    u64::from(number) < 1u64 << width
}

fn value_fits(value: LabelValue, width: usize) -> bool
    ensures { result ≡ value_fits width value }
{
    match value {
        LabelValue::Number(number) => number_fits(number, width),
        LabelValue::Bits { width: labels, .. } => labels as usize == width,
    }
}

fn values_fit(values: &[LabelValue], width: usize) -> bool
    ensures { result ≡ list_all (value_fits width) values.now }
{
    values.iter().all(|value| value_fits(*value, width))
}

impl Width<'_> {
    /// Whether a net may have so many wires.
    pub(crate) fn fits(self, wires: usize) -> bool
        ensures { result ≡ fits (seen_width self.entry) wires }
    {
        match self {
            Width::Any => true,
            Width::Exactly(width) => wires == width,
            Width::Number => 1 <= wires && wires <= 32,
            Width::Value(value) => value_fits(value, wires),
            Width::Values(values) => values_fit(values, wires),
        }
    }
}
