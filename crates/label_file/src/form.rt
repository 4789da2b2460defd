//! The forms of lines, by their first words.
ghost use Rattle.std.specs.Prelude.{◌≡◌};
ghost use Rattle.label_file.specs.Forms.{form_in, form_of, naming_forms, net_forms, operands_of, value_forms};

use crate::operand::Operand;

/// A form of lines.
#[derive(Clone, Copy, Debug, PartialEq, Eq)]
pub(crate) enum Form {
    Version,
    Secret,
    Mask,
    Fresh,
    Reg,
    Input,
    Mem,
    Leaf,
    Echo,
    Clock,
    Imem,
    Dmem,
    Control,
    Pc,
}

fn naming_form(word: &[u8]) -> Option<Form>
    ensures { result ≡ form_in naming_forms word.now }
{
    match word {
        b"version" => Some(Form::Version),
        b"secret" => Some(Form::Secret),
        b"mask" => Some(Form::Mask),
        b"fresh" => Some(Form::Fresh),
        _ => None,
    }
}

fn value_form(word: &[u8]) -> Option<Form>
    ensures { result ≡ form_in value_forms word.now }
{
    match word {
        b"reg" => Some(Form::Reg),
        b"input" => Some(Form::Input),
        b"mem" => Some(Form::Mem),
        b"leaf" => Some(Form::Leaf),
        _ => None,
    }
}

fn net_form(word: &[u8]) -> Option<Form>
    ensures { result ≡ form_in net_forms word.now }
{
    match word {
        b"echo" => Some(Form::Echo),
        b"clock" => Some(Form::Clock),
        b"imem" => Some(Form::Imem),
        b"dmem" => Some(Form::Dmem),
        b"control" => Some(Form::Control),
        b"pc" => Some(Form::Pc),
        _ => None,
    }
}

/// The form of the lines that begin with a word.
#[tactic(auto, unfolding(crate::specs::Forms::form_of))]
pub(crate) fn form_of(word: &[u8]) -> Option<Form>
    ensures { result ≡ form_of word.now }
{
    naming_form(word).or(value_form(word)).or(net_form(word))
}

/// What stands behind the word of a form.
pub(crate) fn operands_of(form: Form) -> &'static [Operand]
    ensures { result.now ≡ operands_of form }
{
    use Operand::{Address, Count, Edition, Name, Net, Value, Values};
    match form {
        Form::Version => &[Edition],
        Form::Secret => &[Name, Count, Count],
        Form::Mask => &[Name, Count],
        Form::Fresh => &[Net, Name],
        Form::Reg => &[Net, Value],
        Form::Input => &[Net, Values],
        Form::Mem => &[Address, Value],
        Form::Leaf => &[Address],
        Form::Echo => &[Net, Net],
        Form::Clock | Form::Control | Form::Pc => &[Net],
        Form::Imem => &[Net, Net, Net],
        Form::Dmem => &[Net, Net, Net, Net, Net, Net],
    }
}
