//! Names of the ports of memory words that are leaves.
ghost use Rattle.std.specs.Prelude.{◌≡◌, ◌<◌, ◌++◌, IfOk, OnOk};
ghost use Rattle.std.specs.String.{string_bytes};
ghost use Rattle.bind_run.specs.Needs.{hex_digit, hex_digits, leaf_name};

use coco_base::{NoMemory, Text};
use std::alloc::Global;

/// How many digits an address has.
const DIGITS: u32 = 8;

fn hex_digit(number: u32) -> char
    requires { number < 16 }
    ensures value { result ≡ hex_digit number }
    ensures ascii { result < 128 }
{
    let number = number as u8;
    let digit = if number < 10 {
        b'0' + number
    } else {
        b'a' - 10 + number
    };
    char::from(digit)
}

/// Adds the last hexadecimal digits of a number, so many.
fn push_digits(name: &mut String, count: u32, number: u32) -> Result<(), NoMemory>
    ensures { OnOk result (string_bytes name.new ≡ string_bytes name.old ++ hex_digits count number) }
{
    if count == 0 {
        return Ok(());
    }
    push_digits(name, count - 1, number / 16)?;
    name.push(hex_digit(number % 16))?;
    Ok(())
}

/// The name of the port of the memory word at an address: `mem@` and its eight hexadecimal digits.
#[tactic(auto, unfolding(crate::specs::Needs::leaf_name))]
pub(crate) fn leaf_name(alloc: Global, address: u32) -> Result<Text, NoMemory>
    ensures { IfOk result (λ name. name ≡ leaf_name address) }
{
    let mut name = String::from_str(alloc, "mem@")?;
    push_digits(&mut name, DIGITS, address)?;
    Ok(Text::from_string(name))
}
