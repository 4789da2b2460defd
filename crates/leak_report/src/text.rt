ghost use Rattle.std.specs.Prelude.{◌≡◌, ◌==◌, ◌<◌, ◌++◌, ◌||◌, IfOk, OnOk, if◌then◌else◌, map, nat_lt};
ghost use Rattle.std.specs.Fmt.{decimal};
ghost use Rattle.leak_report.specs.Texts.{count_line, hex_at, hex_text, printed};

use coco_base::NoMemory;
use std::alloc::Global;

/// Adds bytes at the end of a text.
pub fn add(text: &mut Vec<u8>, bytes: &[u8]) -> Result<(), NoMemory>
    ensures { OnOk result (text.new.items ≡ text.old.items ++ bytes.now) }
{
    text.extend_from_slice(bytes)?;
    Ok(())
}

/// Adds a number in decimal digits.
pub fn add_number(text: &mut Vec<u8>, alloc: Global, number: u128) -> Result<(), NoMemory>
    ensures { OnOk result (text.new.items ≡ text.old.items ++ decimal number) }
{
    let digits = number.to_string(alloc)?;
    add(text, digits.as_bytes())
}

/// Adds a line of a word and a number.
pub fn add_count(
    text: &mut Vec<u8>,
    alloc: Global,
    word: &[u8],
    number: u128,
) -> Result<(), NoMemory>
    ensures { OnOk result (text.new.items ≡ text.old.items ++ count_line word.now number) }
{
    add(text, word)?;
    add_number(text, alloc, number)?;
    add(text, b"\n")
}

fn shown(alloc: Global, name: &[u8]) -> Result<Vec<u8>, NoMemory>
    ensures { IfOk result (λ v. v.items ≡ printed name.now) }
{
    Ok(
        name.iter()
            .map(|byte| if *byte < 32 || *byte == 127 {
                b'?'
            } else {
                *byte
            })
            .collect(alloc)?,
    )
}

/// Adds a name, each control character as a question mark.
pub fn add_name(text: &mut Vec<u8>, alloc: Global, name: &[u8]) -> Result<(), NoMemory>
    ensures { OnOk result (text.new.items ≡ text.old.items ++ printed name.now) }
{
    let name = shown(alloc, name)?;
    add(text, name.as_slice())
}

// the hexadecimal digit of a number that counts so much
fn hex_digit(number: u32, weight: u32) -> u8
    requires { 0 < weight }
    ensures { result ≡ hex_at number weight }
{
    let digit = number / weight % 16;
    if digit < 10 {
        48 + digit as u8
    } else {
        87 + digit as u8
    }
}

/// Adds a number as eight lower-case hexadecimal digits.
pub fn add_hex(text: &mut Vec<u8>, number: u32) -> Result<(), NoMemory>
    ensures { OnOk result (text.new.items ≡ text.old.items ++ hex_text number) }
{
    let digits = [
        hex_digit(number, 0x1000_0000),
        hex_digit(number, 0x100_0000),
        hex_digit(number, 0x10_0000),
        hex_digit(number, 0x1_0000),
        hex_digit(number, 0x1000),
        hex_digit(number, 0x100),
        hex_digit(number, 0x10),
        hex_digit(number, 1),
    ];
    add(text, &digits)
}
