//! Numbers as digits write them.
ghost use Rattle.std.specs.Prelude.{◌≡◌, ◌≤◌, ◌<◌, ◌+◌, ◌*◌, ◌^◌, nat_lt, IfSome, IfNone};
ghost use Rattle.std.specs.Char.{digit_value};
ghost use Rattle.std.specs.List.{list_all};
ghost use Rattle.coco_base.specs.Numbers.{are_digits, literal_of, number_of};

/// Why a word gives no number.
#[derive(Clone, Copy, Debug, PartialEq, Eq)]
pub enum NumberFault {
    /// It is empty, or a character of it is no digit.
    NotDigits,
    /// The number is above the greatest one that is asked for.
    TooLarge,
}

/// Whether a word has digits of a radix alone, one at least. Letters of either case stand for the digits from ten on.
pub fn are_digits(word: &[u8], radix: u32) -> bool
    requires low { 2 ≤ radix }
    requires high { radix ≤ 36 }
    ensures { result ≡ are_digits radix word.now }
{
    match word {
        [] => false,
        [_, ..] => has_digits_alone(word, radix),
    }
}

fn has_digits_alone(word: &[u8], radix: u32) -> bool
    requires low { 2 ≤ radix }
    requires high { radix ≤ 36 }
    ensures { result ≡ list_all (λ d. nat_lt (digit_value d) radix) word.now }
{
    word.iter().all(|byte| char::from(*byte).is_digit(radix))
}

/// The number that digits of a radix write, up to `most`; leading zeros may stand before it.
pub fn number_of(word: &[u8], radix: u32, most: u64) -> Result<u64, NumberFault>
    requires low { 2 ≤ radix }
    requires high { radix ≤ 36 }
    ensures { result ≡ number_of radix most word.now }
{
    if !are_digits(word, radix) {
        return Err(NumberFault::NotDigits);
    }
    let mut number = 0u64;
    'digits: for byte in word {
        let Some(longer) = with_digit(number, *byte, radix, most) else {
            return Err(NumberFault::TooLarge);
        };
        number = longer;
    }
    Ok(number)
}

/// The number with a digit behind it, where that is at most `most`.
fn with_digit(number: u64, byte: u8, radix: u32, most: u64) -> Option<u64>
    requires low { 2 ≤ radix }
    requires high { radix ≤ 36 }
    requires digit { digit_value byte < radix }
    ensures some { IfSome result (λ n. (n ≡ number * radix + digit_value byte) × (n ≤ most)) }
    ensures none { IfNone result (most < number * radix + digit_value byte) }
{
    let digit = char::from(byte).to_digit(radix)?;
    let longer = number
        .checked_mul(u64::from(radix))?
        .checked_add(u64::from(digit))?;
    if longer <= most { Some(longer) } else { None }
}

/// The number of decimal digits, or of hexadecimal ones after `0x`, up to `most`.
pub fn literal_of(word: &[u8], most: u64) -> Result<u64, NumberFault>
    ensures { result ≡ literal_of most word.now }
{
    match word {
        [b'0', b'x', digits @ ..] => number_of(digits, 16, most),
        _ => number_of(word, 10, most),
    }
}
