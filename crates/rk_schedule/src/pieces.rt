//! Pieces of text, added at the end of what is being made.

ghost use Rattle.std.specs.Prelude.{◌≡◌, ◌<◌, ◌≤◌, ◌++◌, ◌∷◌, [], OnOk, false};
ghost use Rattle.std.specs.Fmt.{decimal, digits, digit_glyph};

use rk_model::NoMemory;

/// Adds bytes.
pub fn push_bytes(out: &mut Vec<u8>, bytes: &[u8]) -> Result<(), NoMemory>
    ensures { OnOk result (out.new.items ≡ out.old.items ++ bytes.now) }
{
    out.extend_from_slice(bytes)?;
    Ok(())
}

/// Adds a text.
pub fn push_text(out: &mut Vec<u8>, text: &str) -> Result<(), NoMemory>
    ensures { OnOk result (out.new.items ≡ out.old.items ++ text.now) }
{
    push_bytes(out, text.as_bytes())
}

/// The most digits of a number in a base from 10 on.
const MOST_DIGITS: usize = 20;

/// The digit of a number, up to 15.
fn digit(number: u64) -> u8
    requires { number < 16 }
    ensures { result ≡ digit_glyph false number }
{
    if number < 10 {
        b'0' + number as u8
    } else {
        b'a' - 10 + number as u8
    }
}

/// Adds a number in the digits of a base.
#[tactic(auto, using(crate::proofs::DigitLemmas::digit_steps))]
fn push_digits(out: &mut Vec<u8>, base: u64, number: u64) -> Result<(), NoMemory>
    requires { (10 ≤ base) × (base ≤ 16) }
    ensures { OnOk result (out.new.items ≡ out.old.items ++ digits base false number) }
{
    let mut text = [0u8; MOST_DIGITS];
    let mut start = MOST_DIGITS;
    let mut left = number;
    loop {
        start -= 1;
        text[start] = digit(left % base);
        left /= base;
        if left == 0 {
            break;
        }
    }
    push_bytes(out, &text[start..])
}

/// Adds a number that has one digit.
fn push_digit(out: &mut Vec<u8>, number: u64) -> Result<(), NoMemory>
    requires { number < 16 }
    ensures { OnOk result (out.new.items ≡ out.old.items ++ digit_glyph false number ∷ []) }
{
    let text = [digit(number)];
    push_bytes(out, text.as_slice())
}

/// Adds a number in decimal digits.
#[tactic(auto, using(crate::proofs::DigitLemmas::one_digit))]
pub fn push_decimal(out: &mut Vec<u8>, number: u64) -> Result<(), NoMemory>
    ensures { OnOk result (out.new.items ≡ out.old.items ++ decimal number) }
{
    if number < 10 {
        push_digit(out, number)
    } else {
        push_digits(out, 10, number)
    }
}

/// Adds a number in hexadecimal digits.
#[tactic(auto, using(crate::proofs::DigitLemmas::one_digit))]
pub fn push_hex(out: &mut Vec<u8>, number: u64) -> Result<(), NoMemory>
    ensures { OnOk result (out.new.items ≡ out.old.items ++ digits 16 false number) }
{
    if number < 16 {
        push_digit(out, number)
    } else {
        push_digits(out, 16, number)
    }
}
