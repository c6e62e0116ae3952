//! The words of a schedule's lines.

ghost use Rattle.std.specs.Prelude.{◌≡◌, ◌∷◌, ◌++◌, [], ◌&&◌, ◌||◌, not, IfOk, OnOk, length, nat_lt};
ghost use Rattle.std.specs.List.{list_all};
ghost use Rattle.rk_model.specs.Text.Words.{is_digit, has_leading_zero};
ghost use Rattle.rk_model.specs.Text.ScheduleForms.{is_decimal, is_hex_digit, is_hexadecimal, is_lettered, is_place, is_place_from};

use rk_model::words::{is_body_name, is_digit};

/// Whether a word begins with a zero and has more than one byte.
fn has_leading_zero(word: &[u8]) -> bool
    ensures { result ≡ has_leading_zero word.now }
{
    match word {
        [first, _, ..] => *first == b'0',
        _ => false,
    }
}

/// Whether a byte is a hexadecimal digit in lower case.
fn is_hex_digit(byte: u8) -> bool
    ensures { result ≡ is_hex_digit byte }
{
    is_digit(byte) || (97 <= byte && byte <= 102)
}

/// Whether each byte is a digit.
fn are_digits(word: &[u8]) -> bool
    ensures { result ≡ list_all is_digit word.now }
{
    word.iter().all(|b| is_digit(*b))
}

/// Whether each byte is a hexadecimal digit.
fn are_hex_digits(word: &[u8]) -> bool
    ensures { result ≡ list_all is_hex_digit word.now }
{
    word.iter().all(|b| is_hex_digit(*b))
}

/// Whether a word is a decimal number without a leading zero.
#[tactic(auto, unfolding(rk_model::specs::Text::ScheduleForms::is_decimal))]
pub(crate) fn is_decimal(word: &[u8]) -> bool
    ensures { result ≡ is_decimal word.now }
{
    0 < word.len() && !has_leading_zero(word) && are_digits(word)
}

/// Whether a word is a hexadecimal number in lower case without a leading zero.
#[tactic(auto, unfolding(rk_model::specs::Text::ScheduleForms::is_hexadecimal))]
pub(crate) fn is_hexadecimal(word: &[u8]) -> bool
    ensures { result ≡ is_hexadecimal word.now }
{
    0 < word.len() && !has_leading_zero(word) && are_hex_digits(word)
}

/// Whether a word is a letter and a decimal number.
#[tactic(auto, unfolding(rk_model::specs::Text::ScheduleForms::is_lettered))]
pub(crate) fn is_lettered(letter: u8, word: &[u8]) -> bool
    ensures { result ≡ is_lettered letter word.now }
{
    match word {
        [] => false,
        [first, number @ ..] => *first == letter && is_decimal(number),
    }
}

/// Whether a word is a body's name, a colon and a decimal number.
pub(crate) fn is_place(word: &[u8]) -> bool
    ensures { result ≡ is_place word.now }
{
    for (at, byte) in word.iter().enumerate() {
        if *byte == b':' {
            return is_body_name(&word[..at]) && is_decimal(&word[at + 1..]);
        }
    }
    false
}
