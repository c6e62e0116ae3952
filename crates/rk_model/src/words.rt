//! The lines of a text and the words of a line, and what may be in a word.

ghost use Rattle.std.specs.Prelude.{◌≡◌, ◌<◌, ◌∷◌, ◌++◌, [], IfOk, IfSome, MatchOption, OnOk, length};
ghost use Rattle.std.specs.List.{list_all};
ghost use Rattle.rk_model.specs.Text.Words.{whole_lines, whole_from, loose_end, loose_from, spaced, spaced_from, is_digit, is_lower, is_body_byte, is_body_name};

use crate::items::Items;
use crate::memory::NoMemory;
use std::alloc::Global;

/// A word of a line: it has no space.
pub type Word = Items<u8>;

/// The first line of bytes, which ends with a line feed, without it, and the bytes behind it; `None`
/// where there is no line feed.
pub fn split_line(text: &[u8]) -> Option<(&[u8], &[u8])>
    ensures lines { MatchOption result (whole_lines text.now ≡ []) (λ p. whole_lines text.now ≡ p.0.now ∷ whole_lines p.1.now) }
    ensures loose { MatchOption result (loose_end text.now ≡ text.now) (λ p. loose_end text.now ≡ loose_end p.1.now) }
    ensures less { IfSome result (λ p. length p.1.now < length text.now) }
{
    for (at, byte) in text.iter().enumerate() {
        if *byte == b'\n' {
            return Some((&text[..at], &text[at + 1..]));
        }
    }
    None
}

/// Adds a word.
fn push_word(words: &mut Items<Word>, alloc: Global, word: &[u8]) -> Result<(), NoMemory>
    ensures { OnOk result (words.new ≡ words.old ++ word.now ∷ []) }
{
    words.push(Items::from_slice(alloc, word)?)?;
    Ok(())
}

/// The words of a line in which one space stands between each two: beside a further space is an empty
/// word.
///
/// # Errors
///
/// `NoMemory` where there is no memory for the words.
pub fn spaced(alloc: Global, line: &[u8]) -> Result<Items<Word>, NoMemory>
    ensures { IfOk result (λ words. words ≡ spaced line.now) }
{
    let mut words = Items::new(alloc);
    let mut word = Vec::new(alloc);
    for byte in line {
        if *byte == b' ' {
            push_word(&mut words, alloc, word.as_slice())?;
            word.clear();
        } else {
            word.push(*byte)?;
        }
    }
    push_word(&mut words, alloc, word.as_slice())?;
    Ok(words)
}

/// Whether a byte is a decimal digit.
pub fn is_digit(byte: u8) -> bool
    ensures { result ≡ is_digit byte }
{
    matches!(byte, b'0'..=b'9')
}

/// Whether a byte is a small letter.
fn is_lower(byte: u8) -> bool
    ensures { result ≡ is_lower byte }
{
    matches!(byte, b'a'..=b'z')
}

/// Whether a byte may stand in a body's name.
fn is_body_byte(byte: u8) -> bool
    ensures { result ≡ is_body_byte byte }
{
    matches!(byte, b'a'..=b'z' | b'0'..=b'9' | b'_')
}

/// Whether all bytes may stand in a body's name.
fn are_body_bytes(bytes: &[u8]) -> bool
    ensures { result ≡ list_all is_body_byte bytes.now }
{
    bytes.iter().all(|b| is_body_byte(*b))
}

/// Whether a word may be a body's name: 1 to 16 small letters, digits or underscores, the first of
/// them a letter.
#[tactic(auto, unfolding(crate::specs::Text::Words::is_body_name))]
pub fn is_body_name(word: &[u8]) -> bool
    ensures { result ≡ is_body_name word.now }
{
    match word {
        [] => false,
        [first, more @ ..] => is_lower(*first) && are_body_bytes(more) && more.len() <= 15,
    }
}
