//! The words of a call.

ghost use Rattle.std.specs.Prelude.{◌↔◌, IsTrue, string_bytes};
ghost use Rattle.rk_cli.specs.Statuses.{IsWord};

/// Whether there is one word, and it is this.
pub(crate) fn is_word(words: &[String], name: &str) -> bool
    ensures { IsTrue result ↔ IsWord name.now string_bytes words.now }
{
    match words {
        [word] => word.as_str() == name,
        _ => false,
    }
}
