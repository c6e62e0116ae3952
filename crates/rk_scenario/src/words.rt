ghost use Rattle.std.specs.Prelude.{◌≡◌, IfOk};
ghost use Rattle.std.specs.List.{list_all};
ghost use Rattle.rk_model.specs.Text.Words.{words_of, has_bytes, is_allowed, is_plain, is_skipped};

use rk_model::words::{Word, spaced};
use rk_model::{Items, NoMemory};
use std::alloc::Global;

/// Whether each byte may stand in a line.
pub(crate) fn is_plain(line: &[u8]) -> bool
    ensures { result ≡ is_plain line.now }
{
    line.iter().all(|b| 32 <= *b && *b <= 126)
}

/// Whether a line of these words is counted and skipped: it has none, or begins with `#`.
pub(crate) fn is_skipped(words: &[Word]) -> bool
    ensures { result ≡ is_skipped words.now }
{
    match words {
        [] => true,
        [word, ..] => word.as_slice().first().copied() == Some(b'#'),
    }
}

/// Whether a word has a byte.
fn has_bytes(word: &Word) -> bool
    ensures { result ≡ has_bytes word.now }
{
    match word.as_slice() {
        [] => false,
        [_, ..] => true,
    }
}

/// The words of a line.
pub(crate) fn find_words(alloc: Global, line: &[u8]) -> Result<Items<Word>, NoMemory>
    ensures { IfOk result (λ words. words ≡ words_of line.now) }
{
    let mut words = spaced(alloc, line)?.into_vec();
    words.retain(|word| has_bytes(word));
    Ok(Items::from_vec(words))
}
