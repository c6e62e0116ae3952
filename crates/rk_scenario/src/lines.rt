ghost use Rattle.std.specs.Prelude.{◌≡◌, ◌<◌, [], ◌∷◌, length, IfSome, MatchOption};
ghost use Rattle.rk_model.specs.Text.Words.{lines_of};

use rk_model::words::split_line;

/// The first line of a text, and the text behind it; `None` where there is no line. The last line may
/// lack its line feed.
pub(crate) fn next_line(text: &[u8]) -> Option<(&[u8], &[u8])>
    ensures lines { MatchOption result (lines_of text.now ≡ []) (λ p. lines_of text.now ≡ p.0.now ∷ lines_of p.1.now) }
    ensures less { IfSome result (λ p. length p.1.now < length text.now) }
{
    match split_line(text) {
        Some(parts) => Some(parts),
        None => {
            if text.is_empty() {
                None
            } else {
                Some((text, &[]))
            }
        }
    }
}
