ghost use Rattle.std.specs.Prelude.{◌≡◌, MatchOption, None, Some};
ghost use Rattle.fen_text.specs.Parts.{cut_at};

use fen_text::split_part;

/// What stands before the first space of the text, and what stands behind it; None if it has none.
pub(crate) fn halves(text: &[u8]) -> Option<(&[u8], &[u8])>
    ensures { MatchOption result (cut_at 32 text.now ≡ None) (λ p. cut_at 32 text.now ≡ Some (p.0.now, p.1.now)) }
{
    let (front, rest) = split_part(text, b' ');
    match rest {
        Some(rest) => Some((front, rest)),
        None => None,
    }
}
