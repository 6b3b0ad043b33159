ghost use Rattle.std.specs.Prelude.{◌≡◌, ◌≢◌, ◌<◌, ℕ, MatchOption, length, slice_index};
ghost use Rattle.board_base.specs.Board.{home_of};

use board_base::{Colour, Square};

/// Which of the men stands on this square; None if and only if none does.
pub(crate) fn place_among(men: &[u8], t: Square) -> Option<usize>
    ensures { MatchOption result ((i : ℕ) → i < length men.now → slice_index men.now i ≢ t) (λ i. (i < length men.now) × (slice_index men.now i ≡ t)) }
{
    for i in 0..men.len() {
        if men[i] == t.index() {
            return Some(i);
        }
    }
    None
}

/// Which of the sixteen homes of a side this square is; None if and only if it is none of them.
pub(crate) fn place_of_home(side: Colour, k: Square) -> Option<u8>
    ensures { MatchOption result ((j : ℕ) → j < 16 → home_of side j ≢ k) (λ j. (j < 16) × (home_of side j ≡ k)) }
{
    let index = k.index();
    let place = match side {
        Colour::White => index,
        Colour::Black => index.wrapping_sub(48),
    };
    if place < 16 { Some(place) } else { None }
}
