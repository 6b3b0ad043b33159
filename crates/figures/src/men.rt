ghost use Rattle.std.specs.Prelude.{◌≡◌, ℕ, MatchOption, false, length, true};
ghost use Rattle.past_sketches.specs.Figures.{is_fixed_on, may_be};

use crate::kinds::KindSet;
use crate::sets::{is_whole, only_square};
use board_base::{Colour, Kind, Square, SquareSet};
use std::marker::Model;

/// A figure: a man of this colour, of one of these kinds, on one of these squares. Marked, he was never promoted if he is an officer, and
/// never captured if he is a pawn. The place is his among the pawns of his file.
#[derive(Clone, Copy)]
pub struct Figure {
    /// The player whose man it is.
    pub colour: Colour,
    /// The kinds of which he may be.
    pub kinds: KindSet,
    /// The squares on which he may stand.
    pub squares: SquareSet,
    /// Whether he was never promoted, or never captured.
    pub marked: bool,
    /// His place among the pawns of his file.
    pub place: u8,
}

impl Model for Figure {
    ghost use Rattle.past_sketches.specs.Figures.{Figure as AFigure};

    ghost Value = { AFigure };

    ghost view = { λ f. record { colour = f.colour; kinds = f.kinds; squares = f.squares; marked = f.marked; place = f.place } };

    ghost inverse = { λ f. record { colour = f.colour; kinds = f.kinds; squares = f.squares; marked = f.marked; place = f.place } };
}

impl Default for Figure {
    fn default() -> Figure {
        Figure {
            colour: Colour::White,
            kinds: KindSet::none(),
            squares: SquareSet::from_bits(0),
            marked: false,
            place: 0,
        }
    }
}

impl Figure {
    /// Whether he may be of this kind.
    pub fn may_be(&self, kind: Kind) -> bool
        ensures { result ≡ may_be self.now kind }
    {
        self.kinds.has(kind)
    }

    /// The square on which he stands, if he has one alone.
    pub fn fixed_square(&self) -> Option<Square>
        ensures square { MatchOption result ((s : ℕ) → is_fixed_on s self.now ≡ false) (λ s. is_fixed_on s self.now ≡ true) }
        ensures size { length self.now.squares ≡ 64 }
    {
        is_whole(self.squares);
        only_square(self.squares)
    }

    /// Whether he stands on the square, as he has no other.
    pub fn is_fixed_on(&self, s: Square) -> bool
        ensures { result ≡ is_fixed_on s self.now }
    {
        match self.fixed_square() {
            Some(t) => s.index() == t.index(),
            None => false,
        }
    }
}
