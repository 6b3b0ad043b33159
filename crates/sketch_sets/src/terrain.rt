ghost use Rattle.std.specs.Prelude.{◌≡◌};
ghost use Rattle.sketch_sets.specs.Grounds.{ground_of, kings, touched};

use crate::ground::Ground;
use crate::touching::{is_held_home, kings_of, touched_squares};
use board_base::{CastleSet, Colour, SquareSet};
use figures::{Sketch, fixed_squares, squares_that};

/// What the ways of the sketch's figures depend on.
pub(crate) fn ground_of(held: CastleSet, sketch: &Sketch) -> Ground
    ensures { result ≡ ground_of held sketch.now }
{
    let fixed = fixed_squares(sketch);
    Ground {
        fixed,
        held: squares_that(|s| is_held_home(held, s)),
        white_kings: kings_of(sketch, Colour::White),
        black_kings: kings_of(sketch, Colour::Black),
        white_touched: touched_squares(sketch, Colour::White),
        black_touched: touched_squares(sketch, Colour::Black),
    }
}

/// The squares on which kings of this colour are fixed.
pub(crate) fn kings(ground: &Ground, colour: Colour) -> SquareSet
    ensures { result ≡ kings ground.now colour }
{
    match colour {
        Colour::White => ground.white_kings,
        Colour::Black => ground.black_kings,
    }
}

/// The squares that fixed figures of this colour touch.
pub(crate) fn touched(ground: &Ground, colour: Colour) -> SquareSet
    ensures { result ≡ touched ground.now colour }
{
    match colour {
        Colour::White => ground.white_touched,
        Colour::Black => ground.black_touched,
    }
}
