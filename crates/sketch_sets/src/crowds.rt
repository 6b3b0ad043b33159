ghost use Rattle.std.specs.Prelude.{◌≡◌, count_by};
ghost use Rattle.std.specs.List.{range_with_len};
ghost use Rattle.board_base.specs.Board.{array_of, at, is_of, same_colour};
ghost use Rattle.figures.specs.Sets.{squares_that};
ghost use Rattle.figures.specs.Clashes.{is_crowded};
ghost use Rattle.sketch_sets.specs.Crowds.{is_on_side};

use crate::homes::count;
use crate::touching::is_same_colour;
use board_base::{Board, Colour, Odds, SquareSet, array_of, is_of};
use figures::{Figure, Sketch, squares_that};

/// The squares of the men of this colour.
fn men_of(board: &Board, colour: Colour) -> SquareSet
    ensures { result ≡ squares_that (λ h. is_of colour (at board.now h)) }
{
    squares_that(|h| is_of(colour, board.at(h)))
}

/// Whether the figure has this colour.
fn is_on_side(colour: Colour, figure: &Figure) -> bool
    ensures { result ≡ is_on_side colour figure.now }
{
    is_same_colour(colour, figure.colour)
}

/// How many figures have this colour.
pub fn figures_of(sketch: &Sketch, colour: Colour) -> usize
    ensures { result ≡ count_by (λ f. same_colour colour f.colour) sketch.now }
{
    sketch
        .figures()
        .iter()
        .filter(|figure| is_on_side(colour, *figure))
        .count()
}

/// How many men of this colour the array has at these odds.
pub fn men_begun(odds: Odds, colour: Colour) -> usize
    ensures { result ≡ count_by (λ h. is_of colour (at (array_of odds) h)) (range_with_len 0 64) }
{
    count(men_of(&array_of(odds), colour))
}

/// Whether there are more figures of the colour than men of it in the array at these odds.
pub fn is_crowded(odds: Odds, sketch: &Sketch, colour: Colour) -> bool
    ensures { result ≡ is_crowded odds sketch.now colour }
{
    let begun = men_begun(odds, colour);
    let now = figures_of(sketch, colour);
    begun < now
}
