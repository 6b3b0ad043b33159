ghost use Rattle.std.specs.Prelude.{◌≡◌, ◌||◌, ℕ, Some};
ghost use Rattle.std.specs.List.{list_any, range_with_len};
ghost use Rattle.figures.specs.Clashes.{is_clash};
ghost use Rattle.figures.specs.Figures.{is_fixed_on};
ghost use Rattle.figures.specs.Touching.{gives_check, side_checks};
ghost use Rattle.sketch_sets.specs.Clashes.{has_no_square, has_two};

use crate::masks::meets;
use crate::touching::{kings_of, touched_squares};
use board_base::{Colour, SquareSet};
use figures::{Figure, Sketch};

/// Whether the figure has no square.
fn has_no_square(figure: &Figure) -> bool
    ensures { result ≡ has_no_square figure.now }
{
    figure.squares.bits() == 0
}

/// Whether two figures are fixed on one square.
fn has_two(sketch: &Sketch) -> bool
    ensures { result ≡ has_two sketch.now }
{
    let mut seen = SquareSet::from_bits(0);
    for figure in sketch.figures() {
        if let Some(s) = figure.fixed_square() {
            if seen.has(s) {
                return true;
            }
            seen = seen.with(s);
        }
    }
    false
}

/// Whether some figure has no square.
fn has_nowhere(sketch: &Sketch) -> bool
    ensures { result ≡ list_any has_no_square sketch.now }
{
    sketch.figures().iter().any(|figure| has_no_square(figure))
}

/// Whether a figure has no square, or two are fixed on one.
pub fn is_clash(sketch: &Sketch) -> bool
    ensures { result ≡ is_clash sketch.now }
{
    has_nowhere(sketch) | has_two(sketch)
}

/// Whether a fixed figure of this colour surely touches a fixed enemy king.
pub fn gives_check(sketch: &Sketch, colour: Colour) -> bool
    ensures { result ≡ gives_check sketch.now colour }
{
    let kings = kings_of(sketch, colour.other());
    meets(kings, touched_squares(sketch, colour))
}

/// Whether one of the figure's colour does; false if there is no figure.
pub fn side_checks(sketch: &Sketch, figure: Option<Figure>) -> bool
    ensures { result ≡ side_checks sketch.now figure }
{
    match figure {
        Some(figure) => gives_check(sketch, figure.colour),
        None => false,
    }
}
