ghost use Rattle.std.specs.Prelude.{◌≡◌, Bool, List};
ghost use Rattle.figures.specs.Figures.{Sketch as ASketch};
ghost use Rattle.sketch_list.specs.Listed.{is_short, may_take};
ghost use Rattle.sketch_walk.specs.Shorts.{AreShort, has_room, of_side, takes_so};

use board_base::{Colour, Odds};
use figures::{Figure, Sketch};
use sketch_list::Victim;
use sketch_sets::{figures_of, men_begun};

/// Whether each side has fewer figures than men in the array.
#[derive(Clone, Copy)]
pub(crate) struct Shorts {
    pub(crate) white: bool,
    pub(crate) black: bool,
}

/// Whether the side has fewer figures than men in the array at these odds.
fn is_short(odds: Odds, sketch: &Sketch, colour: Colour) -> bool
    ensures { result ≡ is_short odds sketch.now colour }
{
    figures_of(sketch, colour) < men_begun(odds, colour)
}

/// Which sides are short of figures.
pub(crate) fn shorts_of(odds: Odds, sketch: &Sketch) -> Shorts
    ensures { AreShort odds sketch.now result }
{
    Shorts {
        white: is_short(odds, sketch, Colour::White),
        black: is_short(odds, sketch, Colour::Black),
    }
}

/// Whether this side is short.
fn of_side(shorts: Shorts, colour: Colour) -> bool
    ensures { result ≡ of_side shorts colour }
{
    match colour {
        Colour::White => shorts.white,
        Colour::Black => shorts.black,
    }
}

/// Whether the figure can have taken such a man.
pub(crate) fn takes_so(shorts: Shorts, figure: &Figure, victim: Victim) -> bool
    ensures { result ≡ takes_so shorts figure.now victim }
{
    let short = of_side(shorts, figure.colour.other());
    match victim {
        Victim::Nobody => true,
        Victim::TakenPawn => short,
        Victim::TakenBishop => short,
        Victim::TakenOther => short,
        Victim::PassedPawn => short,
    }
}

/// Whether there is room for one figure more, or there can be none.
pub(crate) fn has_room(shorts: Shorts, sketch: &Sketch) -> bool
    ensures { result ≡ has_room shorts sketch.now }
{
    (sketch.len() < 32) | !(shorts.white | shorts.black)
}
