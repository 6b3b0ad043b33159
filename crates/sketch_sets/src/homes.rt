ghost use Rattle.std.specs.Prelude.{◌≡◌, ◌≤◌, nat_lt, count_by, not};
ghost use Rattle.std.specs.List.{list_all};
ghost use Rattle.board_base.specs.Board.{same_colour};
ghost use Rattle.figures.specs.Homes.{may_be_array};
ghost use Rattle.sketch_sets.specs.Homes.{has_like, home_count, homes_on};
ghost use Rattle.sketch_sets.specs.Lodging.{lives_in, suffices};

use crate::masks::{is_within, those_that};
use crate::remade::with_sets;
use board_base::{Board, Odds, Square, SquareSet, array_of, is_the};
use figures::{Figure, Sketch};

/// Whether the board has a man of the figure's colour and of one of his kinds on `h`.
fn has_like(first: &Board, figure: &Figure, h: Square) -> bool
    ensures { result ≡ has_like first.now figure.now h }
{
    let colour = figure.colour;
    let place = first.at(h);
    figure.kinds.any(|kind| is_the(colour, kind, place))
}

/// The squares of the figure's set on which the board has a man of his colour and of one of his kinds.
pub fn homes_on(first: &Board, figure: Figure) -> SquareSet
    ensures { result ≡ homes_on first.now figure }
{
    those_that(figure.squares, |h| has_like(first, &figure, h))
}

/// How many squares the set has.
pub fn count(set: SquareSet) -> usize
    ensures { result ≡ home_count set }
{
    let mut n = 0usize;
    for i in 0..64 {
        if set.has(Square::known(i)) {
            n += 1;
        }
    }
    n
}

/// Whether all squares of the second figure are squares of the first.
fn lives_in(figure: &Figure, other: &Figure) -> bool
    ensures { result ≡ lives_in figure.now other.now }
{
    is_within(other.squares, figure.squares)
}

/// How many figures have all their squares within those of the figure.
fn lodgers(sketch: &Sketch, figure: &Figure) -> usize
    ensures { result ≡ count_by (lives_in figure.now) sketch.now }
{
    sketch
        .figures()
        .iter()
        .filter(|other| lives_in(figure, *other))
        .count()
}

/// Whether no more figures have all their squares within those of the figure than these are.
fn suffices(sketch: &Sketch, figure: &Figure) -> bool
    ensures { result ≡ suffices sketch.now figure.now }
{
    let beds = count(figure.squares);
    let wanted = lodgers(sketch, figure);
    !(beds < wanted)
}

/// Whether it is so for each.
fn all_suffice(sketch: &Sketch) -> bool
    ensures { result ≡ list_all (suffices sketch.now) sketch.now }
{
    sketch
        .figures()
        .iter()
        .all(|figure| suffices(sketch, figure))
}

/// Whether the sketch may be the array at these odds: each figure has a home in his set, and there are as many homes as figures want.
pub fn may_be_array(odds: Odds, sketch: &Sketch) -> bool
    ensures { result ≡ may_be_array odds sketch.now }
{
    let first = array_of(odds);
    all_suffice(&with_sets(sketch, |figure| homes_on(&first, figure)))
}
