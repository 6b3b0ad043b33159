//! Men who never moved, but aren't the array's.

ghost use Rattle.std.specs.Prelude.{◌≡◌, IfSome, IsSome, None};
ghost use Rattle.sketch_grounds.specs.Begun.{begins_on};
ghost use Rattle.sketch_grounds.specs.Frozen.{AreBegun};
ghost use Rattle.sketch_prose.specs.Fixed.{IsBegunOn, IsForeignOn};
ghost use Rattle.sketch_prose.specs.Foreigners.{IsForeignIn};

use board_base::{Board, Man, Odds, Square, SquareSet, array_of};
use figures::{Figure, Sketch};

/// Whether the figure may stand for what stands there.
fn begins_on(place: Option<Man>, figure: &Figure) -> bool
    ensures { result ≡ begins_on place figure.now }
{
    match place {
        Some(man) => man.colour == figure.colour && figure.may_be(man.kind),
        None => false,
    }
}

/// The figure's square, if he is fixed on one of the set and can't stand for the man whom the array has there.
fn foreign_square(first: &Board, set: SquareSet, figure: &Figure) -> Option<Square>
    ensures foreign { IfSome result (IsForeignOn first.now set figure.now) }
    ensures none { result ≡ None → IsBegunOn first.now set figure.now }
{
    match figure.fixed_square() {
        Some(s) => {
            let there = set.has(s);
            let begins = begins_on(first.at(s), figure);
            let foreign = there & !begins;
            if foreign { Some(s) } else { None }
        }
        None => None,
    }
}

/// The square of the first such figure.
pub(crate) fn first_foreign(sketch: &Sketch, set: SquareSet, odds: Odds) -> Option<Square>
    ensures foreign { IfSome result (IsForeignIn odds sketch.now set) }
    ensures some { (AreBegun odds sketch.now set → ⊥) → IsSome result }
{
    let first = array_of(odds);
    for figure in sketch.figures() {
        match foreign_square(&first, set, figure) {
            Some(s) => return Some(s),
            None => {}
        }
    }
    None
}
