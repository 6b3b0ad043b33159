ghost use Rattle.std.specs.Prelude.{◌≡◌, ◌↔◌, IsTrue, length};
ghost use Rattle.board_base.specs.Board.{at};
ghost use Rattle.sketch_grounds.specs.Begun.{begins_on, is_begun};
ghost use Rattle.past_account.specs.Frozen.{AreBegun};

use board_base::{Board, Man, Odds, Square, SquareSet, array_of};
use figures::{Figure, Sketch};

/// Whether the figure may stand for what stands there.
fn begins_on(place: Option<Man>, figure: &Figure) -> bool
    ensures { result ≡ begins_on place figure.now }
{
    match place {
        Some(man) => man.colour == figure.colour && figure.may_be(man.kind),
        None => false,
    }
}

/// Whether the array has a man whom the figure may stand for where he is fixed, if that is in the set.
fn is_begun(first: &Board, set: SquareSet, figure: &Figure) -> bool
    ensures begun { result ≡ is_begun first.now set figure.now }
    ensures size { length figure.now.squares ≡ 64 }
{
    match figure.fixed_square() {
        Some(s) => !set.has(s) || begins_on(first.at(s), figure),
        None => true,
    }
}

/// Whether the array at these odds has, on each square of the set on which a figure is fixed, a man whom he may stand for.
pub fn are_begun(sketch: &Sketch, set: SquareSet, odds: Odds) -> bool
    ensures { IsTrue result ↔ AreBegun odds sketch.now set }
{
    let first = array_of(odds);
    for figure in sketch.figures() {
        if !is_begun(&first, set, figure) {
            return false;
        }
    }
    true
}
