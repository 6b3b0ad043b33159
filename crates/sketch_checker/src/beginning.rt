ghost use Rattle.std.specs.Prelude.{◌↔◌, IsTrue};
ghost use Rattle.sketch_checker.specs.Beginning.{CanBegin};

use board_base::{Colour, Odds};
use figures::Sketch;
use sketch_sets::{is_clash, is_crowded};
use sketch_walk::has_low_places;

/// Whether all places can be doubled, neither side has more figures than men in the array at these odds, and nobody clashes.
pub fn can_begin(odds: Odds, sketch: &Sketch) -> bool
    ensures { IsTrue result ↔ CanBegin odds sketch.now }
{
    if !has_low_places(sketch) {
        return false;
    }
    if is_crowded(odds, sketch, Colour::White) {
        return false;
    }
    if is_crowded(odds, sketch, Colour::Black) {
        return false;
    }
    !is_clash(sketch)
}
