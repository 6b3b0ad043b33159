ghost use Rattle.std.specs.Prelude.{◌≡◌, false};
ghost use Rattle.std.specs.List.{list_any};
ghost use Rattle.figures.specs.Clashes.{is_nowhere};
ghost use Rattle.figures.specs.Figures.{IsAbove, Sketch as ASketch};
ghost use Rattle.sketch_sets.specs.Leasts.{IsClosedAbove};

use crate::origins::widened;
use crate::remade::{are_whole, has_same_sets};
use board_base::CastleSet;
use figures::Sketch;

/// The least closed sketch above a sketch, with the same figures, if these rights are held and pawns have no quiet ways on these files: it
/// is above it and closed (`closed`), and so each other sketch with the same figures that is both is above this one, unless a figure has no
/// square (`least`).
pub fn least_closed(held: CastleSet, exact: &[bool; 8], sketch: &Sketch) -> Sketch
    ensures closed { IsClosedAbove held exact.now sketch.now result }
    ensures least { list_any is_nowhere sketch.now ≡ false → (other : ASketch) → IsClosedAbove held exact.now sketch.now other → IsAbove result other }
{
    are_whole(sketch);
    let mut wide = widened(held, exact, sketch);
    'rounds: loop {
        let more = widened(held, exact, &wide);
        if has_same_sets(&wide, &more) {
            return wide;
        }
        wide = more;
    }
}
