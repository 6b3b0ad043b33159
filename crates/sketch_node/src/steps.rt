ghost use Rattle.std.specs.Prelude.{◌≡◌, IsTrue, MatchOption, false, length};
ghost use Rattle.std.specs.List.{Contains};
ghost use Rattle.figures.specs.Figures.{Figure as AFigure, Sketch as ASketch};
ghost use Rattle.figures.specs.Homes.{may_be_array};
ghost use Rattle.sketch_node.specs.Nodes.{IsLeastAbove};

use board_base::{CastleSet, Odds};
use figures::{Sketch, is_whole};
use sketch_sets::{least_closed, may_be_array};

/// Tells the caller that each figure's set has 64 truth values.
fn are_whole(sketch: &Sketch)
    ensures { (f : AFigure) → Contains sketch.now f → length f.squares ≡ 64 }
{
    for figure in sketch.figures() {
        is_whole(figure.squares);
    }
}

/// The least closed sketch above a sketch, before whose steps others stand, if these rights are held and pawns have no quiet ways on these
/// files. None comes if and only if it may be the array at these odds, and nothing need have been before.
pub fn before_steps(
    sketch: &Sketch,
    held: CastleSet,
    exact: &[bool; 8],
    odds: Odds,
) -> Option<Sketch>
    ensures { MatchOption result ((T : ASketch) × IsLeastAbove held exact.now sketch.now T × IsTrue (may_be_array odds T)) (λ T. IsLeastAbove held exact.now sketch.now T × (may_be_array odds T ≡ false)) }
{
    let wide = least_closed(held, exact, sketch);
    are_whole(&wide);
    if may_be_array(odds, &wide) {
        None
    } else {
        Some(wide)
    }
}
