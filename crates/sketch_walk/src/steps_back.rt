ghost use Rattle.std.specs.Prelude.{◌≡◌, ◌∷◌, [], IsTrue, MatchOption, SomeIff};
ghost use Rattle.sketch_list.specs.Listed.{earlier};
ghost use Rattle.sketch_walk.specs.Values.{can_step_back};

use crate::cursors::Cursor;
use crate::listed::Earlier;
use crate::shorts::{Shorts, has_room, shorts_of};
use crate::walking::first_from;
use board_base::Odds;
use figures::Sketch;
use sketch_steps::has_low_places;
use std::marker::Model;

/// The open steps of a sketch that are left to be given, each with the sketch before it, seen as their list.
///
/// A step is a capture by a pawn or a promotion that the sketch may have come by, and on an exact file any move of a pawn. It is open if
/// somebody can have been taken, if it took one, and if in the sketch before it, trimmed, nobody clashes and the side that made the step
/// gives no check. They come in the order of their figures, then of their targets from a1 to h8, of their origins (straight behind, two
/// behind, behind on the left and on the right), of their victims (nobody, a pawn, a bishop, a knight or rook or queen, a pawn en passant),
/// and of how many pawns stood above.
#[derive(Drop)]
pub struct StepsBack {
    odds: Odds,
    exact: [bool; 8],
    sketch: Sketch,
    shorts: Shorts,
    cursor: Cursor,
}

impl Model for StepsBack {
    ghost use Rattle.std.specs.Prelude.{List};
    ghost use Rattle.sketch_list.specs.Listed.{Earlier as AnEarlier};

    ghost Value = { List AnEarlier };

    ghost use Rattle.sketch_walk.specs.Walks.{IsReady, left_of};

    ghost view = { λ w. left_of w.odds w.exact w.sketch w.cursor };

    ghost invariant = { λ w. IsReady w.odds w.sketch w.shorts w.cursor };
}

/// Whether the sketch before each step has values: all places can be doubled, and there are fewer than 32 figures or no man of either side
/// can have been taken.
pub fn can_step_back(odds: Odds, sketch: &Sketch) -> bool
    ensures { result ≡ can_step_back odds sketch.now }
{
    let low = has_low_places(sketch);
    low & has_room(shorts_of(odds, sketch), sketch)
}

impl StepsBack {
    /// All open steps of the sketch at these odds, if these files are exact. None if and only if the sketch before some step might have
    /// no values: a place can't be doubled, or there are 32 figures and a man can have been taken.
    pub fn new(odds: Odds, exact: &[bool; 8], sketch: &Sketch) -> Option<StepsBack>
        ensures { SomeIff result (IsTrue (can_step_back odds sketch.now)) (earlier odds exact.now sketch.now) }
    {
        if !can_step_back(odds, sketch) {
            return None;
        }
        Some(StepsBack {
            odds,
            exact: *exact,
            sketch: sketch.copied(),
            shorts: shorts_of(odds, sketch),
            cursor: Cursor {
                by: 0,
                to: 0,
                way: 0,
                victim: 0,
                above: 0,
            },
        })
    }

    /// The first step that is left, with the sketch before it, which then is left no more. None if and only if none is left.
    pub fn next(&mut self) -> Option<Earlier>
        ensures { MatchOption result ((self.old ≡ []) × (self.new ≡ [])) (λ e. self.old ≡ e ∷ self.new) }
    {
        let look = first_from(&self.exact, self.shorts, &self.sketch, self.cursor);
        self.cursor = look.next;
        look.found
    }
}
