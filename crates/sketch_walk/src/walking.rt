ghost use Rattle.std.specs.Prelude.{◌≡◌, ◌<◌, Bool, IsTrue, List, Some, length};
ghost use Rattle.std.specs.List.{list_all};
ghost use Rattle.figures.specs.Figures.{figure_at};
ghost use Rattle.sketch_steps.specs.Places.{has_low_place};
ghost use Rattle.sketch_walk.specs.Cursors.{IsInside, number_of};
ghost use Rattle.sketch_walk.specs.Shorts.{AreShort, has_room};
ghost use Rattle.sketch_walk.specs.Walks.{Ended, Finding, left_of, way_at};

use crate::before::sound_before;
use crate::cursors::{Cursor, past_place, past_square, past_victim, past_way};
use crate::goings::may_go;
use crate::listed::{Earlier, Listed};
use crate::places::may_be_above;
use crate::shorts::{Shorts, takes_so};
use crate::ways::{may_come, origin, victim_at};
use board_base::Square;
use figures::{Figure, Sketch};

/// What a look at a place finds, and where the walk goes on.
#[derive(Drop)]
pub(crate) struct Look {
    pub(crate) found: Option<Earlier>,
    pub(crate) next: Cursor,
}

/// The figure's step of this place, if it is open, and the next place that is worth a look.
fn look_at(
    exact: &[bool; 8],
    shorts: Shorts,
    sketch: &Sketch,
    figure: &Figure,
    step: &Listed,
    cursor: Cursor,
) -> Look
    requires low { IsTrue (list_all has_low_place sketch.now) }
    requires room { IsTrue (has_room shorts sketch.now) }
    requires few { length sketch.now < 33 }
    requires figure { figure_at sketch.now cursor.by ≡ Some figure.now }
    requires here { cursor.by < length sketch.now }
    requires step { step.now ≡ way_at cursor.by figure.now cursor.to cursor.way cursor.victim cursor.above }
    requires inside { IsInside cursor }
    ensures found { (o : List Bool) → AreShort o sketch.now shorts → Finding (left_of o exact.now sketch.now cursor) result.found (left_of o exact.now sketch.now result.next) }
    ensures inside { IsInside result.next }
    ensures later { number_of cursor < number_of result.next }
{
    if !takes_so(shorts, figure, step.victim) {
        return Look {
            found: None,
            next: past_victim(cursor),
        };
    }
    if !may_go(exact, figure, step) {
        return Look {
            found: None,
            next: past_victim(cursor),
        };
    }
    if !may_be_above(sketch, figure, step) {
        return Look {
            found: None,
            next: past_victim(cursor),
        };
    }
    let next = past_place(cursor, sketch.len());
    match sound_before(exact, sketch, figure, step) {
        Some(before) => Look {
            found: Some(Earlier {
                step: *step,
                sketch: before,
            }),
            next,
        },
        None => Look { found: None, next },
    }
}

/// The step of this place, if it is open, and the next place that is worth a look.
fn look_from(exact: &[bool; 8], shorts: Shorts, sketch: &Sketch, cursor: Cursor) -> Look
    requires low { IsTrue (list_all has_low_place sketch.now) }
    requires room { IsTrue (has_room shorts sketch.now) }
    requires here { cursor.by < length sketch.now }
    requires inside { IsInside cursor }
    ensures found { (o : List Bool) → AreShort o sketch.now shorts → Finding (left_of o exact.now sketch.now cursor) result.found (left_of o exact.now sketch.now result.next) }
    ensures inside { IsInside result.next }
    ensures later { number_of cursor < number_of result.next }
{
    let figures = sketch.figures();
    let i = cursor.by as usize;
    let figure = &figures[i];
    let to = Square::known(cursor.to);
    if !may_come(figure, to) {
        return Look {
            found: None,
            next: past_square(cursor),
        };
    }
    match origin(figure.colour, to, cursor.way) {
        Some(from) => {
            let step = Listed {
                by: cursor.by,
                from,
                to,
                victim: victim_at(cursor.victim),
                above: cursor.above,
            };
            look_at(exact, shorts, sketch, figure, &step, cursor)
        }
        None => Look {
            found: None,
            next: past_way(cursor),
        },
    }
}

/// The first open step from this place on, and where the walk goes on after it.
pub(crate) fn first_from(exact: &[bool; 8], shorts: Shorts, sketch: &Sketch, start: Cursor) -> Look
    requires low { IsTrue (list_all has_low_place sketch.now) }
    requires room { IsTrue (has_room shorts sketch.now) }
    requires inside { IsInside start }
    ensures found { (o : List Bool) → AreShort o sketch.now shorts → Ended (left_of o exact.now sketch.now start) result.found (left_of o exact.now sketch.now result.next) }
    ensures inside { IsInside result.next }
{
    let mut cursor = start;
    'places: while (cursor.by as usize) < sketch.len() {
        let Look { found, next } = look_from(exact, shorts, sketch, cursor);
        match found {
            Some(earlier) => {
                return Look {
                    found: Some(earlier),
                    next,
                };
            }
            None => cursor = next,
        }
    }
    Look {
        found: None,
        next: cursor,
    }
}
