ghost use Rattle.std.specs.Prelude.{◌≡◌, ◌+◌, ◌<◌, IsTrue, cond, max};
ghost use Rattle.std.specs.List.{list_all};
ghost use Rattle.board_base.specs.Board.{file};
ghost use Rattle.sketch_steps.specs.Places.{has_low_place};
ghost use Rattle.sketch_list.specs.Listed.{count_from, is_advance, is_from, is_on_file, is_passed, is_under, kind_taken, may_be_above, next_above, place_before, step_for};

use crate::listed::Listed;
use board_base::{Kind, Square, last_rank};
use figures::{Figure, Sketch};
use sketch_list::Victim;
use sketch_sets::has_file;
use sketch_steps::Step;

/// Whether the figure may be a pawn on the file of `s`.
fn is_on_file(s: Square, figure: &Figure) -> bool
    ensures { result ≡ is_on_file (file s) figure.now }
{
    figure.may_be(Kind::Pawn) & has_file(figure.squares, s.file())
}

/// Whether he may, in this place or a higher one.
fn is_from(s: Square, place: u8, figure: &Figure) -> bool
    ensures { result ≡ is_from (file s) place figure.now }
{
    let on = is_on_file(s, figure);
    on & !(figure.place < place)
}

/// How many are there from this place on.
#[tactic(auto, unfolding(sketch_list::specs::Listed::count_from))]
fn count_from(sketch: &Sketch, s: Square, place: u8) -> usize
    ensures { result ≡ count_from sketch.now (file s) place }
{
    sketch
        .figures()
        .iter()
        .filter(|figure| is_from(s, place, *figure))
        .count()
}

/// Whether a pawn on the file of `s` above whom there are so many is above this figure.
fn is_under(sketch: &Sketch, s: Square, above: u8, figure: &Figure) -> bool
    ensures { result ≡ is_under sketch.now (file s) above figure.now }
{
    if !is_on_file(s, figure) {
        return false;
    }
    usize::from(above) < count_from(sketch, s, figure.place)
}

/// The place, or the one above the figure's if that is higher and he is under.
fn raised(place: u8, figure: &Figure, under: bool) -> u8
    requires { figure.now.place < 127 }
    ensures { result ≡ max place (cond under (figure.now.place + 1) 0) }
{
    if !under {
        return place;
    }
    place.max(figure.place + 1)
}

/// The lowest place of a pawn on the file of `s` above whom there are so many.
fn next_above(sketch: &Sketch, s: Square, above: u8) -> u8
    requires { IsTrue (list_all has_low_place sketch.now) }
    ensures value { result ≡ next_above (is_under sketch.now (file s) above) sketch.now }
    ensures low { result < 128 }
{
    let mut place = 0;
    for figure in sketch.figures() {
        let under = is_under(sketch, s, above, figure);
        place = raised(place, figure, under);
    }
    place
}

/// Whether the figure went straight on, and is still a pawn.
fn is_advance(figure: &Figure, step: &Listed) -> bool
    ensures { result ≡ is_advance figure.now step.now }
{
    (step.from.file() == step.to.file()) & !(step.to.rank() == last_rank(figure.colour))
}

/// His place before the step.
fn place_before(sketch: &Sketch, figure: &Figure, step: &Listed) -> u8
    requires low { IsTrue (list_all has_low_place sketch.now) }
    requires figure { figure.now.place < 127 }
    ensures value { result ≡ place_before sketch.now figure.now step.now }
    ensures low { result < 128 }
{
    if is_advance(figure, step) {
        return figure.place;
    }
    next_above(sketch, step.from, step.above)
}

/// The kind of the man whom he took on the target; for a knight, a rook or a queen the knight.
fn kind_taken(victim: Victim) -> Option<Kind>
    ensures { result ≡ kind_taken victim }
{
    match victim {
        Victim::Nobody => None,
        Victim::TakenPawn => Some(Kind::Pawn),
        Victim::TakenBishop => Some(Kind::Bishop),
        Victim::TakenOther => Some(Kind::Knight),
        Victim::PassedPawn => None,
    }
}

/// Whether he took a pawn en passant.
fn is_passed(victim: Victim) -> bool
    ensures { result ≡ is_passed victim }
{
    match victim {
        Victim::PassedPawn => true,
        Victim::Nobody | Victim::TakenPawn | Victim::TakenBishop | Victim::TakenOther => false,
    }
}

/// The listed step as a step of the sketch.
pub(crate) fn step_for(sketch: &Sketch, figure: &Figure, step: &Listed) -> Step
    requires low { IsTrue (list_all has_low_place sketch.now) }
    requires figure { figure.now.place < 127 }
    ensures value { result ≡ step_for sketch.now figure.now step.now }
    ensures low { result.place < 128 }
{
    Step {
        by: step.by,
        from: step.from,
        to: step.to,
        taken: kind_taken(step.victim),
        passing: is_passed(step.victim),
        place: place_before(sketch, figure, step),
    }
}

/// Whether so many can have been above him.
pub(crate) fn may_be_above(sketch: &Sketch, figure: &Figure, step: &Listed) -> bool
    ensures { result ≡ may_be_above sketch.now figure.now step.now }
{
    if is_advance(figure, step) {
        return step.above == 0;
    }
    !(count_from(sketch, step.from, 0) < usize::from(step.above))
}
