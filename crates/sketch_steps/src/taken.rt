ghost use Rattle.std.specs.Prelude.{◌≡◌, ◌<◌, ◌≤◌, IfSome, IsTrue, SomeIff, length};
ghost use Rattle.std.specs.List.{list_all};
ghost use Rattle.board_base.specs.Play.{ahead, behind};
ghost use Rattle.figures.specs.Figures.{Figure as AFigure, IsRearranged, each_changed};
ghost use Rattle.figures.specs.Steps.{changed_by, taken_back, victim_on, victims};
ghost use Rattle.sketch_steps.specs.Cleared.{bystander_with, changed_with, clears, listed, pawn_of};
ghost use Rattle.sketch_steps.specs.Places.{before_step, can_go_back, fits_before, has_home, has_low_place, others_first};

use crate::places::recounted;
use crate::steps::Step;
use board_base::{Colour, Kind, Square, SquareSet, ranks_between};
use figures::{Figure, KindSet, Sketch, both, only_on, squares_that};
use sketch_sets::on_the_way;

/// The number of the square ahead of `s`, as pawns of this colour go.
pub fn ahead(colour: Colour, s: Square) -> u8
    ensures { result ≡ ahead colour s }
{
    match colour {
        Colour::White => s.index() + 8,
        Colour::Black => s.index().saturating_sub(8),
    }
}

/// The number of the square behind `s`.
fn behind(colour: Colour, s: Square) -> u8
    ensures { result ≡ behind colour s }
{
    match colour {
        Colour::White => s.index().saturating_sub(8),
        Colour::Black => s.index() + 8,
    }
}

/// Whether before the step nobody else stood on the square.
fn clears(colour: Colour, step: &Step, s: Square) -> bool
    ensures { result ≡ clears colour step.now s }
{
    let n = s.index();
    let over = (ranks_between(step.from, step.to) == 2) & (n == on_the_way(step.from, step.to, 1));
    let past = step.passing & ((n == behind(colour, step.to)) | (n == ahead(colour, step.to)));
    (n == step.from.index()) | (n == step.to.index()) | over | past
}

/// The figure before a step that he didn't make and that left others these squares.
fn bystander(kept: SquareSet, figure: &Figure) -> Figure
    requires { figure.now.place < 127 }
    ensures { result ≡ bystander_with kept figure.now }
{
    Figure {
        colour: figure.colour,
        kinds: figure.kinds,
        squares: both(figure.squares, kept),
        marked: figure.marked,
        place: 2 * figure.place + 1,
    }
}

/// The figure before the step that he made.
fn pawn_before(step: &Step, figure: &Figure) -> Figure
    requires { step.now.place < 128 }
    ensures { result ≡ pawn_of step.now figure.now }
{
    Figure {
        colour: figure.colour,
        kinds: KindSet::one(Kind::Pawn),
        squares: only_on(step.from),
        marked: figure.marked,
        place: 2 * step.place,
    }
}

/// The man of this kind whom the figure took on a square.
pub fn victim_on(figure: &Figure, kind: Kind, s: Square) -> Figure
    requires { figure.now.place < 127 }
    ensures { result ≡ victim_on figure.now kind s }
{
    Figure {
        colour: figure.colour.other(),
        kinds: KindSet::one(kind),
        squares: only_on(s),
        marked: false,
        place: 2 * figure.place + 1,
    }
}

/// The figure with this number before the step, which left others these squares.
fn changed(kept: SquareSet, step: &Step, i: usize, figure: &Figure) -> Figure
    requires step { step.now.place < 128 }
    requires figure { figure.now.place < 127 }
    ensures { result ≡ changed_with kept step.now i figure.now }
{
    if i == step.by as usize {
        return pawn_before(step, figure);
    }
    bystander(kept, figure)
}

/// The man whom the figure took with the step, if there is one.
fn victim(mover: &Figure, step: &Step) -> Option<Figure>
    requires place { mover.now.place < 127 }
    requires home { IsTrue (has_home mover.now step.now) }
    ensures { listed result ≡ victims mover.now step.now }
{
    if step.passing {
        let home = Square::known(ahead(mover.colour, step.to));
        return Some(victim_on(mover, Kind::Pawn, home));
    }
    match step.taken {
        Some(kind) => Some(victim_on(mover, kind, step.to)),
        None => None,
    }
}

/// How many men a step took.
fn taken_count(step: &Step) -> usize
    ensures value { (f : AFigure) → result ≡ length (victims f step.now) }
    ensures few { result ≤ 1 }
{
    if step.passing {
        return 1;
    }
    match step.taken {
        Some(_) => 1,
        None => 0,
    }
}

/// Whether the pawn that the figure took en passant, if he did, came from a square of the board.
fn has_home(mover: &Figure, step: &Step) -> bool
    ensures { result ≡ has_home mover.now step.now }
{
    !step.passing | (ahead(mover.colour, step.to) < 64)
}

/// Whether the figure's place can be doubled.
fn has_low_place(figure: &Figure) -> bool
    ensures { result ≡ has_low_place figure.now }
{
    figure.place < 127
}

/// Whether all places can be doubled, and one more than twice each is below 256.
pub fn has_low_places(sketch: &Sketch) -> bool
    ensures { result ≡ list_all has_low_place sketch.now }
{
    sketch.figures().iter().all(|figure| has_low_place(figure))
}

/// Whether the sketch before the figure's step has values for its places, and at most 32 figures.
fn fits(sketch: &Sketch, mover: &Figure, step: &Step) -> bool
    ensures { result ≡ fits_before sketch.now mover.now step.now }
{
    let few = sketch.len() + taken_count(step) < 33;
    let low = has_low_places(sketch);
    few & (step.place < 128) & has_home(mover, step) & low
}

/// Each figure before the step that one of this colour made.
pub fn each_before(colour: Colour, sketch: &Sketch, step: &Step) -> Sketch
    requires step { step.now.place < 128 }
    requires figures { IsTrue (list_all has_low_place sketch.now) }
    ensures { result ≡ each_changed (changed_by colour step.now) 0 sketch.now }
{
    let kept = squares_that(|s| !clears(colour, step, s));
    let mut before = Sketch::new();
    for (i, figure) in sketch.figures().iter().enumerate() {
        before.push(changed(kept, step, i, figure));
    }
    before
}

/// Each figure before the step that this one made, and then the victim, if there was one.
fn others_first(sketch: &Sketch, mover: &Figure, step: &Step) -> Sketch
    requires fits { IsTrue (fits_before sketch.now mover.now step.now) }
    requires place { mover.now.place < 127 }
    ensures { result ≡ others_first sketch.now mover.now step.now }
{
    let mut before = each_before(mover.colour, sketch, step);
    if let Some(man) = victim(mover, step) {
        before.push(man);
    }
    before
}

/// The sketch before the step, with the victim last and the places counted anew: the one of the laws, rearranged. None if and only if
/// nobody made the step, a place is too large to be doubled, there would be more than 32 figures, or a pawn taken en passant would have
/// come from off the board.
pub fn taken_back(sketch: &Sketch, step: &Step) -> Option<Sketch>
    ensures value { SomeIff result (IsTrue (can_go_back sketch.now step.now)) (before_step sketch.now step.now) }
    ensures rearranged { IfSome result (λ before. IsRearranged (taken_back sketch.now step.now) before) }
{
    let mover = sketch.get(step.by as usize)?;
    if !fits(sketch, &mover, step) {
        return None;
    }
    let before = others_first(sketch, &mover, step);
    Some(recounted(&before))
}
