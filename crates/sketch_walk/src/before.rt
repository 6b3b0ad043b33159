ghost use Rattle.std.specs.Prelude.{◌≡◌, ◌+◌, ◌<◌, ◌&&◌, ◌∷◌, [], IsTrue, Some, SomeIff, length};
ghost use Rattle.std.specs.List.{list_all};
ghost use Rattle.board_base.specs.Play.{ahead};
ghost use Rattle.figures.specs.Figures.{figure_at};
ghost use Rattle.figures.specs.Steps.{is_step};
ghost use Rattle.sketch_steps.specs.Cleared.{listed};
ghost use Rattle.sketch_sets.specs.TrimmedOut.{trimmed_out};
ghost use Rattle.sketch_steps.specs.Places.{has_low_place, recounted};
ghost use Rattle.sketch_list.specs.Listed.{figures_before, is_passed, is_sound, sketch_before, step_for, victims_as};

use crate::listed::Listed;
use crate::places::step_for;
use board_base::{Kind, Square};
use figures::{Figure, KindSet, Sketch};
use sketch_list::Victim;
use sketch_sets::{is_clash, side_checks, trim};
use sketch_steps::{Step, ahead, each_before, is_step, recounted, victim_on};

/// A knight, a rook or a queen whom the figure took on a square.
fn other_on(figure: &Figure, t: Square) -> Figure
    requires { figure.now.place < 127 }
    ensures { result ∷ [] ≡ victims_as figure.now t Victim.TakenOther }
{
    let knight = victim_on(figure, Kind::Knight, t);
    Figure {
        colour: knight.colour,
        kinds: KindSet::knight_rook_queen(),
        squares: knight.squares,
        marked: knight.marked,
        place: knight.place,
    }
}

/// The man whom the figure took, coming to a square, if he took one.
fn victim_as(figure: &Figure, t: Square, victim: Victim) -> Option<Figure>
    requires place { figure.now.place < 127 }
    requires home { IsTrue (is_passed victim) → ahead figure.now.colour t < 64 }
    ensures { listed result ≡ victims_as figure.now t victim }
{
    match victim {
        Victim::Nobody => None,
        Victim::TakenPawn => Some(victim_on(figure, Kind::Pawn, t)),
        Victim::TakenBishop => Some(victim_on(figure, Kind::Bishop, t)),
        Victim::TakenOther => Some(other_on(figure, t)),
        Victim::PassedPawn => {
            let home = Square::known(ahead(figure.colour, t));
            Some(victim_on(figure, Kind::Pawn, home))
        }
    }
}

/// Each figure before the step, and then the victim, if there was one.
fn figures_before(sketch: &Sketch, figure: &Figure, listed: &Listed, step: &Step) -> Sketch
    requires step { step.now ≡ step_for sketch.now figure.now listed.now }
    requires place { step.now.place < 128 }
    requires low { IsTrue (list_all has_low_place sketch.now) }
    requires figure { figure.now.place < 127 }
    requires room { length sketch.now + length (victims_as figure.now listed.now.to listed.now.victim) < 33 }
    requires home { IsTrue (is_passed listed.now.victim) → ahead figure.now.colour listed.now.to < 64 }
    ensures { result ≡ figures_before sketch.now figure.now listed.now }
{
    let mut before = each_before(figure.colour, sketch, step);
    if let Some(man) = victim_as(figure, listed.to, listed.victim) {
        before.push(man);
    }
    before
}

/// Whether nobody clashes in the sketch before the figure's step, and his side gives no check.
fn is_sound(before: &Sketch, figure: &Figure) -> bool
    ensures { result ≡ is_sound before.now figure.now }
{
    if is_clash(before) {
        return false;
    }
    !side_checks(before, Some(*figure))
}

/// The sketch with its places counted anew, trimmed, if it is sound.
// Trimmed, it is no sounder than it was, and most steps of crowded sketches aren't sound before.
fn sound_left(whole: &Sketch, figure: &Figure) -> Option<Sketch>
    ensures { SomeIff result (IsTrue (is_sound (trimmed_out (recounted whole.now)) figure.now)) (trimmed_out (recounted whole.now)) }
{
    if !is_sound(whole, figure) {
        return None;
    }
    let before = trim(&recounted(whole));
    if is_sound(&before, figure) {
        Some(before)
    } else {
        None
    }
}

/// The sketch before the listed step, if this is one of the sketch's and was sound.
pub(crate) fn sound_before(
    exact: &[bool; 8],
    sketch: &Sketch,
    figure: &Figure,
    listed: &Listed,
) -> Option<Sketch>
    requires low { IsTrue (list_all has_low_place sketch.now) }
    requires figure { figure_at sketch.now listed.now.by ≡ Some figure.now }
    requires room { length sketch.now + length (victims_as figure.now listed.now.to listed.now.victim) < 33 }
    ensures { SomeIff result (IsTrue (is_step exact.now sketch.now (step_for sketch.now figure.now listed.now) && is_sound (sketch_before sketch.now figure.now listed.now) figure.now)) (sketch_before sketch.now figure.now listed.now) }
{
    let step = step_for(sketch, figure, listed);
    if !is_step(exact, sketch, &step) {
        return None;
    }
    sound_left(&figures_before(sketch, figure, listed, &step), figure)
}
