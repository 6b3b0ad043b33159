ghost use Rattle.std.specs.Prelude.{◌≡◌, is_none};
ghost use Rattle.std.specs.List.{list_all, list_any};
ghost use Rattle.board_base.specs.Board.{same_kind};
ghost use Rattle.board_base.specs.Legal.{is_officer};
ghost use Rattle.board_base.specs.Play.{en_passant_rank};
ghost use Rattle.board_base.specs.declared.men.Kind.TheVariants.{King as AKing};
ghost use Rattle.figures.specs.Steps.{is_step};
ghost use Rattle.sketch_steps.specs.Arrivals.{arrives_on};
ghost use Rattle.sketch_steps.specs.Stepping.{captures_by, ends_are_free, has_next, is_gone, is_made, is_next_to, is_way, keeps, passes_by, place_is_free, squares_are_free, takes_by, yields};

use crate::steps::Step;
use board_base::{Colour, Kind, Square, files_between, is_ahead, last_rank};
use figures::{Figure, Sketch, fixed_squares};
use play_rules::is_end;
use sketch_sets::{
    all_leave_room, goes_straight, is_pawn, is_pawn_beside, stands_above, stands_below,
};

/// Whether a pawn may become a man of this kind.
fn is_officer(kind: Kind) -> bool
    ensures { result ≡ is_officer kind }
{
    match kind {
        Kind::Queen | Kind::Rook | Kind::Bishop | Kind::Knight => true,
        Kind::Pawn | Kind::King => false,
    }
}

/// Whether it is a king.
fn is_king(kind: Kind) -> bool
    ensures { result ≡ same_kind AKing kind }
{
    match kind {
        Kind::King => true,
        _ => false,
    }
}

/// Whether the figure may be an officer.
fn may_be_officer(figure: &Figure) -> bool
    ensures { result ≡ list_any is_officer figure.now.kinds }
{
    figure.kinds.any(|kind| is_officer(kind))
}

/// Whether a pawn that comes to `t` may be the figure there.
pub fn arrives(figure: &Figure, t: Square) -> bool
    ensures { result ≡ arrives_on figure.now t }
{
    if t.rank() == last_rank(figure.colour) {
        return may_be_officer(figure);
    }
    figure.may_be(Kind::Pawn)
}

/// Whether the step takes nobody on its target.
fn takes_nobody(step: &Step) -> bool
    ensures { result ≡ is_none step.now.taken }
{
    match step.taken {
        Some(_) => false,
        None => true,
    }
}

/// Whether the step goes straight on to be promoted, or takes a man of its kind on its target.
fn takes(colour: Colour, step: &Step) -> bool
    ensures { result ≡ takes_by colour step.now }
{
    match step.taken {
        None => (step.from.file() == step.to.file()) & (step.to.rank() == last_rank(colour)),
        Some(kind) => {
            let aside = files_between(step.from, step.to) == 1;
            aside & !is_king(kind) & !(is_pawn(kind) & is_end(step.to))
        }
    }
}

/// The rank from which pawns of this colour take en passant.
fn en_passant_rank(colour: Colour) -> u8
    ensures { result ≡ en_passant_rank colour }
{
    match colour {
        Colour::White => 4,
        Colour::Black => 3,
    }
}

/// Whether the step takes en passant.
fn passes(colour: Colour, step: &Step) -> bool
    ensures { result ≡ passes_by colour step.now }
{
    let aside = files_between(step.from, step.to) == 1;
    aside & (step.from.rank() == en_passant_rank(colour)) & takes_nobody(step)
}

/// Whether the step is a capture by a pawn, or a promotion.
fn captures(colour: Colour, step: &Step) -> bool
    ensures { result ≡ captures_by colour step.now }
{
    if step.passing {
        return passes(colour, step);
    }
    takes(colour, step)
}

/// Whether the place is next to the figure's.
fn is_next_to(place: u8, figure: &Figure) -> bool
    ensures { result ≡ is_next_to place figure.now }
{
    u16::from(place) == u16::from(figure.place) + 1
}

/// Whether the place is next to some figure's.
fn is_next(sketch: &Sketch, place: u8) -> bool
    ensures { result ≡ list_any (is_next_to place) sketch.now }
{
    sketch
        .figures()
        .iter()
        .any(|figure| is_next_to(place, figure))
}

/// Whether the place is the lowest, or next to that of a figure.
fn has_next(sketch: &Sketch, place: u8) -> bool
    ensures { result ≡ has_next sketch.now place }
{
    let next = is_next(sketch, place);
    (place == 0) | next
}

/// Whether the other figure, if it is a pawn on the file of the step's origin, may have stood below it if its place is lower, else above.
fn yields(step: &Step, other: &Figure) -> bool
    ensures { result ≡ yields step.now other.now }
{
    if !is_pawn_beside(step.from, other) {
        return true;
    }
    if other.place < step.place {
        return stands_below(step.from, other);
    }
    stands_above(step.from, other)
}

/// Whether all figures do.
fn all_yield(sketch: &Sketch, step: &Step) -> bool
    ensures { result ≡ list_all (yields step.now) sketch.now }
{
    sketch.figures().iter().all(|other| yields(step, other))
}

/// Whether the step's place is next to another's, and all leave it.
fn place_is_free(sketch: &Sketch, step: &Step) -> bool
    ensures { result ≡ place_is_free sketch.now step.now }
{
    let free = all_yield(sketch, step);
    has_next(sketch, step.place) & free
}

/// Whether the figure may stand on `to`, and a pawn on `from`, if nobody is fixed.
fn ends_are_free(sketch: &Sketch, figure: &Figure, from: Square, to: Square) -> bool
    ensures { result ≡ ends_are_free sketch.now figure.now from to }
{
    let fixed = fixed_squares(sketch);
    figure.squares.has(to) & !is_end(from) & !fixed.has(from)
}

/// Whether it is so of the step's target and its origin.
fn squares_are_free(sketch: &Sketch, figure: &Figure, step: &Step) -> bool
    ensures { result ≡ squares_are_free sketch.now figure.now step.now }
{
    ends_are_free(sketch, figure, step.from, step.to)
}

/// Whether the figure, who isn't marked, came to the target from the origin by a capture or to be promoted.
fn is_way(sketch: &Sketch, figure: &Figure, step: &Step) -> bool
    ensures { result ≡ is_way sketch.now figure.now step.now }
{
    let ahead = is_ahead(figure.colour, step.from, step.to);
    let there = arrives(figure, step.to);
    let may = !figure.marked & ahead & there & captures(figure.colour, step);
    if !may {
        return false;
    }
    squares_are_free(sketch, figure, step)
}

/// Whether the figure may have made the step as a capture or a promotion.
fn is_made(sketch: &Sketch, figure: &Figure, step: &Step) -> bool
    ensures { result ≡ is_made sketch.now figure.now step.now }
{
    if !is_way(sketch, figure, step) {
        return false;
    }
    place_is_free(sketch, step)
}

/// Whether the step takes nobody, and the figure keeps his place, which all leave to him.
fn keeps(sketch: &Sketch, figure: &Figure, step: &Step) -> bool
    ensures { result ≡ keeps sketch.now figure.now step.now }
{
    let room = all_leave_room(sketch, figure, step.from);
    takes_nobody(step) & !step.passing & (step.place == figure.place) & room
}

/// Whether the figure may have gone straight on, on an exact file, and is still a pawn.
fn is_gone(exact: &[bool; 8], sketch: &Sketch, figure: &Figure, step: &Step) -> bool
    ensures { result ≡ is_gone exact.now sketch.now figure.now step.now }
{
    let on = exact[step.from.file() as usize];
    if !on {
        return false;
    }
    let free = squares_are_free(sketch, figure, step);
    let short = !(step.to.rank() == last_rank(figure.colour));
    let straight = goes_straight(figure.colour, step.from, step.to);
    free & figure.may_be(Kind::Pawn) & short & straight & keeps(sketch, figure, step)
}

/// Whether it is a step of the sketch, if these files are exact.
pub fn is_step(exact: &[bool; 8], sketch: &Sketch, step: &Step) -> bool
    ensures { result ≡ is_step exact.now sketch.now step.now }
{
    match sketch.get(step.by as usize) {
        Some(figure) => is_made(sketch, &figure, step) | is_gone(exact, sketch, &figure, step),
        None => false,
    }
}
