ghost use Rattle.std.specs.Prelude.{◌≡◌};
ghost use Rattle.figures.specs.Trimmed.{trimmed};
ghost use Rattle.sketch_sets.specs.Files.{gives_room, has_all_room, is_above, is_below, is_beside};
ghost use Rattle.sketch_sets.specs.Tests.{free_squares, is_kept, kept_squares};
ghost use Rattle.sketch_sets.specs.TrimmedOut.{trimmed_out};

use crate::masks::{file_squares, is_within, meets, ranks_above, ranks_below, those_that};
use crate::remade::{are_whole, has_same_sets, with_sets};
use board_base::{Kind, Square, SquareSet};
use figures::{Figure, Sketch, both, fixed_squares, outside};

/// Whether the figure is a pawn on this square's file.
pub fn is_pawn_beside(e: Square, figure: &Figure) -> bool
    ensures { result ≡ is_beside e figure.now }
{
    figure.kinds.is_only(Kind::Pawn) & is_within(figure.squares, file_squares(e.file()))
}

/// Whether the figure may stand on a lower rank than `e`.
pub fn stands_below(e: Square, figure: &Figure) -> bool
    ensures { result ≡ is_below e figure.now }
{
    meets(figure.squares, ranks_below(e.rank()))
}

/// Whether the figure may stand on a higher rank than `e`.
pub fn stands_above(e: Square, figure: &Figure) -> bool
    ensures { result ≡ is_above e figure.now }
{
    meets(figure.squares, ranks_above(e.rank()))
}

/// Whether the second figure leaves the first room on `e`, if both are pawns on its file.
pub(crate) fn leaves_room(figure: &Figure, e: Square, other: &Figure) -> bool
    ensures { result ≡ gives_room figure.now e other.now }
{
    if !is_pawn_beside(e, other) {
        return true;
    }
    let low = !(other.place < figure.place) | stands_below(e, other);
    let high = !(figure.place < other.place) | stands_above(e, other);
    low & high
}

/// Whether all figures leave him room on `e`.
pub fn all_leave_room(sketch: &Sketch, figure: &Figure, e: Square) -> bool
    ensures { result ≡ has_all_room sketch.now figure.now e }
{
    sketch
        .figures()
        .iter()
        .all(|other| leaves_room(figure, e, other))
}

/// Whether nobody is fixed on the square, unless it is the figure himself, and the pawns of his file leave him room there, if he is a pawn.
fn is_kept(sketch: &Sketch, fixed: SquareSet, figure: &Figure, s: Square) -> bool
    ensures { result ≡ is_kept sketch.now fixed figure.now s }
{
    let free = !fixed.has(s) | figure.is_fixed_on(s);
    if !free {
        return false;
    }
    if !figure.kinds.is_only(Kind::Pawn) {
        return true;
    }
    all_leave_room(sketch, figure, s)
}

/// What an officer or a king keeps of his squares: all if he is fixed, else those on which nobody is.
fn free_squares(fixed: SquareSet, figure: &Figure) -> SquareSet
    ensures { result ≡ free_squares fixed figure.now }
{
    match figure.fixed_square() {
        Some(_) => figure.squares,
        None => both(figure.squares, outside(fixed)),
    }
}

/// What a figure keeps of his squares: those on which nobody is fixed, unless it is himself, and on which the pawns of his file leave him
/// room, if he is a pawn.
fn kept_squares(sketch: &Sketch, fixed: SquareSet, figure: Figure) -> SquareSet
    ensures { result ≡ kept_squares sketch.now fixed figure }
{
    if !figure.kinds.is_only(Kind::Pawn) {
        return free_squares(fixed, &figure);
    }
    those_that(figure.squares, |s| is_kept(sketch, fixed, &figure, s))
}

/// The sketch, trimmed once: each figure loses the squares on which another is fixed, and a pawn those that the pawns of its file leave no
/// room for.
fn trimmed(sketch: &Sketch) -> Sketch
    ensures { result ≡ trimmed sketch.now }
{
    let fixed = fixed_squares(sketch);
    with_sets(sketch, |figure| kept_squares(sketch, fixed, figure))
}

/// The sketch, trimmed until nothing changes.
pub fn trim(sketch: &Sketch) -> Sketch
    ensures value { result ≡ trimmed_out sketch.now }
    ensures end { trimmed result ≡ result }
{
    are_whole(sketch);
    let mut left = trimmed(sketch);
    'rounds: loop {
        let less = trimmed(&left);
        if has_same_sets(&left, &less) {
            return left;
        }
        left = less;
    }
}
