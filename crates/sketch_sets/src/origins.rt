ghost use Rattle.std.specs.Prelude.{◌≡◌, ◌<◌, ℕ, false};
ghost use Rattle.board_base.specs.Board.{is_in};
ghost use Rattle.sketch_sets.specs.Wide.{from_on, room_on, wide_set_on};
ghost use Rattle.sketch_sets.specs.Origins.{widened};

use crate::ground::Ground;
use crate::masks::those_that;
use crate::remade::with_sets;
use crate::terrain::ground_of;
use crate::trims::all_leave_room;
use crate::unions::over_kinds;
use crate::ways::{is_pawn, quiet_origins};
use board_base::{CastleSet, Kind, Square, SquareSet};
use figures::{Figure, Sketch, both, either, outside};

/// Whether his file isn't exact and all leave him room on `e`, if he is a pawn.
fn has_room(exact: &[bool; 8], sketch: &Sketch, figure: &Figure, kind: Kind, e: Square) -> bool
    ensures { result ≡ room_on exact.now sketch.now figure.now kind e }
{
    if !is_pawn(kind) {
        return true;
    }
    if exact[e.file() as usize] {
        return false;
    }
    all_leave_room(sketch, figure, e)
}

/// The squares that aren't the figure's and from which he may have come to one of his as this kind, among others that are his.
fn origins_as(
    ground: &Ground,
    exact: &[bool; 8],
    sketch: &Sketch,
    figure: &Figure,
    kind: Kind,
) -> SquareSet
    ensures { (e : ℕ) → e < 64 → is_in figure.now.squares e ≡ false → is_in result e ≡ from_on ground.now exact.now sketch.now figure.now e kind }
{
    let from = quiet_origins(ground, figure.colour, kind, figure.squares);
    if !is_pawn(kind) {
        return from;
    }
    let others = both(from, outside(figure.squares));
    those_that(others, |e| has_room(exact, sketch, figure, kind, e))
}

/// His squares, and those from which he may have come there.
fn wide_set(ground: &Ground, exact: &[bool; 8], sketch: &Sketch, figure: Figure) -> SquareSet
    ensures { result ≡ wide_set_on ground.now exact.now sketch.now figure }
{
    let origins = over_kinds(figure.kinds, |kind| {
        origins_as(ground, exact, sketch, &figure, kind)
    });
    either(figure.squares, origins)
}

/// A round: each figure has also the squares from which he may have come to one of his.
pub(crate) fn widened(held: CastleSet, exact: &[bool; 8], sketch: &Sketch) -> Sketch
    ensures { result ≡ widened held exact.now sketch.now }
{
    let ground = ground_of(held, sketch);
    with_sets(sketch, |figure| wide_set(&ground, exact, sketch, figure))
}
