ghost use Rattle.std.specs.Prelude.{◌≡◌, ◌&&◌, ◌==◌};
ghost use Rattle.board_base.specs.Board.{file, opponent, rank};
ghost use Rattle.board_base.specs.Legal.{is_officer, last_rank};
ghost use Rattle.board_base.specs.Attacks.{one_ahead};
ghost use Rattle.cage_rules.specs.Frozen.{is_before_promotion, is_behind, is_past_home};
ghost use Rattle.cage_rules.specs.Sets.{squares_that};
ghost use Rattle.cage_rules.specs.Steps.{is_step};
ghost use Rattle.past_account.specs.Frozen.{enters_as};
ghost use Rattle.sketch_grounds.specs.Entries.{pawn_enters};

use crate::sets::none;
use board_base::{Colour, Kind, Square, SquareSet, last_rank};
use cage_rules::{ahead, pawn_steps, piece_steps};
use figures::either;

/// Whether a pawn of this colour on `s` has moved, and is not to be promoted there.
fn is_past_home(colour: Colour, s: Square) -> bool
    ensures { result ≡ is_past_home colour s }
{
    match colour {
        Colour::White => 1 < s.rank() && s.rank() < 7,
        Colour::Black => 0 < s.rank() && s.rank() < 6,
    }
}

/// The square behind a pawn of this colour, and the two beside it.
fn behind(colour: Colour, s: Square) -> SquareSet
    ensures { result ≡ squares_that (is_behind colour s) }
{
    pawn_steps(colour.other(), none().with(s))
}

/// The square behind a pawn of this colour.
fn straight_behind(colour: Colour, s: Square) -> SquareSet
    ensures { result ≡ squares_that (λ t. one_ahead colour t s && (file s == file t)) }
{
    ahead(colour.other(), none().with(s))
}

/// The squares one step away, as the moves of this piece are made of steps.
pub(crate) fn steps_to(kind: Kind, s: Square) -> SquareSet
    ensures { result ≡ squares_that (is_step kind s) }
{
    piece_steps(kind, none().with(s))
}

/// The squares from which a pawn of this colour may have come: if he is marked, straight on.
fn pawn_entries(marked: bool, colour: Colour, s: Square) -> SquareSet
    ensures { result ≡ squares_that (pawn_enters marked colour s) }
{
    if !is_past_home(colour, s) {
        none()
    } else if marked {
        straight_behind(colour, s)
    } else {
        behind(colour, s)
    }
}

/// The squares from which a pawn of this colour may have come who was promoted there.
fn promotion_entries(colour: Colour, s: Square) -> SquareSet
    ensures { result ≡ squares_that (is_before_promotion colour s) }
{
    if s.rank() == last_rank(colour) {
        behind(colour, s)
    } else {
        none()
    }
}

/// The squares from which a man of this colour and kind may have come to `s`, or over which as the last; if he is marked, as one who was
/// never promoted, or as a pawn that never captured.
pub(crate) fn entries_as(marked: bool, colour: Colour, kind: Kind, s: Square) -> SquareSet
    ensures { result ≡ squares_that (enters_as marked colour kind s) }
{
    match kind {
        Kind::Pawn => pawn_entries(marked, colour, s),
        Kind::King => steps_to(kind, s),
        Kind::Knight | Kind::Bishop | Kind::Rook | Kind::Queen => {
            if marked {
                steps_to(kind, s)
            } else {
                either(steps_to(kind, s), promotion_entries(colour, s))
            }
        }
    }
}
