//! Squares that a sentence names.

ghost use Rattle.std.specs.Prelude.{◌≡◌, IfSome, IsSome, IsTrue};
ghost use Rattle.board_base.specs.Legal.{in_check};
ghost use Rattle.play_rules.specs.Laws.{HasNoPawnOnEnds};
ghost use Rattle.proof_sentences.specs.Firsts.{IsFirst, is_king_attacked, is_pawn_on_end};

use board_base::{Board, Colour, Kind, Square, is_a, is_king_attacked};

/// Whether a pawn stands on the square, and this is one of rank 1 or 8.
fn is_pawn_on_end(board: &Board, s: Square) -> bool
    ensures { result ≡ is_pawn_on_end board.now s }
{
    (s.rank() == 0 || s.rank() == 7) && is_a(Kind::Pawn, board.at(s))
}

/// The first square of rank 1 or 8 on which a pawn stands, if there is one.
pub(crate) fn pawn_on_end(board: &Board) -> Option<Square>
    requires { HasNoPawnOnEnds board.now → ⊥ }
    ensures some { IsSome result }
    ensures first { IfSome result (IsFirst (is_pawn_on_end board.now)) }
{
    for i in 0..64 {
        let s = Square::known(i);
        if is_pawn_on_end(board, s) {
            return Some(s);
        }
    }
    None
}

/// The first square of a king of the side who stands in check, if one does.
pub(crate) fn king_in_check(board: &Board, side: Colour) -> Option<Square>
    requires { IsTrue (in_check board.now side) }
    ensures some { IsSome result }
    ensures first { IfSome result (IsFirst (is_king_attacked board.now side)) }
{
    for i in 0..64 {
        let s = Square::known(i);
        if is_king_attacked(board, side, s) {
            return Some(s);
        }
    }
    None
}
