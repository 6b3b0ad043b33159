//! The squares of a side's pawns.

ghost use Rattle.std.specs.Prelude.{◌≡◌, ◌<◌, ◌≤◌, length};
ghost use Rattle.pawn_assign.specs.PawnCosts.{pawn_squares};

use arrayvec::ArrayVec;
use board_base::{Board, Colour, Kind, Square, is_the};

/// The squares of the side's pawns, ascending.
pub(crate) fn pawn_squares(board: &Board, side: Colour) -> ArrayVec<u8, 8>
    requires { length (pawn_squares side board.now) ≤ 8 }
    ensures { result.items ≡ pawn_squares side board.now }
{
    let mut squares = ArrayVec::new();
    for i in 0..64 {
        if is_the(side, Kind::Pawn, board.at(Square::known(i))) {
            squares.push(i);
        }
    }
    squares
}
