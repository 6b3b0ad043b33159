ghost use Rattle.std.specs.Prelude.{◌≡◌};
ghost use Rattle.board_base.specs.Play.{castling};

use board_base::{Board, Castle, Kind, Move, is_a};
use castle_history::castling_from;

/// The castling that the move is on this board, if it is one.
pub fn castling(board: &Board, m: &Move) -> Option<Castle>
    ensures { result ≡ castling board.now m.now }
{
    if is_a(Kind::King, board.at(m.from)) {
        castling_from(m.from, m.to)
    } else {
        None
    }
}
