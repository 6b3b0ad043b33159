ghost use Rattle.std.specs.Prelude.{◌≡◌, ◌&&◌};
ghost use Rattle.board_base.specs.Board.{at, is_the, opponent};
ghost use Rattle.board_base.specs.Attacks.{attacks};
ghost use Rattle.board_base.specs.Legal.{in_check};
ghost use Rattle.board_base.specs.declared.men.Kind.TheVariants.{King};

use crate::boards::Board;
use crate::men::{Colour, Kind, is_the};
use crate::squares::Square;

/// Whether a king of this side stands on the square, and the other side attacks it (article 3.9).
pub fn is_king_attacked(board: &Board, colour: Colour, s: Square) -> bool
    ensures { result ≡ (is_the colour King (at board.now s) && attacks board.now s (opponent colour)) }
{
    is_the(colour, Kind::King, board.at(s)) && board.attacked(s, colour.other())
}

/// Whether some king of this side stands on a square that the other side attacks (article 3.9).
#[tactic(auto, unfolding(crate::specs::Legal::in_check))]
pub fn in_check(board: &Board, side: Colour) -> bool
    ensures { result ≡ in_check board.now side }
{
    for i in 0..64 {
        if is_king_attacked(board, side, Square::known(i)) {
            return true;
        }
    }
    false
}
