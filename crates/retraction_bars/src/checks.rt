ghost use Rattle.std.specs.Prelude.{◌≡◌, ◌&&◌};
ghost use Rattle.board_base.specs.Attacks.{attacks_from};
ghost use Rattle.board_base.specs.Board.{at, is_the, opponent};
ghost use Rattle.board_base.specs.declared.men.Kind.TheVariants.{King};
ghost use Rattle.retraction_bars.specs.Bars.{attacks_a_king, gives_check};

use board_base::{Board, Colour, Kind, Square, attacks_from, is_of, is_the};

/// The king of the other side stands on a square that the man attacks.
fn attacks_king(board: &Board, colour: Colour, s: Square, king: Square) -> bool
    ensures { result ≡ (is_the (opponent colour) King (at board.now king) && attacks_from board.now s king) }
{
    is_the(colour.other(), Kind::King, board.at(king)) && attacks_from(board, s, king)
}

/// Whether the man of this side on the square attacks some king of the other side.
fn attacks_a_king(board: &Board, colour: Colour, s: Square) -> bool
    ensures { result ≡ attacks_a_king board.now colour s }
{
    for i in 0..64 {
        if attacks_king(board, colour, s, Square::known(i)) {
            return true;
        }
    }
    false
}

/// The man of this side on the square gives check.
pub fn gives_check(board: &Board, colour: Colour, s: Square) -> bool
    ensures { result ≡ gives_check board.now colour s }
{
    is_of(colour, board.at(s)) && attacks_a_king(board, colour, s)
}
