ghost use Rattle.std.specs.Prelude.{◌≡◌, ◌<◌};
ghost use Rattle.balance_rule.specs.LeastWays.{seen_by};

use board_base::{Colour, Square};

/// The square with this number as a side sees the board: its pawns begin on the numbers from 8 to 15, and each step of theirs leads
/// to a greater one. The number of a square is told in the same way.
pub fn seen_by(side: Colour, number: u8) -> Square
    requires { number < 64 }
    ensures { result ≡ seen_by side number }
{
    match side {
        Colour::White => Square::known(number),
        Colour::Black => Square::known(63 - number),
    }
}

/// The number of a square as a side sees the board.
pub fn number_of(side: Colour, s: Square) -> u8
    ensures value { result ≡ seen_by side s }
    ensures inside { result < 64 }
    ensures on_board { s < 64 }
{
    seen_by(side, s.index()).index()
}
