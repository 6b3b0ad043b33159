ghost use Rattle.std.specs.Prelude.{◌≡◌, ◌+◌, ◌<◌, ◌≤◌, cond};
ghost use Rattle.board_base.specs.Board.{is_of};
ghost use Rattle.men_account.specs.Account.{is_any};
ghost use Rattle.men_account.specs.Homes.{men_of};

use board_base::{Board, Colour, Man, Square, is_of};

fn with_place(so_far: u8, side: Colour, place: Option<Man>) -> u8
    requires { so_far < 64 }
    ensures { result ≡ so_far + cond (is_of side place) 1 0 }
{
    if is_of(side, place) {
        so_far + 1
    } else {
        so_far
    }
}

/// How many men this side has on the board, from 0 to 64.
pub fn men_of(board: &Board, side: Colour) -> u8
    ensures number { result ≡ men_of side is_any board.now }
    ensures few { result ≤ 64 }
{
    let mut n = 0;
    for i in 0..64 {
        n = with_place(n, side, board.at(Square::known(i)));
    }
    n
}
