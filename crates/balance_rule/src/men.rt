ghost use Rattle.std.specs.Prelude.{◌≡◌, ◌≤◌, SomeIff};
ghost use Rattle.std.specs.Option.{option_map};
ghost use Rattle.board_base.specs.Board.{men_squares};
ghost use Rattle.balance_rule.specs.Balance.{men_on};

use arrayvec::ArrayVec;
use board_base::{Board, Colour, Square, is_of};

/// The squares of the side's men, in ascending order; None if and only if there are more than sixteen.
pub fn squares_of_men(board: &Board, side: Colour) -> Option<ArrayVec<u8, 16>>
    ensures { SomeIff (option_map (λ men. men.items) result) (men_on side board.now ≤ 16) (men_squares side board.now) }
{
    let mut men: ArrayVec<u8, 16> = ArrayVec::new();
    for i in 0..64 {
        if is_of(side, board.at(Square::known(i))) {
            if men.len() == 16 {
                return None;
            }
            men.push(i);
        }
    }
    Some(men)
}
