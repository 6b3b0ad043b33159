ghost use Rattle.std.specs.Prelude.{IfSome};
ghost use Rattle.price_search.specs.Standing.{AreStanding};

use arrayvec::ArrayVec;
use balance_rule::squares_of_men;
use board_base::{Board, Colour};

/// The squares of the men of each side, in ascending order.
#[derive(Drop)]
pub(crate) struct StandingMen {
    pub(crate) white: ArrayVec<u8, 16>,
    pub(crate) black: ArrayVec<u8, 16>,
}

/// The squares of the men of each side; None if a side has more than sixteen.
pub(crate) fn standing_men(board: &Board) -> Option<StandingMen>
    ensures { IfSome result (AreStanding board.now) }
{
    match (
        squares_of_men(board, Colour::White),
        squares_of_men(board, Colour::Black),
    ) {
        (Some(white), Some(black)) => Some(StandingMen { white, black }),
        _ => None,
    }
}
