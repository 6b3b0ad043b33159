ghost use Rattle.std.specs.Prelude.{◌≡◌, None, slice_set};
ghost use Rattle.board_base.specs.Carry.{carry};
ghost use Rattle.ep_history.specs.Fits.{ep_fits, stand_after};

use crate::doubles::double_of;
use board_base::{Board, Colour, Kind, Move, Square, in_check, is_the};

/// The men stand as after this double step, if the capture answers it.
fn stand_after(board: &Board, side: Colour, m: &Move, double: &Move) -> bool
    ensures { result ≡ stand_after board.now side m.now double.now }
{
    is_the(side, Kind::Pawn, board.at(m.from))
        && board.at(m.to).is_none()
        && is_the(side.other(), Kind::Pawn, board.at(double.to))
        && board.at(double.from).is_none()
}

/// The board after the capture of the man on `taken`.
fn after_capture(board: &Board, m: &Move, taken: Square) -> Board
    ensures { result ≡ slice_set (carry board.now m.now.from m.now.to None) taken None }
{
    let mut next = *board;
    let man = next.at(m.from);
    next.put(m.from, None);
    next.put(m.to, man);
    next.put(taken, None);
    next
}

/// Whether the board has what a capture en passant by `side` asks of it (article 3.7.3): the move may answer a double step; a pawn
/// of `side` stands on its origin and no man on its target; an enemy pawn stands on the double step's target, and no man on the
/// double step's origin; and no king of `side` is attacked once the capture has been played and that pawn is gone. It isn't asked
/// whether the double step was the last move.
#[tactic(auto, unfolding(crate::specs::Fits::ep_fits))]
pub fn ep_fits(board: &Board, side: Colour, m: &Move) -> bool
    ensures { result ≡ ep_fits board.now side m.now }
{
    let Some(double) = double_of(m, side) else {
        return false;
    };
    if !stand_after(board, side, m, &double) {
        return false;
    }
    !in_check(&after_capture(board, m, double.to), side)
}
