ghost use Rattle.std.specs.Prelude.{◌↔◌, ◌≤◌, IsTrue};
ghost use Rattle.board_base.specs.Board.{array_of};
ghost use Rattle.men_account.specs.Account.{is_any};
ghost use Rattle.men_account.specs.Homes.{men_of};
ghost use Rattle.figures.specs.Figures.{sketch_of};
ghost use Rattle.sketch_checker.specs.Beginning.{CanBegin};
ghost use Rattle.sketch_checker.specs.Roots.{IsRoot};

use board_base::{Board, Colour, Odds, array_of};
use men_account::men_of;
use play_rules::{has_no_pawn_on_ends, has_one_king_each};

/// Whether the side has no more men than in the array at these odds.
fn has_few(board: &Board, odds: Odds, side: Colour) -> bool
    ensures { IsTrue result ↔ (men_of side is_any board.now ≤ men_of side is_any (array_of odds)) }
{
    men_of(board, side) <= men_of(&array_of(odds), side)
}

/// Whether sketches may be asked about the board: each side has one king, and no more men than in the array at these odds, and no pawn stands
/// on rank 1 or 8. Then a walk can begin with the board's sketch.
pub fn is_root(board: &Board, odds: Odds) -> bool
    ensures root { IsTrue result ↔ IsRoot odds board.now }
    ensures begins { IsTrue result → CanBegin odds (sketch_of board.now) }
{
    if !has_one_king_each(board) {
        return false;
    }
    if !has_no_pawn_on_ends(board) {
        return false;
    }
    has_few(board, odds, Colour::White) && has_few(board, odds, Colour::Black)
}
