ghost use Rattle.std.specs.Prelude.{◌≡◌, ◌&&◌, not};
ghost use Rattle.men_account.specs.Account.{accounts_for};
ghost use Rattle.unmove_gen.specs.Sane.{has_one_king, is_sane};

use board_base::{Board, Colour, Odds};
use men_account::{allowance, counts, excess};
use play_rules::{has_no_pawn_on_ends, in_check};

/// The side has one king, and no more pawns and men that must have been promoted than it begins with pawns at these odds.
fn is_accounted(board: &Board, side: Colour, odds: Odds) -> bool
    ensures { result ≡ (has_one_king board.now side && accounts_for odds board.now side) }
{
    board.is_whole();
    let men = counts(board, side);
    if men.kings != 1 {
        return false;
    }
    let allowed = allowance(side, odds);
    excess(&men, &allowed) <= allowed.pawns as u16
}

/// The board, with this side to move, passes the tests that each board of a game at these odds passes.
#[tactic(auto, unfolding(crate::specs::Sane::is_sane))]
pub fn is_sane(board: &Board, turn: Colour, odds: Odds) -> bool
    ensures { result ≡ is_sane odds board.now turn }
{
    is_accounted(board, Colour::White, odds)
        && is_accounted(board, Colour::Black, odds)
        && has_no_pawn_on_ends(board)
        && !in_check(board, turn.other())
}
