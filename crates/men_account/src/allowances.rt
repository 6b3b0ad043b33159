ghost use Rattle.std.specs.Prelude.{◌≡◌};
ghost use Rattle.board_base.specs.Board.{array_of};
ghost use Rattle.men_account.specs.Account.{accounts_for, allowance_of, is_any};

use crate::sums::{counts, excess};
use crate::tallies::Allowance;
use board_base::{Board, Colour, Odds, array_of};

/// What a side begins with at these odds: its men of each kind whose homes aren't among them (articles 2.2 and 2.3).
pub fn allowance(side: Colour, odds: Odds) -> Allowance
    ensures { result ≡ allowance_of side is_any (array_of odds) }
{
    if odds.is_none() {
        return Allowance::full();
    }
    let men = counts(&array_of(odds), side);
    Allowance {
        pawns: men.pawns,
        knights: men.knights,
        light_bishops: men.light_bishops,
        dark_bishops: men.dark_bishops,
        rooks: men.rooks,
        queens: men.queens,
    }
}

/// Whether a side's pawns and its men that must have been promoted, seen from what it begins with at these odds, are at most the pawns
/// with which it begins (articles 2.2 and 3.7).
#[tactic(auto, unfolding(crate::specs::Account::accounts_for))]
pub fn account_ok(board: &Board, side: Colour, odds: Odds) -> bool
    ensures { result ≡ accounts_for odds board.now side }
{
    let allowed = allowance(side, odds);
    excess(&counts(board, side), &allowed) <= allowed.pawns as u16
}
