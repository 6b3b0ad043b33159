ghost use Rattle.std.specs.Prelude.{◌≡◌, ◌-◌, ◌↔◌, IsTrue};
ghost use Rattle.ledger_lines.specs.Losses.{losses_of};
ghost use Rattle.ledger_lines.specs.SameLosses.{are_same};

use board_base::{Board, Colour};
use men_account::counts;

/// How many men of each kind a side has fewer than it began with (article 2.2), the bishops told apart by the colour of the squares on which
/// they stand. Of a kind of which it has more than it began with, nobody is lacking.
#[derive(Clone, Copy, PartialEq, Eq, Debug)]
pub struct Losses {
    pub queens: u8,
    pub rooks: u8,
    pub dark_bishops: u8,
    pub light_bishops: u8,
    pub knights: u8,
    pub pawns: u8,
}

/// What a number is below another, and 0 if it isn't below it.
fn below(number: u8, before: u8) -> u8
    ensures { result ≡ before - number }
{
    before.saturating_sub(number)
}

/// How many men of each kind a side has fewer on the board than on the first one.
pub fn losses_of(first: &Board, board: &Board, side: Colour) -> Losses
    ensures { result ≡ losses_of side first.now board.now }
{
    let before = counts(first, side);
    let left = counts(board, side);
    Losses {
        queens: below(left.queens, before.queens),
        rooks: below(left.rooks, before.rooks),
        dark_bishops: below(left.dark_bishops, before.dark_bishops),
        light_bishops: below(left.light_bishops, before.light_bishops),
        knights: below(left.knights, before.knights),
        pawns: below(left.pawns, before.pawns),
    }
}

/// Whether the numbers are the same.
fn are_same(one: &Losses, other: &Losses) -> bool
    ensures { result ≡ are_same one.now other.now }
{
    one.queens == other.queens
        && one.rooks == other.rooks
        && one.dark_bishops == other.dark_bishops
        && one.light_bishops == other.light_bishops
        && one.knights == other.knights
        && one.pawns == other.pawns
}

/// Whether these are the men whom the side has fewer on the board than on the first one.
pub(crate) fn are_losses(first: &Board, board: &Board, side: Colour, losses: &Losses) -> bool
    ensures { IsTrue result ↔ (losses.now ≡ losses_of side first.now board.now) }
{
    let lost = losses_of(first, board, side);
    are_same(losses, &lost)
}
