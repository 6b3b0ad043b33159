ghost use Rattle.std.specs.Prelude.{◌≡◌, ◌≤◌, cond, not, None};
ghost use Rattle.board_base.specs.Board.{array_of, at};
ghost use Rattle.men_account.specs.Account.{is_any, allowance_of};
ghost use Rattle.men_account.specs.Homes.{men_of};
ghost use Rattle.cage_rules.specs.Refuted.{is_spent};
ghost use Rattle.cage_rules.specs.Regions.{is_dead};
ghost use Rattle.static_rules.specs.Left.{has_stayed, left_with, may_live, with_pawns};

use board_base::{Board, Colour, Man, Odds, Square, SquareSet, array_of, is_of, is_same_place};
use cage_rules::{is_dead, is_officer_home, is_shielded};
use men_account::{Allowance, Counts, allowance, counts, men_of};

/// Whether the square holds what the first board has there.
pub(crate) fn has_stayed(first: &Board, board: &Board, s: Square) -> bool
    ensures { result ≡ has_stayed first.now board.now s }
{
    is_same_place(board.at(s), first.at(s))
}

/// Whether the square isn't the home of an officer of this side that is dead. None is on which its man stands.
fn may_live(first: &Board, board: &Board, set: SquareSet, side: Colour, s: Square) -> bool
    ensures { result ≡ may_live side first.now board.now set s }
{
    !(is_of(side, first.at(s))
        && is_officer_home(s)
        && !has_stayed(first, board, s)
        && is_dead(board, set, s))
}

fn is_spent(board: &Board, set: SquareSet, s: Square) -> bool
    ensures { result ≡ is_spent board.now set s }
{
    is_officer_home(s) && is_dead(board, set, s) && is_shielded(set, s)
}

fn living_at(first: &Board, board: &Board, set: SquareSet, side: Colour, s: Square) -> Option<Man>
    ensures { result ≡ cond (may_live side first.now board.now set s) (at first.now s) None }
{
    if may_live(first, board, set, side, s) {
        first.at(s)
    } else {
        None
    }
}

fn spent_at(first: &Board, board: &Board, set: SquareSet, s: Square) -> Option<Man>
    ensures { result ≡ cond (is_spent board.now set s) (at first.now s) None }
{
    if is_spent(board, set, s) {
        first.at(s)
    } else {
        None
    }
}

/// The first board without the men of this side's homes that are dead.
fn living(first: &Board, board: &Board, set: SquareSet, side: Colour) -> Board
    ensures { result ≡ left_with (may_live side first.now board.now set) first.now }
{
    let mut left = Board::empty();
    for i in 0..64 {
        let s = Square::known(i);
        left.put(s, living_at(first, board, set, side, s));
    }
    left
}

/// The first board's men of the homes that are dead and shielded.
fn spent(first: &Board, board: &Board, set: SquareSet) -> Board
    ensures { result ≡ left_with (is_spent board.now set) first.now }
{
    let mut left = Board::empty();
    for i in 0..64 {
        let s = Square::known(i);
        left.put(s, spent_at(first, board, set, s));
    }
    left
}

/// So many pawns, and as many officers of each kind as are counted.
pub(crate) fn with_pawns(pawns: u8, n: &Counts) -> Allowance
    ensures { result ≡ with_pawns pawns n.now }
{
    Allowance {
        pawns,
        knights: n.knights,
        light_bishops: n.light_bishops,
        dark_bishops: n.dark_bishops,
        rooks: n.rooks,
        queens: n.queens,
    }
}

/// The pawns with which a side begins at these odds, and the officers with which it begins on homes that aren't dead. Homes whose men
/// are left out aren't counted.
pub(crate) fn living_allowance(board: &Board, set: SquareSet, side: Colour, odds: Odds) -> Allowance
    ensures { result ≡ allowance_of side (λ h. not (is_dead board.now set h)) (array_of odds) }
{
    let n = counts(&living(&array_of(odds), board, set, side), side);
    with_pawns(allowance(side, odds).pawns, &n)
}

/// With how many men a side begins at these odds.
pub(crate) fn begun_with(side: Colour, odds: Odds) -> u8
    ensures number { result ≡ men_of side is_any (array_of odds) }
    ensures few { result ≤ 64 }
{
    if odds.is_none() {
        return 16;
    }
    men_of(&array_of(odds), side)
}

/// How many homes of a side's officers are dead and shielded, of those whose men stand on the first board.
pub(crate) fn spent_of(first: &Board, board: &Board, set: SquareSet, side: Colour) -> u8
    ensures number { result ≡ men_of side (is_spent board.now set) first.now }
    ensures few { result ≤ 64 }
{
    men_of(&spent(first, board, set), side)
}
