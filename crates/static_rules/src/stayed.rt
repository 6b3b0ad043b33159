ghost use Rattle.std.specs.Prelude.{◌≡◌, ◌&&◌, ◌+◌, ◌<◌, ◌≤◌, cond, IsTrue, List, Bool, ℤ, None};
ghost use Rattle.board_base.specs.Board.{array_of, at, is_of};
ghost use Rattle.men_account.specs.Account.{excess_of};
ghost use Rattle.men_account.specs.Homes.{men_of};
ghost use Rattle.pawn_assign.specs.PawnCosts.{pawn_costs};
ghost use Rattle.static_rules.specs.Left.{has_stayed, left_with};
ghost use Rattle.cage_rules.specs.Refuted.{HasTooMany};
ghost use Rattle.static_rules.specs.SetRules.{IsAbove};
ghost use Rattle.static_rules.specs.Stayed.{IsStayedAllowance, front, is_guarded, may_be_spent, pawns_alone};

use crate::living_homes::{begun_with, has_stayed, with_pawns};
use crate::own_files::{are_cheap, low_cost};
use board_base::{Board, Colour, Man, Odds, Square, SquareSet, array_of, is_of};
use cage_rules::is_officer_home;
use men_account::{Allowance, Counts, allowance, counts, excess, men_of};
use pawn_assign::Costs;
use query_base::Query;

/// The most officers with which a side begins.
const OFFICERS: u16 = 7;

fn stayed_at(first: &Board, board: &Board, s: Square) -> Option<Man>
    ensures { result ≡ cond (has_stayed first.now board.now s) (at first.now s) None }
{
    if has_stayed(first, board, s) {
        first.at(s)
    } else {
        None
    }
}

/// The men who stand where they stand on the first board.
fn stayed(first: &Board, board: &Board) -> Board
    ensures { result ≡ left_with (has_stayed first.now board.now) first.now }
{
    let mut left = Board::empty();
    for i in 0..64 {
        let s = Square::known(i);
        left.put(s, stayed_at(first, board, s));
    }
    left
}

/// The pawns with which a side begins at these odds, and those of its officers who stand where they began.
fn stayed_allowance(board: &Board, side: Colour, odds: Odds) -> Allowance
    ensures { IsStayedAllowance (array_of odds) side board.now result }
{
    let n = counts(&stayed(&array_of(odds), board), side);
    with_pawns(allowance(side, odds).pawns, &n)
}

/// So many pawns, and no officers.
fn pawns_alone(pawns: u8) -> Allowance
    ensures { result ≡ pawns_alone pawns }
{
    Allowance {
        pawns,
        knights: 0,
        light_bishops: 0,
        dark_bishops: 0,
        rooks: 0,
        queens: 0,
    }
}

/// Whether a side has no more men beside its king than so many pawns.
fn are_few(men: &Counts, pawns: u8) -> bool
    ensures { IsTrue result → excess_of men.now (pawns_alone pawns) ≤ pawns }
{
    excess(men, &pawns_alone(pawns)) <= pawns as u16
}

/// True only if the side's pawns, and its officers of each kind above those who stand where they began, are at most the pawns with
/// which it began. Homes on which they stand are never dead, so no more of them have been promoted, whatever the set.
pub(crate) fn has_few(query: &Query, side: Colour) -> bool
    ensures { IsTrue result → (set : List Bool) → HasTooMany query.now.odds query.now set side → ⊥ }
{
    let men = counts(&query.board, side);
    if are_few(&men, allowance(side, query.odds).pawns) {
        return true;
    }
    let allowed = stayed_allowance(&query.board, side, query.odds);
    excess(&men, &allowed) <= allowed.pawns as u16
}

/// The square in front of this one, where a side's officers begin.
fn front(home: Square) -> u8
    ensures value { result ≡ front home }
    ensures small { result < 56 }
    ensures above { 7 < result }
{
    if home.rank() == 0 {
        8 + home.file()
    } else {
        48 + home.file()
    }
}

/// Whether the set has the squares from which an enemy pawn captures on an officer's home (article 3.7.3).
fn is_guarded(set: SquareSet, home: Square) -> bool
    ensures { result ≡ is_guarded set home }
{
    let front = front(home);
    (home.file() == 0 || set.has(Square::known(front - 1)))
        && (home.file() == 7 || set.has(Square::known(front + 1)))
}

fn may_be_spent(first: &Board, board: &Board, set: SquareSet, s: Square) -> bool
    ensures { result ≡ may_be_spent first.now board.now set s }
{
    is_officer_home(s) && !has_stayed(first, board, s) && is_guarded(set, s)
}

/// One more, if an officer of the side on the first board doesn't stand on this home, and no enemy pawn can have captured him there.
fn with_home(
    so_far: u8,
    first: &Board,
    board: &Board,
    set: SquareSet,
    side: Colour,
    s: Square,
) -> u8
    requires { so_far < 64 }
    ensures { result ≡ so_far + cond (is_of side (at first.now s) && may_be_spent first.now board.now set s) 1 0 }
{
    if is_of(side, first.at(s)) && may_be_spent(first, board, set, s) {
        so_far + 1
    } else {
        so_far
    }
}

/// How many officers of the side on the first board don't stand on their homes and can't have been captured by an enemy pawn.
fn may_be_spent_of(first: &Board, board: &Board, set: SquareSet, side: Colour) -> u8
    ensures number { result ≡ men_of side (may_be_spent first.now board.now set) first.now }
    ensures few { result ≤ 64 }
{
    let mut n = 0;
    for i in 0..64 {
        n = with_home(n, first, board, set, side, Square::known(i));
    }
    n
}

/// True only if the side's pawns, which have these costs, need no more captures than there are enemy men gone whom pawns may have
/// captured.
pub(crate) fn needs_few(query: &Query, side: Colour, set: SquareSet, costs: &Costs) -> bool
    requires { costs.now ≡ pawn_costs query.now.odds side query.now.board }
    ensures { IsTrue result → (u v : List ℤ) → IsAbove query.now.odds query.now side set u v → ⊥ }
{
    let enemy = side.other();
    let on_board = men_of(&query.board, enemy);
    let begun = begun_with(enemy, query.odds);
    if are_cheap(costs, on_board as u16 + OFFICERS, begun as u16) {
        return true;
    }
    let spent = may_be_spent_of(&array_of(query.odds), &query.board, set, enemy);
    let gone = begun.saturating_sub(on_board).saturating_sub(spent);
    low_cost(costs, u16::from(gone)) as u32 + on_board as u32 + spent as u32 <= begun as u32
}
