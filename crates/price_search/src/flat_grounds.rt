ghost use Rattle.std.specs.Prelude.{◌≡◌, ◌<◌, ◌≤◌, IfSome, IsTrue, length};
ghost use Rattle.board_base.specs.Board.{array_of, men_squares};
ghost use Rattle.assignment.specs.Assignments.{IsInjection};
ghost use Rattle.assignment.specs.Tables.{cost_at};
ghost use Rattle.balance_rule.specs.Balance.{BalanceSupports, cost_table, men_on, most_cost, side_cost};
ghost use Rattle.price_search.specs.FlatGrounds.{IsFlatGround};
ghost use Rattle.price_search.specs.Standing.{AreStanding};
ghost use Rattle.price_search.specs.FlatPrices.{flat_prices};

use crate::lands::{Land, Lands};
use crate::payers::{Payers, flat_prices};
use crate::standing::StandingMen;
use assignment::least_cost_is_least;
use balance_rule::{
    Ground, begun_with, gone_row, ground_of, most_cost, number_of_home, set_prices, stands,
};
use board_base::{Board, Colour, Odds, Square, SquareSet};
use query_base::Query;

/// What is known of a side beside a set at flat prices, in games at these odds.
#[derive(Clone, Copy)]
pub(crate) struct FlatSide {
    payers: Payers,
    odds: Odds,
    pub(crate) side: Ground,
    /// What it costs that the man of each of the side's homes is gone.
    lost: [u16; 16],
    /// With how many men the side begins.
    pub(crate) begun: u8,
    ghost known: { ∥ IsFlatGround payers odds side lost ∥₁ },
    ghost begun_is: { begun ≡ men_on side.side (array_of odds) },
    ghost few: { begun ≤ 16 },
}

/// The same of both sides.
#[derive(Clone, Copy)]
pub(crate) struct FlatGround {
    pub(crate) white: FlatSide,
    pub(crate) black: FlatSide,
    /// What the true homes of all men cost at most.
    pub(crate) most: u32,
    ghost most_is: { most ≡ most_cost white.odds (flat_prices white.payers) },
}

/// The same at each of the flat prices.
#[derive(Clone, Copy)]
pub(crate) struct FlatGrounds {
    pub(crate) lands: Lands,
    pub(crate) both: FlatGround,
    pub(crate) white_alone: FlatGround,
    pub(crate) black_alone: FlatGround,
}

/// The homes of both sides' men: first of those on the board, in an order that is known otherwise, and then of those who are gone.
#[derive(Clone, Copy)]
pub(crate) struct Homes {
    pub(crate) white: [u8; 16],
    pub(crate) black: [u8; 16],
}

/// What is known of a side of the query.
fn flat_side(query: &Query, set: SquareSet, payers: Payers, side: Colour) -> FlatSide
    ensures { (result.odds ≡ query.now.odds) × (result.payers ≡ payers) }
{
    let ground = ground_of(query, set, &flat_prices(payers), side);
    let lost = gone_row(&ground);
    FlatSide {
        payers,
        odds: query.odds,
        side: ground,
        lost,
        begun: begun_with(side, query.odds),
    }
}

/// What is known of both sides of the query.
fn flat_ground(query: &Query, set: SquareSet, payers: Payers) -> FlatGround {
    FlatGround {
        white: flat_side(query, set, payers, Colour::White),
        black: flat_side(query, set, payers, Colour::Black),
        most: most_cost(query.odds, &flat_prices(payers)),
    }
}

impl FlatSide {
    /// The same at other flat prices.
    fn at(&self, payers: Payers) -> FlatSide
        ensures { (result.odds ≡ self.now.odds) × (result.payers ≡ payers) }
    {
        let mut side = self.side;
        set_prices(&mut side, &flat_prices(payers));
        let lost = gone_row(&side);
        FlatSide {
            payers,
            odds: self.odds,
            side,
            lost,
            begun: self.begun,
        }
    }

    /// Whether this is of the side, at these prices and beside this set in games at these odds.
    fn fits(&self, side: Colour, payers: Payers, set: SquareSet, odds: Odds) -> bool
        ensures { IsTrue result → (self.now.side.side ≡ side) × (self.now.payers ≡ payers) × (self.now.side.frozen ≡ set) × (self.now.odds ≡ odds) }
    {
        if self.side.side != side || self.payers != payers || self.side.frozen != set {
            return false;
        }
        self.odds.is_same(odds)
    }
}

impl FlatGround {
    /// The same at other flat prices.
    fn at(&self, payers: Payers) -> FlatGround {
        FlatGround {
            white: self.white.at(payers),
            black: self.black.at(payers),
            most: most_cost(self.white.odds, &flat_prices(payers)),
        }
    }
}

impl FlatGrounds {
    /// What is known of both sides of the query.
    pub(crate) fn new(query: &Query, set: SquareSet) -> FlatGrounds {
        let both = flat_ground(query, set, Payers::Both);
        FlatGrounds {
            lands: Lands {
                white: Land::of(&both.white.side),
                black: Land::of(&both.black.side),
            },
            both,
            white_alone: both.at(Payers::WhiteAlone),
            black_alone: both.at(Payers::BlackAlone),
        }
    }

    /// Whether this is of positions with this set and these odds.
    pub(crate) fn fits(&self, set: SquareSet, odds: Odds) -> bool {
        self.both.white.side.frozen == set && self.both.white.odds == odds
    }
}

/// Whether these are homes of so many men, each of another.
fn are_homes(homes: &[u8]) -> bool
    ensures { IsTrue result → IsInjection 16 (length homes.now) homes.now }
{
    let mut seen = [false; 16];
    for i in 0..homes.len() {
        if homes[i] >= 16 || seen[homes[i] as usize] {
            return false;
        }
        seen[homes[i] as usize] = true;
    }
    true
}

/// What it costs that the man in a place of the table began on this home: first come those on these squares.
fn cell(kept: &FlatSide, board: &Board, men: &[u8], i: usize, home: u8) -> u16
    requires home { home < 16 }
    requires men { men.now ≡ men_squares kept.now.side.side board.now }
    ensures { IsFlatGround kept.now.payers kept.now.odds kept.now.side kept.now.lost → i < men_on kept.now.side.side (array_of kept.now.odds) → result ≡ cost_at (cost_table (flat_prices kept.now.payers) kept.now.side.frozen kept.now.side.side (array_of kept.now.odds) board.now) i home }
{
    if i < men.len() {
        let s = Square::known(men[i]);
        let home = number_of_home(kept.side.side, home);
        stands(&kept.side, home, board.at(s), s)
    } else {
        kept.lost[home as usize]
    }
}

/// What the men of a side cost with these homes, one for each man on the board, who stand on these squares, and then one for each who
/// is gone; None if these are no homes of theirs.
fn cost_with(kept: &FlatSide, board: &Board, men: &[u8], homes: &[u8; 16]) -> Option<u32>
    requires { men.now ≡ men_squares kept.now.side.side board.now }
    ensures { IfSome result (λ cost. (men_on kept.now.side.side board.now ≤ men_on kept.now.side.side (array_of kept.now.odds)) × (side_cost kept.now.odds board.now (flat_prices kept.now.payers) kept.now.side.frozen kept.now.side.side ≤ cost)) }
{
    let homes = &homes[..kept.begun as usize];
    if men.len() > homes.len() || !are_homes(homes) {
        return None;
    }
    let mut cost = 0;
    for i in 0..homes.len() {
        cost += u32::from(cell(kept, board, men, i, homes[i]));
    }
    Some(cost)
}

/// Whether homes of the men of both sides show that these flat prices don't support the query with this set.
pub(crate) fn flat_fails(
    kept: &FlatGround,
    query: &Query,
    set: SquareSet,
    payers: Payers,
    men: &StandingMen,
    homes: &Homes,
) -> bool
    requires { AreStanding query.now.board men.now }
    ensures { IsTrue result → BalanceSupports query.now set (flat_prices payers) → ⊥ }
{
    if !kept.white.fits(Colour::White, payers, set, query.odds)
        || !kept.black.fits(Colour::Black, payers, set, query.odds)
    {
        return false;
    }
    let board = &query.board;
    let white = cost_with(&kept.white, board, men.white.as_slice(), &homes.white);
    let black = cost_with(&kept.black, board, men.black.as_slice(), &homes.black);
    match (white, black) {
        (Some(white), Some(black)) => white.saturating_add(black) <= kept.most,
        _ => false,
    }
}
