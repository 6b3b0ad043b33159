ghost use Rattle.std.specs.Prelude.{◌≡◌, ◌≤◌, IfSome, MatchOption};
ghost use Rattle.assignment.specs.Tables.{IsTable};
ghost use Rattle.balance_rule.specs.Balance.{men_on};
ghost use Rattle.balance_rule.specs.Costs.{never};
ghost use Rattle.board_base.specs.Board.{array_of};
ghost use Rattle.ledger_rule.specs.Kept.{IsSide, IsTableOf};

use crate::tables::{cost_table, least_cost};
use arrayvec::ArrayVec;
use balance_rule::{Ground, begun_with, ground_of, squares_of_men};
use board_base::{Colour, SquareSet};
use capture_prices::Prices;
use ledger_facts::{Squares, Supposition};
use ledger_pairings::rests_of;
use query_base::Query;

/// A supposition that rules out nothing.
pub(crate) const NOTHING: Supposition = Supposition::AtMost(Colour::White, Squares::All, 0);

/// What sixteen men cost from sixteen homes, and what the others cost beside each with each home.
#[derive(Clone, Copy)]
pub struct Table {
    pub rows: [[u16; 16]; 16],
    pub rests: [[u32; 16]; 16],
}

/// What is computed once for a side for all suppositions at the same prices.
#[derive(Drop)]
pub struct Side {
    pub ground: Ground,
    /// With how many men it begins.
    pub begun: u8,
    /// The squares of its men, in ascending order.
    pub men: ArrayVec<u8, 16>,
    /// What its men cost at least if nothing is supposed.
    pub cost: u32,
    /// What each costs then; None if it doesn't begin with sixteen.
    pub table: Option<Table>,
}

/// The rows with their rests; None if they aren't sixteen.
fn table_of(rows: ArrayVec<[u16; 16], 16>) -> Option<Table>
    requires { IsTable rows.items 16 never }
    ensures { IfSome result (IsTableOf rows.items) }
{
    match rows.into_inner() {
        Ok(rows) => match rests_of(&rows) {
            Some(rests) => Some(Table { rows, rests }),
            None => None,
        },
        Err(_) => None,
    }
}

/// What is computed once for a side; None if and only if it has more men than it began with.
pub(crate) fn side_of(query: &Query, set: SquareSet, prices: &Prices, side: Colour) -> Option<Side>
    ensures { MatchOption result (men_on side query.now.board ≤ men_on side (array_of query.now.odds) → ⊥) (IsSide query.now.odds query.now.board prices.now set side) }
{
    let ground = ground_of(query, set, prices, side);
    let begun = begun_with(side, query.odds);
    let rows = cost_table(&ground, &NOTHING, &query.board, begun)?;
    let men = squares_of_men(&query.board, side)?;
    let cost = least_cost(rows.as_slice());
    Some(Side {
        ground,
        begun,
        men,
        cost,
        table: table_of(rows),
    })
}
