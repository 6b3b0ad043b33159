//! The homes of all men at which their side costs the least.

ghost use Rattle.std.specs.Prelude.{◌≡◌, ◌*◌, ◌<◌, ◌≤◌, IfSome, SomeIff, length};
ghost use Rattle.std.specs.List.{All};
ghost use Rattle.std.specs.Option.{option_map};
ghost use Rattle.assignment.specs.Tables.{IsTable};
ghost use Rattle.first_pairing.specs.FirstPairings.{IsFirstPairing};
ghost use Rattle.balance_rule.specs.Costs.{never};
ghost use Rattle.balance_prose.specs.Accounts.{AreLeastHomes, HasNoMore, counted_of, made_up, sum_on, table_of};

use arrayvec::ArrayVec;
use balance_rule::{begun_with, cost_table, ground_of};
use board_base::{Colour, SquareSet};
use capture_prices::Prices;
use first_pairing::first_pairing;
use query_base::Query;

/// What each man of a side costs from each of its homes, and then each man who is gone; None if and only if it has more men than it
/// began with.
fn some_table(
    query: &Query,
    prices: &Prices,
    set: SquareSet,
    side: Colour,
) -> Option<ArrayVec<[u16; 16], 16>>
    ensures table { IfSome result (λ rows. IsTable rows.items 16 never) }
    ensures items { SomeIff (option_map (λ rows. rows.items) result) (HasNoMore query.now side) (table_of query.now prices.now set side) }
{
    let ground = ground_of(query, set, prices, side);
    cost_table(&ground, &query.board, begun_with(side, query.odds))
}

/// What each man of a side costs from each of its homes, and then each man who is gone.
pub(crate) fn table_of(
    query: &Query,
    prices: &Prices,
    set: SquareSet,
    side: Colour,
) -> ArrayVec<[u16; 16], 16>
    requires { HasNoMore query.now side }
    ensures table { IsTable result.items 16 never }
    ensures items { result.items ≡ table_of query.now prices.now set side }
{
    some_table(query, prices, set, side).unwrap()
}

/// Homes of their own for all men of a side at which they cost the least, in ascending order of the men's squares and then for those who
/// are gone: the first such homes.
pub fn least_homes(query: &Query, prices: &Prices, set: SquareSet, side: Colour) -> ArrayVec<u8, 16>
    requires { HasNoMore query.now side }
    ensures least { AreLeastHomes query.now prices.now set side result.items }
    ensures first { IsFirstPairing 16 (table_of query.now prices.now set side) result.items }
{
    first_pairing(table_of(query, prices, set, side).as_slice())
}

/// What men count, and for how much they make up.
#[derive(Clone, Copy)]
pub(crate) struct Tally {
    pub(crate) counted: u32,
    pub(crate) made_up: u32,
}

/// What the men of these rows count with these homes, and for how much they make up.
pub(crate) fn count_men(rows: &[[u16; 16]], homes: &[u8]) -> Tally
    requires rows { length rows.now ≤ 16 }
    requires size { length homes.now ≡ length rows.now }
    requires within { All (λ j. j < 16) homes.now }
    ensures counted { result.counted ≡ sum_on counted_of rows.now homes.now }
    ensures made_up { result.made_up ≡ sum_on made_up rows.now homes.now }
    ensures small { result.counted ≤ 65535 * 16 }
    ensures made_small { result.made_up ≤ 96 * 16 }
{
    let mut counted = 0;
    let mut made_up = 0;
    for i in 0..rows.len() {
        let cost = rows[i][homes[i] as usize];
        counted += u32::from(cost.saturating_sub(96));
        made_up += u32::from(96u16.saturating_sub(cost));
    }
    Tally { counted, made_up }
}
