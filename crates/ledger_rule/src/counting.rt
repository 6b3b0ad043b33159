ghost use Rattle.std.specs.Prelude.{◌≡◌, ◌<◌, ◌≤◌, ◌↔◌, ℕ, IsTrue, SomeIff};
ghost use Rattle.capture_prices.specs.Prices.{are_prices};
ghost use Rattle.ledger_facts.specs.Accounts.{raised, side_cost_if};
ghost use Rattle.ledger_facts.specs.Refuted.{IsRefuted};
ghost use Rattle.ledger_facts.specs.declared.suppositions.Supposition.TheVariants.{AtLeast, AtMost};
ghost use Rattle.ledger_rule.specs.Kept.{IsAccount, nothing};
ghost use Rattle.ledger_rule.specs.Touched.{dear_cost, side_in};

use crate::accounts::Account;
use crate::lists::raised;
use crate::sides::{NOTHING, Side};
use crate::tables::cost_beside;
use balance_rule::set_prices;
use board_base::Colour;
use capture_prices::Prices;
use ledger_facts::Squares;
use query_base::Query;

/// What is charged for sixteen captures, 24 for each.
const SIXTEEN: u64 = 384;

/// What is computed once for a side.
fn side_in(account: &Account, side: Colour) -> &Side
    ensures { result.now ≡ side_in account.now side }
{
    match side {
        Colour::White => &account.white,
        Colour::Black => &account.black,
    }
}

/// What the men of a side cost at other prices.
fn cost_at(query: &Query, account: &Account, side: Colour, prices: &Prices) -> u32
    requires { IsAccount query.now account.now }
    ensures { result ≡ side_cost_if nothing query.now.odds query.now.board prices.now account.now.set side }
{
    let kept = side_in(account, side);
    let mut ground = kept.ground;
    set_prices(&mut ground, prices);
    match cost_beside(&ground, &NOTHING, &query.board, kept.begun) {
        Some(cost) => cost,
        None => 0,
    }
}

/// What the men of both sides cost, those of this one with a side's captures on some squares dearer; None if and only if a price is
/// above 96 then.
fn cost_dearer(
    query: &Query,
    account: &Account,
    reckoned: Colour,
    payer: Colour,
    squares: Squares,
) -> Option<u64>
    requires { IsAccount query.now account.now }
    ensures { SomeIff result (IsTrue (are_prices (raised payer squares account.now.prices))) (dear_cost query.now account.now reckoned payer squares) }
{
    let prices = raised(payer, squares, &account.prices)?;
    let dear = cost_at(query, account, reckoned, &prices);
    let other = side_in(account, reckoned.other()).cost;
    Some(u64::from(dear) + u64::from(other))
}

/// The least number of captures on these squares, up to 16, of which the account's prices don't refute that the side's pawns made at most
/// so many.
pub fn least_count(query: &Query, account: &Account, side: Colour, squares: Squares) -> u8
    requires { IsAccount query.now account.now }
    ensures few { result ≤ 16 }
    ensures refuted { (n : ℕ) → n < 16 → (n < result) ↔ IsRefuted (AtMost side squares n) query.now account.now.set account.now.prices }
{
    let Some(cost) = cost_dearer(query, account, side, side, squares) else {
        return 0;
    };
    let over = cost.saturating_sub(u64::from(account.most)).min(SIXTEEN);
    ((over + 23) / 24) as u8
}

/// The greatest number of captures, up to 16, of which they don't refute that the side's pawns made at least so many; 0 if they refute each.
pub fn most_count(query: &Query, account: &Account, side: Colour, squares: Squares) -> u8
    requires { IsAccount query.now account.now }
    ensures few { result ≤ 16 }
    ensures refuted { (n : ℕ) → 0 < n → n ≤ 16 → (result < n) ↔ IsRefuted (AtLeast side squares n) query.now account.now.set account.now.prices }
{
    let Some(cost) = cost_dearer(query, account, side.other(), side, squares) else {
        return 16;
    };
    let room = u64::from(account.most).saturating_sub(cost).min(SIXTEEN);
    (room / 24) as u8
}
