ghost use Rattle.std.specs.Prelude.{◌↔◌, IsTrue};
ghost use Rattle.static_rules.specs.SetRules.{IsSettled};
ghost use Rattle.ledger_facts.specs.Refuted.{IsRefuted};

use crate::lists::{earned_over, list_for, paid_over};
use crate::tables::side_cost;
use balance_rule::{is_whole, most_cost};
use board_base::{Colour, SquareSet};
use cage_rules::{as_array, is_frozen};
use capture_prices::Prices;
use ledger_facts::Supposition;
use query_base::Query;

/// Whether the set is frozen and as in the array at the query's odds.
pub(crate) fn is_settled(query: &Query, set: SquareSet) -> bool
    ensures { IsTrue result ↔ IsSettled query.now.odds query.now set }
{
    is_whole(set);
    is_frozen(query, set) && as_array(&query.board, set, query.odds)
}

/// Whether these prices, beside the set, refute a supposition: if it is true, each way of giving homes to the men costs more than their true
/// homes can, so it is false of every game that leads to the query. What a supposition rules out costs 5000 in the balance of captures:
/// another home of a man, a way of a pawn, or what became of who began on a home. Captures that are supposed to be at most so many cost 24
/// more each, so that at most so much more is paid than earned; the men taken by those that are supposed to be at least so many earn 24 more
/// each.
pub fn refutes(query: &Query, set: SquareSet, prices: &Prices, supposition: &Supposition) -> bool
    ensures { IsTrue result ↔ IsRefuted supposition.now query.now set prices.now }
{
    if !is_settled(query, set) {
        return false;
    }
    let Some(whites) = list_for(supposition, prices, Colour::White) else {
        return false;
    };
    let Some(white) = side_cost(query, set, &whites, supposition, Colour::White) else {
        return false;
    };
    let Some(blacks) = list_for(supposition, prices, Colour::Black) else {
        return false;
    };
    let Some(black) = side_cost(query, set, &blacks, supposition, Colour::Black) else {
        return false;
    };
    let most = most_cost(query.odds, prices);
    let least = white + black + earned_over(supposition);
    most < least.saturating_sub(paid_over(supposition))
}
