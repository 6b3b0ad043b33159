ghost use Rattle.std.specs.Prelude.{◌≡◌, ◌≤◌, ◌↔◌, IfSome, IsTrue, SomeIff, length};
ghost use Rattle.board_base.specs.Board.{array_of};
ghost use Rattle.assignment.specs.Tables.{IsTable};
ghost use Rattle.assignment.specs.Assignments.{least_cost};
ghost use Rattle.capture_prices.specs.Prices.{all_gates, are_prices};
ghost use Rattle.static_rules.specs.SetRules.{IsSettled};
ghost use Rattle.balance_rule.specs.Balance.{BalanceSupports, men_on, most_cost, side_cost};
ghost use Rattle.balance_rule.specs.Costs.{never};

use crate::grounds::ground_of;
use crate::tables::{begun_with, cost_table};
use assignment::solve_large;
use board_base::{Colour, Odds, Square, SquareSet};
use cage_rules::{as_array, is_frozen};
use capture_prices::Prices;
use query_base::Query;

/// Tells the caller that a set has 64 truth values.
pub fn is_whole(set: SquareSet)
    ensures { length set ≡ 64 }
{
    let _ = set.has(Square::known(0));
}

/// Whether the set is frozen and as in the array at the query's odds.
fn is_settled(query: &Query, set: SquareSet) -> bool
    ensures { IsTrue result ↔ IsSettled query.now.odds query.now set }
{
    is_whole(set);
    is_frozen(query, set) && as_array(&query.board, set, query.odds)
}

/// The least cost of giving the rows columns of their own.
fn least_cost(rows: &[[u16; 16]]) -> u32
    requires { IsTable rows.now 16 never }
    ensures value { result ≡ least_cost 16 rows.now }
    ensures small { result ≤ 80_000 }
{
    solve_large(rows).cost
}

/// The least that the men of a side cost with homes of their own, 96 for each man included; None if and only if it has more men than it
/// began with. What can't be costs 5000.
pub fn side_cost(query: &Query, frozen: SquareSet, prices: &Prices, side: Colour) -> Option<u32>
    ensures value { SomeIff result (men_on side query.now.board ≤ men_on side (array_of query.now.odds)) (side_cost query.now.odds query.now.board prices.now frozen side) }
    ensures small { IfSome result (λ cost. cost ≤ 80_000) }
{
    let ground = ground_of(query, frozen, prices, side);
    let rows = cost_table(&ground, &query.board, begun_with(side, query.odds))?;
    Some(least_cost(rows.as_slice()))
}

/// All gates together.
fn all_gates(prices: &Prices) -> u32
    ensures value { result ≡ all_gates prices.now }
    ensures small { result ≤ 1536 }
    ensures known { IsTrue (are_prices prices.now) }
{
    let mut all = 0;
    for gate in prices.gates() {
        all += u32::from(gate.toll);
    }
    all
}

/// What the true homes of all men cost at most: 96 for each man who began, and all gates.
pub fn most_cost(odds: Odds, prices: &Prices) -> u32
    ensures value { result ≡ most_cost odds prices.now }
    ensures known { IsTrue (are_prices prices.now) }
{
    let men = begun_with(Colour::White, odds) + begun_with(Colour::Black, odds);
    96 * u32::from(men) + all_gates(prices)
}

/// Whether the rule on the balance of captures supports the query with this set and these prices. The set is frozen and as in the array
/// at the query's odds. Each man of the diagram began on a home, and the others were taken. A capture by a pawn has a price; his side
/// pays it, and the man whom he takes earns it, so over all men what is paid is what is earned. Of the two pawns of a file who never
/// left it at most one treads each square, and that may ask for a gate. If for these prices each way of giving homes to the men costs
/// more than that, no game leads to the query.
pub fn balances(query: &Query, set: SquareSet, prices: &Prices) -> bool
    ensures { IsTrue result ↔ BalanceSupports query.now set prices.now }
{
    if !is_settled(query, set) {
        return false;
    }
    let Some(white) = side_cost(query, set, prices, Colour::White) else {
        return false;
    };
    let Some(black) = side_cost(query, set, prices, Colour::Black) else {
        return false;
    };
    most_cost(query.odds, prices) < white + black
}
