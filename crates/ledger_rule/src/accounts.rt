ghost use Rattle.std.specs.Prelude.{◌≡◌, ◌↔◌, Bool, IfSome, IfNone, IsTrue, List, Some, false};
ghost use Rattle.board_base.specs.declared.men.Colour.{Colour as AColour};
ghost use Rattle.capture_prices.specs.Prices.{PriceList};
ghost use Rattle.ledger_facts.specs.Accounts.{side_cost_if};
ghost use Rattle.ledger_facts.specs.Refuted.{IsRefuted};
ghost use Rattle.ledger_facts.specs.declared.suppositions.Supposition.{Supposition as ASupposition};
ghost use Rattle.ledger_rule.specs.Counting.{is_count};
ghost use Rattle.ledger_rule.specs.Kept.{IsAccount, IsAccountOf, IsSide};
ghost use Rattle.ledger_rule.specs.Touched.{IsReckoned};

use crate::changing::{by_home, by_homes, by_man};
use crate::refuting::{is_settled, refutes};
use crate::sides::{Side, Table, side_of};
use crate::tables::cost_beside;
use balance_rule::most_cost;
use board_base::{Board, Colour, SquareSet};
use capture_prices::Prices;
use ledger_facts::Supposition;
use query_base::Query;

/// What is computed once for all suppositions on a query, at the same prices and beside the same set.
#[derive(Drop)]
pub struct Account {
    pub set: SquareSet,
    pub prices: Prices,
    pub white: Side,
    pub black: Side,
    /// What the true homes of all men cost at most.
    pub most: u32,
}

/// What is computed once; None only if no supposition is refuted, since the set isn't frozen and as in the array, or a side has more men
/// than it began with.
pub fn account_of(query: &Query, set: SquareSet, prices: &Prices) -> Option<Account>
    ensures kept { IfSome result (IsAccountOf query.now set prices.now) }
    ensures none { IfNone result ((x : ASupposition) → IsRefuted x query.now set prices.now → ⊥) }
{
    if !is_settled(query, set) {
        return None;
    }
    let white = side_of(query, set, prices, Colour::White)?;
    let black = side_of(query, set, prices, Colour::Black)?;
    let most = most_cost(query.odds, prices);
    Some(Account {
        set,
        prices: *prices,
        white,
        black,
        most,
    })
}

/// Whether the supposition counts captures.
fn is_count(supposition: &Supposition) -> bool
    ensures { result ≡ is_count supposition.now }
{
    match *supposition {
        Supposition::Began(_, _) => false,
        Supposition::Went(_, _) => false,
        Supposition::Stands(_, _) => false,
        Supposition::Gone(_, _, _) => false,
        Supposition::AtMost(_, _, _) => true,
        Supposition::AtLeast(_, _, _) => true,
    }
}

/// The same as `cost_if`, man by man.
fn cost_anew(side: &Side, supposition: &Supposition, board: &Board) -> u32
    requires { IsReckoned board.now side.now }
    ensures { (o : List Bool) (p : PriceList) (set : List Bool) (c : AColour) → IsSide o board.now p set c side.now → result ≡ side_cost_if supposition.now o board.now p set c }
{
    match cost_beside(&side.ground, supposition, board, side.begun) {
        Some(cost) => cost,
        None => 0,
    }
}

/// The same, by what sixteen men cost if nothing is supposed.
fn cost_by(side: &Side, table: &Table, supposition: &Supposition, board: &Board) -> u32
    requires known { IsReckoned board.now side.now }
    requires table { side.now.table ≡ Some table.now }
    ensures { (o : List Bool) (p : PriceList) (set : List Bool) (c : AColour) → IsSide o board.now p set c side.now → result ≡ side_cost_if supposition.now o board.now p set c }
{
    match *supposition {
        Supposition::Began(t, homes) => by_homes(side, table, board, t, homes),
        Supposition::Went(t, _) => by_man(side, table, board, supposition, t),
        Supposition::Stands(k, _) => by_home(side, table, board, supposition, k),
        Supposition::Gone(k, _, _) => by_home(side, table, board, supposition, k),
        Supposition::AtMost(_, _, _) => side.cost,
        Supposition::AtLeast(_, _, _) => side.cost,
    }
}

/// The least that the men of a side cost.
fn cost_if(side: &Side, supposition: &Supposition, board: &Board) -> u32
    requires { IsReckoned board.now side.now }
    ensures { (o : List Bool) (p : PriceList) (set : List Bool) (c : AColour) → IsSide o board.now p set c side.now → result ≡ side_cost_if supposition.now o board.now p set c }
{
    match &side.table {
        Some(table) => cost_by(side, table, supposition, board),
        None => cost_anew(side, supposition, board),
    }
}

/// The same as `refutes_in`, of a supposition that counts no captures.
fn costs_more(query: &Query, account: &Account, supposition: &Supposition) -> bool
    requires account { IsAccount query.now account.now }
    requires cells { is_count supposition.now ≡ false }
    ensures { IsTrue result ↔ IsRefuted supposition.now query.now account.now.set account.now.prices }
{
    let white = cost_if(&account.white, supposition, &query.board);
    let black = cost_if(&account.black, supposition, &query.board);
    u64::from(account.most) < u64::from(white) + u64::from(black)
}

/// Whether the prices of an account of the query refute a supposition, as `refutes` does.
pub fn refutes_in(query: &Query, account: &Account, supposition: &Supposition) -> bool
    requires { IsAccount query.now account.now }
    ensures { IsTrue result ↔ IsRefuted supposition.now query.now account.now.set account.now.prices }
{
    if is_count(supposition) {
        refutes(query, account.set, &account.prices, supposition)
    } else {
        costs_more(query, account, supposition)
    }
}
