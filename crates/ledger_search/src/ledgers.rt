ghost use Rattle.std.specs.Prelude.{Bool, List};
ghost use Rattle.price_search.specs.FlatPrices.{flat_prices};
ghost use Rattle.query_base.specs.Asked.{Asked};
ghost use Rattle.ledger_search.specs.Learning.{Grows};
ghost use Rattle.ledger_search.specs.Ledgers.{HasAll, IsLedger, IsLedgerOf};

use crate::counts::{ANY_COUNTS, Counts};
use crate::flat::flat_prices;
use crate::learning::learn;
use crate::near::learn_near;
use board_base::SquareSet;
use cage_rules::greatest_as_array;
use ledger_rule::account_of;
use price_search::Payers;
use query_base::Query;

/// Of each fate the homes whose men didn't meet it.
#[derive(Clone, Copy, Debug)]
pub struct Fates {
    /// Their men don't stand on the board, never promoted.
    pub stands: SquareSet,
    /// They don't stand there promoted.
    pub stands_promoted: SquareSet,
    /// They weren't taken, never promoted and by no pawn.
    pub taken: SquareSet,
    /// They weren't taken, never promoted and by a pawn.
    pub struck: SquareSet,
    /// They weren't taken by no pawn after they had been promoted.
    pub taken_promoted: SquareSet,
    /// They weren't taken by a pawn after they had been promoted.
    pub struck_promoted: SquareSet,
}

/// What some prices rule out of the games that lead to a position: flat ones, and ones near them.
#[derive(Clone, Copy, Debug)]
pub struct Ledger {
    /// For each square, the homes of his side on which the man who stands there didn't begin.
    pub homes: [SquareSet; 64],
    /// The pawns on the board of whom it is ruled out that they never captured.
    pub captured: SquareSet,
    /// Those of whom it is ruled out that they captured.
    pub straight: SquareSet,
    pub fates: Fates,
    pub white: Counts,
    pub black: Counts,
}

/// A ledger that says nothing.
fn no_ledger() -> Ledger
    ensures { (q : Asked) → IsLedger q result }
{
    let none = SquareSet::from_bits(0);
    Ledger {
        homes: [none; 64],
        captured: none,
        straight: none,
        fates: Fates {
            stands: none,
            stands_promoted: none,
            taken: none,
            struck: none,
            taken_promoted: none,
            struck_promoted: none,
        },
        white: ANY_COUNTS,
        black: ANY_COUNTS,
    }
}

/// The ledger, with all that these flat prices refute beside a set.
fn learn_flat(query: &Query, set: SquareSet, payers: Payers, ledger: &Ledger) -> Ledger
    ensures grows { Grows query.now ledger.now result }
    ensures all { HasAll query.now set (flat_prices payers) result }
{
    match account_of(query, set, &flat_prices(payers)) {
        Some(account) => learn(query, &account, ledger),
        None => *ledger,
    }
}

/// The ledger of a position: all that flat prices refute beside the greatest frozen set that is as in the array, and what prices near them
/// refute besides. Flat prices are 24 for each capture by a pawn, for each by a white one, or for each by a black one, without gates. All
/// that the ledger says is ruled out by some prices, so that it is so in every game that leads to the query.
pub fn ledger_of(query: &Query) -> Ledger
    ensures { IsLedgerOf query.now result }
{
    let set = greatest_as_array(query);
    let both = learn_flat(query, set, Payers::Both, &no_ledger());
    let white = learn_flat(query, set, Payers::WhiteAlone, &both);
    let black = learn_flat(query, set, Payers::BlackAlone, &white);
    learn_near(query, set, &black)
}
