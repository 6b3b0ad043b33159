//! Prices near the flat ones: captures on one file or shade are free, or there is one gate. Nothing rests on which are tried, since an
//! account of each decides what it refutes.

ghost use Rattle.std.specs.Prelude.{◌<◌};
ghost use Rattle.ledger_rule.specs.Kept.{IsAccount};
ghost use Rattle.ledger_search.specs.Learning.{Grows};

use crate::flat::flat_prices;
use crate::learning::learn;
use crate::ledgers::Ledger;
use board_base::{Colour, Square, SquareSet};
use capture_prices::{Gate, Prices};
use ledger_rule::{Account, account_of};
use price_search::Payers;
use query_base::Query;

/// What each capture costs at flat prices.
const PRICE: u8 = 24;

/// Prices near the flat ones are tried if at some of these so much is to spare at most: four captures.
const FLAT_SPARE: u32 = 96;

/// An account is asked if so much is to spare at most: three captures.
const SPARE: u32 = 72;

/// What captures cost on each class of squares, of White's pawns and of Black's.
#[derive(Clone, Copy)]
struct Takes {
    white: [u8; 16],
    black: [u8; 16],
}

/// How much less the men cost than their true homes may.
fn spare(account: &Account) -> u32 {
    let cost = account.white.cost.saturating_add(account.black.cost);
    account.most.saturating_sub(cost)
}

/// How much is to spare at prices, if they are any and an account can be made.
fn spare_at(query: &Query, set: SquareSet, payers: Payers) -> u32 {
    match account_of(query, set, &flat_prices(payers)) {
        Some(account) => spare(&account),
        None => u32::MAX,
    }
}

/// Whether so little is to spare at flat prices that others near them are worth trying.
fn is_near(query: &Query, set: SquareSet) -> bool {
    spare_at(query, set, Payers::Both) <= FLAT_SPARE
        || spare_at(query, set, Payers::WhiteAlone) <= FLAT_SPARE
        || spare_at(query, set, Payers::BlackAlone) <= FLAT_SPARE
}

/// The ledger, with what the account refutes if little is to spare.
fn learn_from(query: &Query, account: &Account, ledger: &Ledger) -> Ledger
    requires { IsAccount query.now account.now }
    ensures { Grows query.now ledger.now result }
{
    if spare(account) <= SPARE {
        learn(query, account, ledger)
    } else {
        *ledger
    }
}

/// The ledger, with what these prices refute beside a set if little is to spare.
fn learn_at(query: &Query, set: SquareSet, prices: &Prices, ledger: &Ledger) -> Ledger
    ensures { Grows query.now ledger.now result }
{
    match account_of(query, set, prices) {
        Some(account) => learn_from(query, &account, ledger),
        None => *ledger,
    }
}

/// The same with these prices of captures and these gates, if they are prices.
fn learn_by(query: &Query, set: SquareSet, takes: &Takes, gates: &[Gate], ledger: &Ledger) -> Ledger
    ensures { Grows query.now ledger.now result }
{
    match Prices::new(&takes.white, &takes.black, gates) {
        Some(prices) => learn_at(query, set, &prices, ledger),
        None => *ledger,
    }
}

impl Takes {
    /// The flat ones at which these pay.
    fn flat(payers: Payers) -> Takes {
        let (white, black) = match payers {
            Payers::Both => (PRICE, PRICE),
            Payers::WhiteAlone => (PRICE, 0),
            Payers::BlackAlone => (0, PRICE),
        };
        Takes {
            white: [white; 16],
            black: [black; 16],
        }
    }

    /// Those of a side.
    fn of(&mut self, side: Colour) -> &mut [u8; 16] {
        match side {
            Colour::White => &mut self.white,
            Colour::Black => &mut self.black,
        }
    }

    /// The same with a side's captures on a file free.
    fn without_file(&self, side: Colour, file: u8) -> Takes {
        let mut takes = *self;
        for (k, price) in takes.of(side).iter_mut().enumerate() {
            if k / 2 == file as usize {
                *price = 0;
            }
        }
        takes
    }

    /// The same with those on a shade free; 0 is dark.
    fn without_shade(&self, side: Colour, shade: u8) -> Takes {
        let mut takes = *self;
        for (k, price) in takes.of(side).iter_mut().enumerate() {
            if k % 2 == shade as usize {
                *price = 0;
            }
        }
        takes
    }
}

/// The ledger, with what is refuted if a side's captures on one file are free.
fn learn_files(
    query: &Query,
    set: SquareSet,
    takes: &Takes,
    side: Colour,
    ledger: &Ledger,
) -> Ledger
    ensures { Grows query.now ledger.now result }
{
    let mut known = *ledger;
    for file in 0..8 {
        known = learn_by(query, set, &takes.without_file(side, file), &[], &known);
    }
    known
}

/// The same if those on one file or one shade are.
fn learn_free(query: &Query, set: SquareSet, takes: &Takes, side: Colour, ledger: &Ledger) -> Ledger
    ensures { Grows query.now ledger.now result }
{
    let files = learn_files(query, set, takes, side, ledger);
    let dark = takes.without_shade(side, 0);
    let light = takes.without_shade(side, 1);
    learn_by(
        query,
        set,
        &light,
        &[],
        &learn_by(query, set, &dark, &[], &files),
    )
}

/// Whether the pawns of a square's file both began outside the set, and so did whoever stands on it.
fn is_open(set: SquareSet, i: u8) -> bool
    requires { i < 64 }
{
    let file = i % 8;
    !set.has(Square::known(8 + file))
        && !set.has(Square::known(48 + file))
        && !set.has(Square::known(i))
}

/// The ledger, with what is refuted with a gate on a square, if two pawns may tread it.
fn learn_gate(query: &Query, set: SquareSet, takes: &Takes, i: u8, ledger: &Ledger) -> Ledger
    requires { i < 64 }
    ensures { Grows query.now ledger.now result }
{
    if !is_open(set, i) {
        return *ledger;
    }
    let gate = Gate {
        square: i,
        toll: PRICE,
    };
    learn_by(query, set, takes, &[gate], ledger)
}

/// The same with one gate on each square in turn.
fn learn_gated(query: &Query, set: SquareSet, takes: &Takes, ledger: &Ledger) -> Ledger
    ensures { Grows query.now ledger.now result }
{
    let mut known = *ledger;
    for i in 8..56 {
        known = learn_gate(query, set, takes, i, &known);
    }
    known
}

/// The ledger, with what prices near the flat ones refute beside a set, if little is to spare at these.
pub(crate) fn learn_near(query: &Query, set: SquareSet, ledger: &Ledger) -> Ledger
    ensures { Grows query.now ledger.now result }
{
    if !is_near(query, set) {
        return *ledger;
    }
    let takes = Takes::flat(Payers::Both);
    let gated = learn_gated(query, set, &takes, ledger);
    let white = learn_free(query, set, &takes, Colour::White, &gated);
    let black = learn_free(query, set, &takes, Colour::Black, &white);
    let whites = Takes::flat(Payers::WhiteAlone);
    let white_alone = learn_free(query, set, &whites, Colour::White, &black);
    let blacks = Takes::flat(Payers::BlackAlone);
    learn_free(query, set, &blacks, Colour::Black, &white_alone)
}
