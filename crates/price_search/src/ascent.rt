ghost use Rattle.std.specs.Prelude.{◌≤◌};
ghost use Rattle.price_search.specs.Standing.{AreStanding};

use crate::flat_grounds::{FlatGround, FlatGrounds, Homes, flat_fails};
use crate::outcomes::{Men, Outcome, outcome_of, slopes};
use crate::payers::{Payers, flat_places};
use crate::standing::StandingMen;
use crate::weighing::Weighing;
use board_base::SquareSet;
use capture_prices::{Gate, Prices};
use query_base::Query;

/// What stands for one capture in the beginning.
const UNIT: i32 = 24;

/// The greatest price.
const MOST: i32 = 96;

/// How often prices are tried.
const ROUNDS: u32 = 150;

/// Prices that are sought, by their places.
#[derive(Clone, Copy)]
struct Ascent {
    prices: [u8; 96],
}

/// Homes of the men at flat prices, and whether they show that these support the query.
#[derive(Drop)]
struct FlatTried {
    homes: Homes,
    is_above: bool,
}

/// What a search came to: homes of the men that tell of each of the flat prices whether they support the query, and other prices that may
/// do.
#[derive(Clone, Copy)]
pub(crate) struct Sought {
    pub(crate) both: Homes,
    pub(crate) white_alone: Homes,
    pub(crate) black_alone: Homes,
    pub(crate) prices: Option<Prices>,
}

impl Sought {
    /// Nothing is known: no man began on these homes.
    pub(crate) fn nothing() -> Sought {
        let nowhere = Homes {
            white: [16; 16],
            black: [16; 16],
        };
        Sought {
            both: nowhere,
            white_alone: nowhere,
            black_alone: nowhere,
            prices: None,
        }
    }
}

/// The sum of the squares of the slopes along which a price can move.
fn square_sum(prices: &[u8], slopes: &[i32]) -> i32 {
    let mut sum = 0i32;
    for (price, slope) in prices.iter().zip(slopes) {
        if *price > 0 || *slope > 0 {
            sum = sum.wrapping_add(slope.wrapping_mul(*slope));
        }
    }
    sum
}

/// The price, moved so often along its slope, but not below 0 or above the greatest price.
fn moved(price: u8, slope: i32, step: i32) -> u8 {
    let x = i32::from(price).wrapping_add(slope.wrapping_mul(step));
    if x <= 0 {
        0
    } else if x >= MOST {
        96
    } else {
        x as u8
    }
}

/// Moves each price along its slope.
fn move_all(prices: &mut [u8], slopes: &[i32], step: i32) {
    for (price, slope) in prices.iter_mut().zip(slopes) {
        *price = moved(*price, *slope, step);
    }
}

/// How far to move, if the men fall short of the bound by so much and the slopes have this sum of squares.
fn step_for(shortfall: u32, squares: i32) -> i32 {
    if squares <= 0 {
        return 1;
    }
    let step = shortfall.saturating_add(12) / squares as u32;
    if step == 0 {
        1
    } else if step >= 24 {
        UNIT
    } else {
        step as i32
    }
}

/// How many of these prices aren't 0.
fn count_paid(prices: &[u8]) -> usize {
    prices.iter().filter(|x| **x > 0).count()
}

/// Sets the least of these prices that aren't 0 to 0.
fn drop_least(prices: &mut [u8]) {
    let mut least = 255;
    for price in prices.iter() {
        if *price > 0 && *price < least {
            least = *price;
        }
    }
    for price in prices.iter_mut() {
        if *price == least {
            *price = 0;
            return;
        }
    }
}

/// What the true homes of all men cost at most at prices, if they do so without gates.
pub(crate) fn most_at(base: u32, prices: &[u8; 96]) -> u32 {
    let mut most = base;
    for toll in &prices[32..] {
        most = most.wrapping_add(u32::from(*toll));
    }
    most
}

/// The sixteen prices from a place on.
fn sixteen_from(prices: &[u8; 96], start: usize) -> [u8; 16]
    requires { start ≤ 16 }
{
    let mut all = [0; 16];
    for k in 0..16 {
        all[k] = prices[start + k];
    }
    all
}

/// The prices on these places; None if there are too many gates, or a price is too great.
pub(crate) fn prices_at(prices: &[u8; 96]) -> Option<Prices> {
    let mut gates = [Gate { square: 0, toll: 0 }; 16];
    let mut count = 0;
    for i in 0..64u8 {
        let toll = prices[32 + i as usize];
        if toll > 0 {
            if count == 16 {
                return None;
            }
            gates[count] = Gate { square: i, toll };
            count += 1;
        }
    }
    Prices::new(
        &sixteen_from(prices, 0),
        &sixteen_from(prices, 16),
        &gates[..count],
    )
}

impl Ascent {
    /// Each capture pays one unit, and there are no gates.
    fn new() -> Ascent {
        let mut prices = [0; 96];
        for k in 0..32 {
            prices[k] = 24;
        }
        Ascent { prices }
    }

    /// These prices; None if there are too many gates.
    fn prices(&self) -> Option<Prices> {
        prices_at(&self.prices)
    }

    /// Moves the prices to where the men cost more, if only by what they did at these. At most sixteen gates stay, the greatest.
    fn climb(&mut self, outcome: &Outcome, shortfall: u32) {
        let slopes = slopes(&outcome.white, &outcome.black);
        let step = step_for(shortfall, square_sum(&self.prices, &slopes));
        move_all(&mut self.prices, &slopes, step);
        let gates = &mut self.prices[32..];
        for _ in 16..count_paid(gates) {
            drop_least(gates);
        }
    }
}

/// Tries flat prices: with homes at the least cost at others, if these show already that they don't support the query.
fn try_flat(
    kept: &FlatGround,
    query: &Query,
    set: SquareSet,
    payers: Payers,
    standing: &StandingMen,
    men: &Men,
    others: &Homes,
) -> FlatTried
    requires { AreStanding query.now.board standing.now }
{
    if flat_fails(kept, query, set, payers, standing, others) {
        return FlatTried {
            homes: *others,
            is_above: false,
        };
    }
    let outcome = outcome_of(men, &flat_places(payers), &[0; 32]);
    FlatTried {
        is_above: kept.most < outcome.cost,
        homes: outcome.homes,
    }
}

/// Prices at which the men cost more than their true homes can, if the ascent from an outcome at equal prices finds some. It ends where
/// the tallies on its way show that there are none. So much is the most that the true homes cost without gates.
fn ascend(men: &Men, first: &Outcome, base: u32) -> Option<Prices> {
    let mut ascent = Ascent::new();
    let mut weighing = Weighing::new();
    weighing.add(&first.white, &first.black);
    if weighing.weigh() {
        return None;
    }
    ascent.climb(first, base.saturating_sub(first.cost));
    for _ in 1..ROUNDS {
        let outcome = outcome_of(men, &ascent.prices, &weighing.needs());
        let most = most_at(base, &ascent.prices);
        if most < outcome.cost {
            return ascent.prices();
        }
        weighing.add(&outcome.white, &outcome.black);
        if weighing.weigh() {
            return None;
        }
        ascent.climb(&outcome, most - outcome.cost);
    }
    None
}

/// Tries the flat prices for men on these squares, and seeks others at which the men cost more than their true homes can, if none of
/// these do.
pub(crate) fn seek(
    query: &Query,
    set: SquareSet,
    kept: &FlatGrounds,
    standing: &StandingMen,
    men: &Men,
) -> Sought
    requires { AreStanding query.now.board standing.now }
{
    let both = outcome_of(men, &flat_places(Payers::Both), &[0; 32]);
    let white = try_flat(
        &kept.white_alone,
        query,
        set,
        Payers::WhiteAlone,
        standing,
        men,
        &both.homes,
    );
    let black = try_flat(
        &kept.black_alone,
        query,
        set,
        Payers::BlackAlone,
        standing,
        men,
        &both.homes,
    );
    let most = kept.both.most;
    let prices = if most < both.cost || white.is_above || black.is_above {
        None
    } else {
        ascend(men, &both, most)
    };
    Sought {
        both: both.homes,
        white_alone: white.homes,
        black_alone: black.homes,
        prices,
    }
}
