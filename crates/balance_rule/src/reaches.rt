ghost use Rattle.std.specs.Prelude.{◌≡◌, ◌+◌, ◌-◌, ◌*◌, ◌<◌, ◌≤◌, ◌%◌, ℕ, IsTrue, cond, false, min, slice_index, slice_index_or, slice_set};
ghost use Rattle.board_base.specs.Board.{is_in};
ghost use Rattle.capture_prices.specs.Prices.{PriceList, are_prices};
ghost use Rattle.balance_rule.specs.Costs.{never};
ghost use Rattle.balance_rule.specs.Tariffs.{IsTariff};
ghost use Rattle.balance_rule.specs.declared.reaches.Reach.{Reach as AReach};
ghost use Rattle.balance_rule.specs.LeastWays.{IsReach, fee_of, seen_by, toll_of};
ghost use Rattle.balance_rule.specs.NextWays.{IsReachTo, next_aside};

use crate::tariffs::Tariff;
use crate::views::seen_by;
use board_base::{Colour, SquareSet};

/// More than anything costs: it stands where something can't be.
pub const NEVER: u16 = 5000;

/// What the ways of a pawn cost at least, by the squares on which they end, as his side sees them.
#[derive(Clone, Copy)]
pub struct Reach {
    /// The gates of a way on which he captures nowhere.
    pub straight: [u16; 64],
    /// The fees of a way on which he captures somewhere.
    pub aside: [u16; 64],
}

/// The sum, or `NEVER` if that is less.
pub fn capped_sum(a: u16, b: u16) -> u16
    ensures { result ≡ min never (a + b) }
{
    NEVER.min(a.saturating_add(b))
}

/// The least fee of all ways to a square: nothing if he needs no capture.
pub fn fee_at(reach: &Reach, i: u8) -> u16
    requires { i < 64 }
    ensures { result ≡ fee_of (slice_index reach.now.straight i) (slice_index reach.now.aside i) }
{
    let i = i as usize;
    if reach.straight[i] < NEVER {
        0
    } else {
        reach.aside[i]
    }
}

/// The least toll of all ways to a square.
pub fn toll_at(reach: &Reach, i: u8) -> u16
    requires { i < 64 }
    ensures { result ≡ toll_of (slice_index reach.now.straight i) (slice_index reach.now.aside i) }
{
    let i = i as usize;
    reach.straight[i].min(reach.aside[i])
}

/// The least fee of the ways to the square from which a step to the side comes, if there is such a step.
fn fee_behind(reach: &Reach, is_step: bool, from: u8) -> u16
    requires { from < 64 }
    ensures { result ≡ cond is_step (fee_of (slice_index reach.now.straight from) (slice_index reach.now.aside from)) never }
{
    if is_step { fee_at(reach, from) } else { NEVER }
}

/// The least fee of the ways to a square on which he captures somewhere, from those to the squares behind it.
fn next_aside(reach: &Reach, take: u16, i: u8) -> u16
    requires inside { i < 64 }
    requires ahead { 16 ≤ i }
    ensures { result ≡ next_aside reach.now take i }
{
    let from_left = fee_behind(reach, i % 8 > 0, i - 9);
    let from_right = fee_behind(reach, i % 8 < 7, i - 7);
    reach.aside[i as usize - 8].min(capped_sum(from_left.min(from_right), take))
}

/// Adds the least of the ways to a square, from those to the squares behind it.
fn add_square(reach: &mut Reach, tariff: &Tariff, i: u8)
    requires inside { i < 64 }
    requires ahead { 16 ≤ i }
    ensures straight { reach.new.straight ≡ slice_set reach.old.straight i (min never (slice_index reach.old.straight (i - 8) + slice_index tariff.now.gate i)) }
    ensures aside { reach.new.aside ≡ slice_set reach.old.aside i (next_aside reach.old (slice_index tariff.now.take i) i) }
{
    let aside = next_aside(reach, tariff.take[i as usize], i);
    let i = i as usize;
    reach.straight[i] = capped_sum(reach.straight[i - 8], tariff.gate[i]);
    reach.aside[i] = aside;
}

/// Adds the squares of a rank to which the pawn of a home can come: those that are no more files than ranks away from it.
fn add_rank(reach: &mut Reach, side: Colour, frozen: SquareSet, tariff: &Tariff, home: u8, rank: u8)
    requires first { 8 ≤ home }
    requires last { home < 16 }
    requires ahead { 2 ≤ rank }
    requires inside { rank < 8 }
    ensures { (p : PriceList) → IsTrue (are_prices p) → IsTariff p frozen side tariff.now → IsReachTo p frozen side home reach.old (8 * rank) → IsReachTo p frozen side home reach.new (8 * rank + 8) }
{
    let left = (home - 8).saturating_sub(rank - 1);
    let right = (home - 8 + rank).min(8);
    for file in left..right {
        let i = 8 * rank + file;
        if !frozen.has(seen_by(side, i)) {
            add_square(reach, tariff, i);
        }
    }
}

/// What the ways of a pawn of this side cost at least from this home, by its number as the side sees it.
pub(crate) fn reach_from(side: Colour, frozen: SquareSet, tariff: &Tariff, home: u8) -> Reach
    requires first { 8 ≤ home }
    requires last { home < 16 }
    ensures { (p : PriceList) → IsTrue (are_prices p) → IsTariff p frozen side tariff.now → IsReach p frozen side (seen_by side home) result }
{
    let mut reach = Reach {
        straight: [NEVER; 64],
        aside: [NEVER; 64],
    };
    reach.straight[home as usize] = tariff.gate[home as usize];
    for rank in 2..8 {
        add_rank(&mut reach, side, frozen, tariff, home, rank);
    }
    reach
}

/// What the ways of each pawn of this side cost at least whose home isn't in the set, file by file as the side sees them.
pub(crate) fn reaches_of(side: Colour, frozen: SquareSet, tariff: &Tariff) -> [Reach; 8]
    ensures { (p : PriceList) → IsTrue (are_prices p) → IsTariff p frozen side tariff.now → (f : ℕ) (none : AReach) → f < 8 → is_in frozen (seen_by side (8 + f)) ≡ false → IsReach p frozen side (seen_by side (8 + f)) (slice_index_or result f none) }
{
    let nowhere = Reach {
        straight: [NEVER; 64],
        aside: [NEVER; 64],
    };
    let mut reaches = [nowhere; 8];
    for f in 0..8 {
        if !frozen.has(seen_by(side, 8 + f)) {
            reaches[f as usize] = reach_from(side, frozen, tariff, 8 + f);
        }
    }
    reaches
}
