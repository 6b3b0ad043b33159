ghost use Rattle.std.specs.Prelude.{◌≡◌, ◌↔◌, ◌≤◌, IfSome, IsTrue, MatchOption};
ghost use Rattle.capture_prices.specs.Prices.{are_prices};
ghost use Rattle.play_rules.specs.Reach.{IsWithin};
ghost use Rattle.figures.specs.Figures.{fixed_squares};
ghost use Rattle.sketch_grounds.specs.Frozen.{IsFrozenIn};
ghost use Rattle.sketch_grounds.specs.Zones.{AreZones};
ghost use Rattle.sketch_grounds.specs.Closes.{Closes, Forces};
ghost use Rattle.sketch_account.specs.Basis.{AreFew, IsAbove, IsClosedAt, IsForcedAt, basis_of, cost_on};
ghost use Rattle.sketch_account.specs.Counting.{counted_as};

use crate::grounds::{Ground, ground_of, set_prices};
use crate::tables::ground_cost;
use balance_rule::most_cost;
use board_base::{CastleSet, Colour, Odds, SquareSet};
use capture_prices::Prices;
use figures::{Sketch, is_same, is_whole};
use sketch_grounds::{Zones, greatest_frozen, zones_of};
use std::marker::Model;

/// What accounts stand on, seen as the odds, the prices, the squares of men who stay and the zones: made once, it serves each sketch that
/// has these, and it takes other prices.
#[derive(Drop)]
pub struct Scales {
    odds: Odds,
    prices: Prices,
    wall: SquareSet,
    zones: Zones,
    white: Ground,
    black: Ground,
}

impl Model for Scales {
    ghost use Rattle.board_base.specs.declared.men.Colour.TheVariants.{White, Black};
    ghost use Rattle.sketch_account.specs.Basis.{Basis};
    ghost use Rattle.sketch_account.specs.Grounds.{IsGroundOf};

    ghost Value = { Basis };

    ghost view = { λ x. record { odds = x.odds; prices = x.prices; wall = x.wall; zones = x.zones } };

    ghost invariant = { λ x. IsGroundOf x.odds x.prices x.wall x.zones White x.white × IsGroundOf x.odds x.prices x.wall x.zones Black x.black };
}

impl Scales {
    /// The scales for these.
    pub fn new(odds: Odds, prices: Prices, wall: SquareSet, zones: Zones) -> Scales
        ensures { result ≡ record { odds = odds; prices = prices; wall = wall; zones = zones } }
    {
        let white = ground_of(odds, wall, &zones, &prices, Colour::White);
        let black = ground_of(odds, wall, &zones, &prices, Colour::Black);
        Scales {
            odds,
            prices,
            wall,
            zones,
            white,
            black,
        }
    }

    /// Those of a sketch: its greatest frozen set, and its zones beside it.
    pub fn of(sketch: &Sketch, held: CastleSet, odds: Odds, prices: Prices) -> Scales
        ensures value { result ≡ basis_of odds held sketch.now prices }
        ensures frozen { IsFrozenIn held sketch.now result.wall }
        ensures fixed { IsWithin result.wall (fixed_squares sketch.now) }
        ensures zones { AreZones result.wall sketch.now result.zones }
    {
        let wall = greatest_frozen(sketch, held);
        is_whole(wall);
        Scales::new(odds, prices, wall, zones_of(sketch, wall))
    }

    /// Weighs by other prices.
    pub fn set_prices(&mut self, prices: Prices)
        ensures { self.new ≡ record self.old { prices = prices } }
    {
        set_prices(&mut self.white, &prices);
        set_prices(&mut self.black, &prices);
        self.prices = prices;
    }

    /// Whether they are for these squares of men who stay and these zones.
    pub fn serves(&self, wall: SquareSet, zones: &Zones) -> bool
        ensures { IsTrue result ↔ ((self.now.wall ≡ wall) × (self.now.zones ≡ zones.now)) }
    {
        is_same(self.wall, wall) && self.zones.is_same(zones)
    }

    /// What the figures of a side and its men who are gone cost at least with homes of their own, 96 for each man included; None if and only if
    /// it has more figures than the array has men. A mark is counted as what it says, and against the figure with this number, as
    /// what isn't so.
    pub fn side_cost(&self, sketch: &Sketch, against: Option<usize>, side: Colour) -> Option<u32>
        ensures small { IfSome result (λ cost. cost ≤ 80_000) }
        ensures value { MatchOption result (AreFew self.now (counted_as against sketch.now) side → ⊥) (λ cost. AreFew self.now (counted_as against sketch.now) side × (cost ≡ cost_on self.now (counted_as against sketch.now) side)) }
    {
        match side {
            Colour::White => ground_cost(self.odds, &self.white, sketch, against),
            Colour::Black => ground_cost(self.odds, &self.black, sketch, against),
        }
    }

    /// Whether the figures cost more than their true homes can; never if a side has more figures than the array has men.
    pub fn weigh(&self, sketch: &Sketch, against: Option<usize>) -> bool
        ensures above { IsTrue result ↔ IsAbove self.now (counted_as against sketch.now) }
        ensures known { IsTrue (are_prices self.now.prices) }
    {
        let most = most_cost(self.odds, &self.prices);
        let Some(white) = self.side_cost(sketch, against, Colour::White) else {
            return false;
        };
        let Some(black) = self.side_cost(sketch, against, Colour::Black) else {
            return false;
        };
        most < white + black
    }
}

/// Whether the sketch's account at these prices is above 0: beside its greatest frozen set and its zones of exactly two squares the figures
/// cost more than their true homes can. Then an account closes it.
pub fn closes(sketch: &Sketch, held: CastleSet, odds: Odds, prices: &Prices) -> bool
    ensures exact { IsTrue result ↔ IsClosedAt odds held sketch.now prices.now }
    ensures sound { IsTrue result → Closes odds held sketch.now }
{
    let scales = Scales::of(sketch, held, odds, *prices);
    scales.weigh(sketch, None)
}

/// Whether it is if what a mark would say of the figure with this number is false: he was promoted if he is an officer, or captured if he
/// is a pawn. Then an account forces the mark.
pub fn forces(sketch: &Sketch, i: usize, held: CastleSet, odds: Odds, prices: &Prices) -> bool
    ensures exact { IsTrue result ↔ IsForcedAt odds held i sketch.now prices.now }
    ensures sound { IsTrue result → Forces odds held i sketch.now }
{
    let scales = Scales::of(sketch, held, odds, *prices);
    scales.weigh(sketch, Some(i))
}
