ghost use Rattle.std.specs.Prelude.{◌≡◌, ◌↔◌, ◌<◌, ◌++◌, ◌∷◌, [], IsTrue, MatchOption, false, length, slice_get};
ghost use Rattle.std.specs.List.{Contains};
ghost use Rattle.capture_prices.specs.Prices.{PriceList, are_prices};
ghost use Rattle.sketch_checker.specs.Steering.{IsLineAt};

use arrayvec::ArrayVec;
use board_base::{CastleSet, Odds};
use capture_prices::Prices;
use std::marker::Model;

/// A line of prices.
#[derive(Clone, Copy)]
struct PriceLine {
    prices: Prices,
}

impl Model for PriceLine {
    ghost use Rattle.capture_prices.specs.Prices.{PriceList};

    ghost Value = { PriceList };

    ghost view = { λ l. l.prices };

    ghost inverse = { λ p. record { prices = p } };
}

impl Default for PriceLine {
    /// What stands in the unused places of an array of lines.
    fn default() -> PriceLine {
        PriceLine {
            prices: Prices::known(&[0; 16], &[0; 16], &[]),
        }
    }
}

/// Tells the caller that each of these is a line of prices.
fn are_known(lines: &[PriceLine])
    ensures { (p : PriceList) → Contains lines.now p → IsTrue (are_prices p) }
{
    for line in lines {
        let _ = line.prices.gates();
    }
}

/// The line with this number, counted from 0.
fn line_at(lines: &[PriceLine], i: usize) -> Option<Prices>
    ensures { result ≡ slice_get lines.now i }
{
    if i < lines.len() {
        let line = lines[i];
        Some(line.prices)
    } else {
        None
    }
}

/// What a proof of a sketch rests on: the odds, the rights that are held, the exact files, on which pawns' moves are taken back one by one,
/// and at most 64 lines of prices.
#[derive(Drop)]
pub struct SketchSetting {
    pub(crate) odds: Odds,
    pub(crate) held: CastleSet,
    pub(crate) exact: [bool; 8],
    prices: ArrayVec<PriceLine, 64>,
}

impl Model for SketchSetting {
    ghost use Rattle.sketch_proof.specs.Proofs.{Setting};

    ghost Value = { Setting };

    ghost view = { λ s. record { odds = s.odds; held = s.held; exact = s.exact; prices = s.prices.items } };
}

impl SketchSetting {
    /// No line of prices yet.
    pub fn new(odds: Odds, held: CastleSet, exact: [bool; 8]) -> SketchSetting
        ensures { result ≡ record { odds = odds; held = held; exact = exact; prices = [] } }
    {
        SketchSetting {
            odds,
            held,
            exact,
            prices: ArrayVec::new(),
        }
    }

    /// Takes these odds, rights and exact files in place of its own, and no line of prices.
    pub(crate) fn reset(&mut self, odds: Odds, held: CastleSet, exact: [bool; 8])
        ensures { self.new ≡ record { odds = odds; held = held; exact = exact; prices = [] } }
    {
        self.odds = odds;
        self.held = held;
        self.exact = exact;
        self.prices.clear();
    }

    /// Puts a line of prices behind the others. False if and only if there are 64 already.
    pub fn add_prices(&mut self, prices: &Prices) -> bool
        ensures room { IsTrue result ↔ (length self.old.prices < 64) }
        ensures added { IsTrue result → self.new ≡ record self.old { prices = self.old.prices ++ prices.now ∷ [] } }
        ensures full { result ≡ false → self.new ≡ self.old }
    {
        if self.prices.is_full() {
            return false;
        }
        self.prices.push(PriceLine { prices: *prices });
        true
    }

    /// Tells the caller that each line of prices is one.
    pub(crate) fn are_known(&self)
        ensures { (p : PriceList) → Contains self.now.prices p → IsTrue (are_prices p) }
    {
        let lines = self.prices.as_slice();
        are_known(lines);
    }

    /// The line of prices with this number, counted from 1.
    pub(crate) fn prices_at(&self, number: u8) -> Option<Prices>
        ensures { MatchOption result ((p : PriceList) → IsLineAt self.now number p → ⊥) (λ p. IsLineAt self.now number p) }
    {
        let lines = self.prices.as_slice();
        if number == 0 {
            return None;
        }
        line_at(lines, number as usize - 1)
    }
}
