ghost use Rattle.std.specs.Prelude.{◌<◌, ◌≤◌};

use crate::places::{place_of, place_of_gate};
use crate::stepping::{move_all, slopes, square_sum, step_for};
use crate::tallies::Tally;
use board_base::{Colour, Square};
use capture_prices::{Gate, Prices};

/// Prices that are sought, by their places.
#[derive(Clone, Copy)]
pub struct PriceRow {
    /// The price on each place, from 0 to 96.
    pub each: [u8; 96],
}

/// How many of these prices aren't 0.
fn count_paid(prices: &[u8]) -> usize {
    prices.iter().filter(|x| **x > 0).count()
}

/// Sets the least of these prices that aren't 0 to 0.
fn drop_least(prices: &mut [u8]) {
    let mut least = 255;
    for price in prices.iter() {
        if *price > 0 && *price < least {
            least = *price;
        }
    }
    for price in prices.iter_mut() {
        if *price == least {
            *price = 0;
            return;
        }
    }
}

/// The sixteen prices from a place on.
fn sixteen_from(prices: &[u8; 96], start: usize) -> [u8; 16]
    requires { start ≤ 16 }
{
    let mut all = [0; 16];
    for k in 0..16 {
        all[k] = prices[start + k];
    }
    all
}

impl PriceRow {
    /// Each capture pays one unit, and there are no gates.
    pub fn flat() -> PriceRow {
        let mut each = [0; 96];
        for k in 0..32 {
            each[k] = 24;
        }
        PriceRow { each }
    }

    /// The price for a capture by a pawn of a side on a square of this class.
    pub fn take(&self, side: Colour, class: usize) -> u8
        requires { class < 16 }
    {
        self.each[place_of(side, class)]
    }

    /// The gate on a square.
    pub fn gate(&self, s: Square) -> u8 {
        self.each[place_of_gate(s)]
    }

    /// The sum of the gates.
    pub fn gate_sum(&self) -> i32 {
        let mut sum = 0i32;
        for toll in &self.each[32..] {
            sum = sum.wrapping_add(i32::from(*toll));
        }
        sum
    }

    /// These prices; None if there are more than sixteen gates, or a price is too great.
    pub fn prices(&self) -> Option<Prices> {
        let mut gates = [Gate { square: 0, toll: 0 }; 16];
        let mut count = 0;
        for i in 0..64u8 {
            let toll = self.each[32 + i as usize];
            if toll > 0 {
                if count == 16 {
                    return None;
                }
                gates[count] = Gate { square: i, toll };
                count += 1;
            }
        }
        Prices::new(
            &sixteen_from(&self.each, 0),
            &sixteen_from(&self.each, 16),
            &gates[..count],
        )
    }

    /// Moves the prices to where the men cost more, if only by what these tallies say that they did, and they fall short of the bound by so
    /// much. At most sixteen gates stay, the greatest.
    pub fn climb(&mut self, white: &Tally, black: &Tally, shortfall: u32) {
        let slopes = slopes(white, black);
        let step = step_for(shortfall, square_sum(&self.each, &slopes));
        move_all(&mut self.each, &slopes, step);
        let gates = &mut self.each[32..];
        for _ in 16..count_paid(gates) {
            drop_least(gates);
        }
    }
}
