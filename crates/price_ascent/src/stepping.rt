use crate::places::free_on;
use crate::tallies::Tally;

/// What stands for one capture in the beginning.
pub(crate) const UNIT: i32 = 24;

/// The greatest price.
const MOST: i32 = 96;

/// By how much each price is paid more often than it is earned and is free, by the tallies of both sides.
pub fn slopes(white: &Tally, black: &Tally) -> [i32; 96] {
    let mut all = [0; 96];
    for k in 0..96 {
        all[k] = i32::from(white.times[k])
            .wrapping_add(i32::from(black.times[k]))
            .wrapping_sub(free_on(k));
    }
    all
}

/// The sum of the squares of the slopes along which a price can move.
pub(crate) fn square_sum(prices: &[u8], slopes: &[i32]) -> i32 {
    let mut sum = 0i32;
    for (price, slope) in prices.iter().zip(slopes) {
        if *price > 0 || *slope > 0 {
            sum = sum.wrapping_add(slope.wrapping_mul(*slope));
        }
    }
    sum
}

/// How far to move, if the men fall short of the bound by so much and the slopes have this sum of squares.
pub(crate) fn step_for(shortfall: u32, squares: i32) -> i32 {
    if squares <= 0 {
        return 1;
    }
    let step = shortfall.saturating_add(12) / squares as u32;
    if step == 0 {
        1
    } else if step >= 24 {
        UNIT
    } else {
        step as i32
    }
}

/// The price, moved so often along its slope, but not below 0 or above the greatest price.
fn moved(price: u8, slope: i32, step: i32) -> u8 {
    let x = i32::from(price).wrapping_add(slope.wrapping_mul(step));
    if x <= 0 {
        0
    } else if x >= MOST {
        96
    } else {
        x as u8
    }
}

/// Moves each price along its slope.
pub(crate) fn move_all(prices: &mut [u8], slopes: &[i32], step: i32) {
    for (price, slope) in prices.iter_mut().zip(slopes) {
        *price = moved(*price, *slope, step);
    }
}
