use balance_rule::seen_by;
use board_base::{Colour, Square};

/// The square that has this number, from 0 to 63, as a side sees the board.
pub(crate) fn square_at(side: Colour, number: usize) -> Square {
    seen_by(side, (number % 64) as u8)
}

/// The squares of a set by their numbers as a side sees the board, or the set of these numbers.
pub(crate) fn turned_set(side: Colour, set: u64) -> u64 {
    match side {
        Colour::White => set,
        Colour::Black => reversed(set),
    }
}

/// The bits in the other order.
fn reversed(set: u64) -> u64 {
    let ones = (set & 0x5555_5555_5555_5555) << 1 | (set >> 1 & 0x5555_5555_5555_5555);
    let twos = (ones & 0x3333_3333_3333_3333) << 2 | (ones >> 2 & 0x3333_3333_3333_3333);
    let fours = (twos & 0x0f0f_0f0f_0f0f_0f0f) << 4 | (twos >> 4 & 0x0f0f_0f0f_0f0f_0f0f);
    fours.swap_bytes()
}
