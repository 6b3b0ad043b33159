ghost use Rattle.std.specs.Prelude.{◌<◌};

use board_base::{Colour, Square};

/// The place of a side's price for captures on a class. Sixteen places are White's, sixteen are Black's, and the other 64 of the 96 are
/// the gates of the squares.
pub fn place_of(side: Colour, class: usize) -> usize
    requires { class < 16 }
    ensures { result < 32 }
{
    match side {
        Colour::White => class,
        Colour::Black => 16 + class,
    }
}

/// The place of the gate on a square.
pub fn place_of_gate(s: Square) -> usize
    ensures { result < 96 }
{
    32 + s.index() as usize
}

/// How often what has its price on a place is free: of the pawns that never capture one may tread each square.
pub(crate) fn free_on(place: usize) -> i32 {
    if place < 32 { 0 } else { 1 }
}
