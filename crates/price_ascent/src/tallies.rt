ghost use Rattle.std.specs.Prelude.{◌<◌};

use crate::places::{place_of, place_of_gate};
use board_base::{Colour, Square};

/// How often each price is paid, less how often it is earned: by the places of prices, the captures by pawns, the men who were taken by
/// pawns, and the pawns who never captured and trod a square.
#[derive(Clone, Copy, PartialEq, Eq)]
pub struct Tally {
    /// The number of each place.
    pub times: [i8; 96],
}

impl Default for Tally {
    fn default() -> Tally {
        Tally { times: [0; 96] }
    }
}

impl Tally {
    /// Counts a capture by a pawn of a side on a square of this class.
    pub fn count_capture(&mut self, side: Colour, class: usize)
        requires { class < 16 }
    {
        let k = place_of(side, class);
        self.times[k] = self.times[k].wrapping_add(1);
    }

    /// Counts that a man was taken by a pawn of a side on a square of this class.
    pub fn count_taken(&mut self, enemy: Colour, class: usize)
        requires { class < 16 }
    {
        let k = place_of(enemy, class);
        self.times[k] = self.times[k].wrapping_sub(1);
    }

    /// Counts that a pawn trod a square who never captured.
    pub fn count_trodden(&mut self, s: Square) {
        let k = place_of_gate(s);
        self.times[k] = self.times[k].wrapping_add(1);
    }
}
