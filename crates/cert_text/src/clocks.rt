ghost use Rattle.std.specs.Prelude.{◌≡◌, ◌≤◌};
ghost use Rattle.query_base.specs.Asked.{IsShortClock};

use std::marker::Model;

/// What a line says that the half-move clock must be, seen as this number. It is from 0 to 9,999: every value of this type keeps that.
#[derive(Clone, Copy, PartialEq, Eq, Debug)]
pub struct Clock {
    moves: u16,
}

impl Model for Clock {
    ghost use Rattle.std.specs.Prelude.{ℕ, ◌≤◌};

    ghost Value = { ℕ };

    ghost view = { λ clock. clock.moves };

    ghost invariant = { λ clock. clock.moves ≤ 9999 };

    ghost inverse = { λ n. record { moves = n } };
}

impl Clock {
    /// The clock of this number, which the caller knows to be at most 9,999.
    pub(crate) fn known(moves: u16) -> Clock
        requires { moves ≤ 9_999 }
        ensures { result ≡ moves }
    {
        Clock { moves }
    }

    /// The number of moves, from 0 to 9,999.
    pub fn moves(self) -> u16
        ensures number { result ≡ self }
        ensures short { result ≤ 9_999 }
    {
        self.moves
    }
}

/// The number of the clock, if there is one.
pub(crate) fn moves_of(clock: Option<Clock>) -> Option<u16>
    ensures number { result ≡ clock }
    ensures short { IsShortClock result }
{
    match clock {
        Some(clock) => Some(clock.moves()),
        None => None,
    }
}
