ghost use Rattle.std.specs.Prelude.{◌≡◌, ◌<◌, ◌+◌, IsTrue, SomeIff};
ghost use Rattle.std.specs.List.{list_all};
ghost use Rattle.capture_prices.specs.Prices.{are_ascending, are_prices, is_low, priced, takes};

use board_base::Colour;
use std::marker::Model;

/// What a pawn that never captures pays where it treads a square.
#[derive(Clone, Copy, Default, PartialEq, Eq, Debug)]
pub struct Gate {
    /// The number of the square, from 0 for a1 to 63 for h8.
    pub square: u8,
    /// What is paid.
    pub toll: u8,
}

/// Prices of captures by pawns, and gates. Contracts see them as lists: what White's pawns and what Black's pay for a capture on each
/// class of squares, sixteen numbers each from 0 to 96, and at most sixteen gates, of 1 to 96, in ascending order of their squares.
#[derive(Clone, Copy, PartialEq, Eq, Debug)]
pub struct Prices {
    white: [u8; 16],
    black: [u8; 16],
    /// The gates come first, and gates of no toll on a1 fill the rest.
    places: [Gate; 16],
    count: u8,
}

impl Model for Prices {
    ghost use Rattle.capture_prices.specs.Prices.{PriceList};

    ghost Value = { PriceList };

    ghost use Rattle.capture_prices.specs.StoredPrices.{seen, stored, IsStored, stored-seen};

    ghost view = { seen };

    ghost invariant = { IsStored };

    ghost inverse = { stored };

    ghost inverse_ok = { stored-seen };
}

/// Whether each number is at most 96.
fn are_low(numbers: &[u8]) -> bool
    ensures { result ≡ list_all is_low numbers.now }
{
    numbers.iter().all(|&x| x <= 96)
}

/// Whether the gates stand on squares of the board in ascending order, each with a toll from 1 to 96.
fn are_gates(gates: &[Gate]) -> bool
    ensures { result ≡ are_ascending 0 gates.now }
{
    let mut least = 0;
    for gate in gates {
        if gate.square < least || 64 <= gate.square || gate.toll == 0 || 96 < gate.toll {
            return false;
        }
        least = gate.square + 1;
    }
    true
}

impl Prices {
    /// The prices with these numbers; None if and only if a number is above 96, more than sixteen gates are given, or they don't stand
    /// on squares of the board in ascending order, each with a toll from 1 to 96.
    pub fn new(white: &[u8; 16], black: &[u8; 16], gates: &[Gate]) -> Option<Prices>
        ensures { SomeIff result (IsTrue (are_prices (priced white.now black.now gates.now))) (priced white.now black.now gates.now) }
    {
        if are_low(white) && are_low(black) && gates.len() <= 16 && are_gates(gates) {
            Some(Prices::known(white, black, gates))
        } else {
            None
        }
    }

    /// The prices with these numbers, which the caller knows to be prices.
    pub fn known(white: &[u8; 16], black: &[u8; 16], gates: &[Gate]) -> Prices
        requires { IsTrue (are_prices (priced white.now black.now gates.now)) }
        ensures { result ≡ priced white.now black.now gates.now }
    {
        let mut places = [Gate { square: 0, toll: 0 }; 16];
        places[..gates.len()].copy_from_slice(gates);
        Prices {
            white: *white,
            black: *black,
            places,
            count: gates.len() as u8,
        }
    }

    /// What the side's pawns pay for a capture on each class of squares.
    pub fn takes(&self, side: Colour) -> &[u8; 16]
        ensures value { result.now ≡ takes self.now side }
        ensures range { IsTrue (are_prices self.now) }
    {
        match side {
            Colour::White => &self.white,
            Colour::Black => &self.black,
        }
    }

    /// The gates, in ascending order of their squares.
    pub fn gates(&self) -> &[Gate]
        ensures value { result.now ≡ self.now.gates }
        ensures range { IsTrue (are_prices self.now) }
    {
        &self.places[..self.count as usize]
    }
}
