ghost use Rattle.std.specs.Prelude.{◌≡◌, ◌↔◌, IsTrue, []};

use arrayvec::ArrayVec;
use board_base::SquareSet;
use std::marker::Model;

/// A zone of a pawn, seen as the set of its squares.
#[derive(Clone, Copy, PartialEq, Eq)]
pub struct Zone {
    squares: SquareSet,
}

impl Model for Zone {
    ghost use Rattle.std.specs.Prelude.{List, Bool};

    ghost Value = { List Bool };

    ghost view = { λ z. z.squares };

    ghost inverse = { λ set. record { squares = set } };
}

impl Default for Zone {
    fn default() -> Zone {
        Zone {
            squares: SquareSet::from_bits(0),
        }
    }
}

impl Zone {
    /// The zone of these squares.
    pub(crate) fn new(squares: SquareSet) -> Zone
        ensures { result ≡ squares }
    {
        Zone { squares }
    }

    /// Its squares.
    pub(crate) fn squares(&self) -> SquareSet
        ensures { result ≡ self.now }
    {
        self.squares
    }
}

/// Zones of pawns that have more than one square each, seen as the list of them. Who goes by one step from one square to another leaves a
/// zone a square unless these are all that it has.
#[derive(Drop)]
pub struct Zones {
    pub(crate) sets: ArrayVec<Zone, 32>,
    /// The squares of all zones.
    pub(crate) squares: SquareSet,
}

impl Model for Zones {
    ghost use Rattle.std.specs.Prelude.{List, Bool};
    ghost use Rattle.sketch_grounds.specs.Wide.{AreWide};

    ghost Value = { List (List Bool) };

    ghost view = { λ z. z.sets.items };

    ghost invariant = { λ z. AreWide z.sets.items z.squares };
}

impl Zones {
    /// Whether there is no zone.
    pub fn is_empty(&self) -> bool
        ensures { IsTrue result ↔ (self.now ≡ []) }
    {
        self.sets.len() == 0
    }

    /// The same zones.
    pub fn copied(&self) -> Zones
        ensures { result ≡ self.now }
    {
        match ArrayVec::try_from(self.sets.as_slice()) {
            Ok(sets) => Zones {
                sets,
                squares: self.squares,
            },
            Err(_) => unreachable!(),
        }
    }

    /// Whether these are the same zones.
    pub fn is_same(&self, other: &Zones) -> bool
        ensures { IsTrue result ↔ (self.now ≡ other.now) }
    {
        self.sets.as_slice() == other.sets.as_slice()
    }
}
