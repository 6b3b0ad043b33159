ghost use Rattle.std.specs.Prelude.{◌≡◌, ◌+◌, ◌*◌, ◌<◌, ◌≤◌, Some, slice_get};
ghost use Rattle.play_rules.specs.Listed.{promotions};
ghost use Rattle.unmove_gen.specs.Listed.{candidates, unmoves_of};

use board_base::{Kind, Move, Square, Unmove};

/// A candidate by its parts: its target and its origin, from 0 to 63, and the places of its promotion and of its capture in their
/// orders. A target of 64 is past the last candidate.
#[derive(Clone, Copy)]
pub struct Cursor {
    pub to: u8,
    pub from: u8,
    pub promotion: u8,
    pub capture: u8,
    ghost targets: { to ≤ 64 },
    ghost origins: { from < 64 },
    ghost promotions: { promotion < 5 },
    ghost captures: { capture < 7 },
}

/// The promotion at this place of the order none, knight, bishop, rook, queen.
fn promotion_at(place: u8) -> Option<Kind>
    requires { place < 5 }
    ensures { slice_get promotions place ≡ Some result }
{
    match place {
        0 => None,
        1 => Some(Kind::Knight),
        2 => Some(Kind::Bishop),
        3 => Some(Kind::Rook),
        _ => Some(Kind::Queen),
    }
}

/// The move with the capture at this place of the order none, pawn, knight, bishop, rook, queen, en passant.
fn taking(m: &Move, place: u8) -> Unmove
    requires { place < 7 }
    ensures { slice_get (unmoves_of m.now) place ≡ Some result }
{
    let (captured, ep) = match place {
        0 => (None, false),
        1 => (Some(Kind::Pawn), false),
        2 => (Some(Kind::Knight), false),
        3 => (Some(Kind::Bishop), false),
        4 => (Some(Kind::Rook), false),
        5 => (Some(Kind::Queen), false),
        _ => (Some(Kind::Pawn), true),
    };
    Unmove {
        mv: *m,
        captured,
        ep,
    }
}

impl Cursor {
    ghost use Rattle.unmove_gen.specs.Cursors.{number_of};

    /// The first candidate.
    pub fn first() -> Cursor
        ensures { number_of result ≡ 0 }
    {
        Cursor {
            to: 0,
            from: 0,
            promotion: 0,
            capture: 0,
        }
    }

    /// Its move.
    pub fn mv(self) -> Move
        requires { self.to < 64 }
        ensures target { result.to ≡ self.to }
        ensures origin { result.from ≡ self.from }
        ensures promotion { slice_get promotions self.promotion ≡ Some result.promo }
    {
        Move {
            from: Square::known(self.from),
            to: Square::known(self.to),
            promo: promotion_at(self.promotion),
        }
    }

    /// The unmove itself.
    pub fn candidate(self) -> Unmove
        requires { self.to < 64 }
        ensures { slice_get candidates (number_of self) ≡ Some result }
    {
        taking(&self.mv(), self.capture)
    }

    /// The first candidate with a later target.
    pub fn next_target(self) -> Cursor
        requires { self.to < 64 }
        ensures { number_of result ≡ 2240 * (self.to + 1) }
    {
        Cursor {
            to: self.to + 1,
            from: 0,
            promotion: 0,
            capture: 0,
        }
    }

    /// The first candidate with a later origin or target.
    pub fn next_origin(self) -> Cursor
        requires { self.to < 64 }
        ensures { number_of result ≡ 2240 * self.to + 35 * (self.from + 1) }
    {
        if self.from < 63 {
            Cursor {
                to: self.to,
                from: self.from + 1,
                promotion: 0,
                capture: 0,
            }
        } else {
            self.next_target()
        }
    }

    /// The first candidate with a later promotion, origin or target.
    pub fn next_promotion(self) -> Cursor
        requires { self.to < 64 }
        ensures { number_of result ≡ 2240 * self.to + 35 * self.from + 7 * (self.promotion + 1) }
    {
        if self.promotion < 4 {
            Cursor {
                to: self.to,
                from: self.from,
                promotion: self.promotion + 1,
                capture: 0,
            }
        } else {
            self.next_origin()
        }
    }
}
