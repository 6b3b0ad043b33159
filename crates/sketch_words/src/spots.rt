ghost use Rattle.std.specs.Prelude.{◌≡◌};
ghost use Rattle.sketch_words.specs.Phrases.{is_top};

use board_base::{Square, SquareSet};
use sketch_text::Label;
use std::marker::Model;

/// Where a node is told: what begins a line there, what the numbers of its siblings begin with, and whose men are said never to have moved.
#[derive(Drop)]
pub struct Spot {
    pub lead: Vec<u8>,
    pub prefix: Vec<u8>,
    pub known: SquareSet,
}

/// Whether the nodes below the first one are told there.
pub fn is_top(spot: &Spot) -> bool
    ensures { result ≡ is_top spot.now }
{
    spot.prefix.len() == 0
}

impl Model for Spot {
    ghost use Rattle.sketch_words.specs.Phrases.{Spot as ASpot};

    ghost Value = { ASpot };

    ghost view = { λ s. record { lead = s.lead.items; prefix = s.prefix.items; known = s.known } };
}

/// Why a step or a case can't have been.
#[derive(Clone, Copy)]
pub enum Flaw {
    /// The account is above 0.
    Unbalanced,
    /// Who stood on this square never moved, but isn't the array's man.
    Foreign(Square),
}

/// A step or a case: what leads to it, and why it can't have been, if no more is told of it.
#[derive(Clone, Copy)]
pub struct Child {
    pub label: Label,
    pub flaw: Option<Flaw>,
}
