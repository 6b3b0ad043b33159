ghost use Rattle.std.specs.Prelude.{◌≡◌, ◌<◌, SomeIff};
ghost use Rattle.board_base.specs.Play.{behind};
ghost use Rattle.sketch_walk.specs.Walks.{may_come, origin_at, victim_at};

use board_base::{Colour, Square};
use figures::Figure;
use sketch_list::Victim;
use sketch_steps::arrives;

/// The number behind this one, as pawns of this colour go.
fn behind(colour: Colour, n: u8) -> u8
    requires { n < 128 }
    ensures { result ≡ behind colour n }
{
    match colour {
        Colour::White => n.saturating_sub(8),
        Colour::Black => n + 8,
    }
}

/// The number of the origin with this number of a pawn that came to a square.
fn origin_number(colour: Colour, t: Square, way: u8) -> u8
    ensures { result ≡ origin_at colour t way }
{
    let back = behind(colour, t.index());
    match way {
        0 => back,
        1 => behind(colour, back),
        2 => back.saturating_sub(1),
        _ => back + 1,
    }
}

/// The origin with this number of a pawn that came to a square, if it is on the board.
pub(crate) fn origin(colour: Colour, t: Square, way: u8) -> Option<Square>
    ensures { SomeIff result (origin_at colour t way < 64) (origin_at colour t way) }
{
    Square::new(origin_number(colour, t, way))
}

/// The victim with this number.
pub(crate) fn victim_at(n: u8) -> Victim
    ensures { result ≡ victim_at n }
{
    match n {
        0 => Victim::Nobody,
        1 => Victim::TakenPawn,
        2 => Victim::TakenBishop,
        3 => Victim::TakenOther,
        _ => Victim::PassedPawn,
    }
}

/// Whether the figure may stand on `t`, and a pawn that comes there may be he.
pub(crate) fn may_come(figure: &Figure, t: Square) -> bool
    ensures { result ≡ may_come figure.now t }
{
    if !figure.squares.has(t) {
        return false;
    }
    arrives(figure, t)
}
