ghost use Rattle.std.specs.Prelude.{◌≡◌, ◌<◌, ◌==◌, ◌||◌, ◌&&◌, ℕ, not};
ghost use Rattle.std.specs.List.{list_all};
ghost use Rattle.board_base.specs.Board.{is_in, same_colour};
ghost use Rattle.board_base.specs.Play.{king_home, rook_home};
ghost use Rattle.board_base.specs.Rights.{holds};
ghost use Rattle.figures.specs.Frozen.{is_held_home};
ghost use Rattle.figures.specs.Touching.{kings_of, touched_squares, touches};
ghost use Rattle.sketch_sets.specs.Grounds.{is_king_there, touched_by};

use crate::pieces::attackers;
use crate::unions::{over_figures, over_kinds};
use board_base::{Castle, CastleSet, Colour, Kind, Square, SquareSet};
use castle_history::home;
use figures::{Figure, Sketch, is_whole, only_on, outside};

/// Whether the colours are equal.
pub(crate) fn is_same_colour(a: Colour, b: Colour) -> bool
    ensures { result ≡ same_colour a b }
{
    a == b
}

/// The squares that a man of this colour and kind on `q` doesn't touch.
fn not_touched(colour: Colour, kind: Kind, q: Square) -> SquareSet
    ensures { (s : ℕ) → s < 64 → is_in result s ≡ not (touches colour kind q s) }
{
    let none = SquareSet::from_bits(0);
    outside(attackers(colour.other(), kind, only_on(q), none, 1))
}

/// The squares that the figure on `q` touches, whatever kind he has.
fn touched_on(figure: &Figure, q: Square) -> SquareSet
    ensures { (s : ℕ) → s < 64 → is_in result s ≡ list_all (λ k. touches figure.now.colour k q s) figure.now.kinds }
{
    let colour = figure.colour;
    let left = over_kinds(figure.kinds, |kind| not_touched(colour, kind, q));
    outside(left)
}

/// The squares that the figure surely touches, if he has this colour.
fn touched_by(colour: Colour, figure: Figure) -> SquareSet
    ensures { (s : ℕ) → s < 64 → is_in result s ≡ touched_by colour s figure }
{
    if !is_same_colour(colour, figure.colour) {
        return SquareSet::from_bits(0);
    }
    match figure.fixed_square() {
        Some(q) => touched_on(&figure, q),
        None => SquareSet::from_bits(0),
    }
}

/// The square of the figure, if he is a king of this colour and fixed.
fn king_square(colour: Colour, figure: Figure) -> SquareSet
    ensures { (q : ℕ) → q < 64 → is_in result q ≡ is_king_there colour q figure }
{
    let king = figure.kinds.is_only(Kind::King);
    if !(is_same_colour(colour, figure.colour) & king) {
        return SquareSet::from_bits(0);
    }
    match figure.fixed_square() {
        Some(s) => only_on(s),
        None => SquareSet::from_bits(0),
    }
}

/// The squares that fixed figures of this colour touch.
pub(crate) fn touched_squares(sketch: &Sketch, colour: Colour) -> SquareSet
    ensures { result ≡ touched_squares sketch.now colour }
{
    let touched = over_figures(sketch, |figure| touched_by(colour, figure));
    is_whole(touched);
    touched
}

/// The squares on which kings of this colour are fixed.
pub(crate) fn kings_of(sketch: &Sketch, colour: Colour) -> SquareSet
    ensures { result ≡ kings_of sketch.now colour }
{
    let kings = over_figures(sketch, |figure| king_square(colour, figure));
    is_whole(kings);
    kings
}

/// Whether the king or the rook of the castling begins on the square.
fn is_home(castle: Castle, s: Square) -> bool
    ensures { result ≡ ((king_home castle == s) || (rook_home castle == s)) }
{
    let (king, rook) = home(castle);
    (king.index() == s.index()) | (rook.index() == s.index())
}

/// Whether the right is held, and its king or its rook begins on the square.
fn is_held_as(held: CastleSet, castle: Castle, s: Square) -> bool
    ensures { result ≡ (holds held castle && ((king_home castle == s) || (rook_home castle == s))) }
{
    held.has(castle) & is_home(castle, s)
}

/// Whether the square is the home of a right that is held.
pub(crate) fn is_held_home(held: CastleSet, s: Square) -> bool
    ensures { result ≡ is_held_home held s }
{
    let white = is_held_as(held, Castle::WhiteShort, s) | is_held_as(held, Castle::WhiteLong, s);
    let black = is_held_as(held, Castle::BlackShort, s) | is_held_as(held, Castle::BlackLong, s);
    white | black
}
