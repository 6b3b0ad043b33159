ghost use Rattle.std.specs.Prelude.{◌≡◌, ◌↔◌, ◌<◌, ◌&&◌, ◌||◌, ◌==◌, ℕ, Bool, IsTrue, List, length};
ghost use Rattle.board_base.specs.Board.{is_in};
ghost use Rattle.board_base.specs.Play.{king_home, rook_home};
ghost use Rattle.board_base.specs.Rights.{holds};
ghost use Rattle.play_rules.specs.Reach.{IsWithin};
ghost use Rattle.cage_rules.specs.Frozen.{is_held_home};
ghost use Rattle.cage_rules.specs.Sets.{squares_that};
ghost use Rattle.figures.specs.Figures.{is_fixed_on, may_be};
ghost use Rattle.past_account.specs.Frozen.{IsFrozenIn, enters_as, figure_enters};
ghost use Rattle.sketch_grounds.specs.FrozenSets.{greatest_frozen};
ghost use Rattle.sketch_grounds.specs.Pins.{ArePins, IsPin, covers, kept};

use crate::entries::entries_as;
use crate::sets::{both, none, outside};
use arrayvec::ArrayVec;
use board_base::{Castle, CastleSet, Kind, Square, SquareSet};
use castle_history::home;
use figures::{Figure, Sketch, either, is_same, is_whole};

/// A fixed figure: his square, whether that is a home of a right that is held, and the squares by which he may have come there.
#[derive(Clone, Copy)]
pub(crate) struct Pin {
    pub(crate) square: Square,
    pub(crate) held: bool,
    pub(crate) entries: SquareSet,
}

impl Default for Pin {
    fn default() -> Pin {
        Pin {
            square: Square::known(0),
            held: false,
            entries: none(),
        }
    }
}

/// Whether the castling's right is held, and its king or its rook has its home there.
fn is_home_of(held: CastleSet, castle: Castle, s: Square) -> bool
    ensures { result ≡ (holds held castle && ((king_home castle == s) || (rook_home castle == s))) }
{
    let (king, rook) = home(castle);
    held.has(castle) && (king.index() == s.index() || rook.index() == s.index())
}

/// Whether the king or the rook of a castling whose right is held has its home there.
fn is_held_home(held: CastleSet, s: Square) -> bool
    ensures { result ≡ is_held_home held s }
{
    is_home_of(held, Castle::WhiteShort, s)
        || is_home_of(held, Castle::WhiteLong, s)
        || is_home_of(held, Castle::BlackShort, s)
        || is_home_of(held, Castle::BlackLong, s)
}

/// The squares by which the figure's man may have come to `s`, if he may be of this kind.
fn entries_if(figure: &Figure, kind: Kind, s: Square) -> SquareSet
    ensures { result ≡ squares_that (λ t. may_be figure.now kind && enters_as figure.now.marked figure.now.colour kind s t) }
{
    if figure.may_be(kind) {
        entries_as(figure.marked, figure.colour, kind, s)
    } else {
        none()
    }
}

/// The squares by which the figure's man may have come to `s`.
pub(crate) fn entries_of(figure: &Figure, s: Square) -> SquareSet
    ensures { result ≡ squares_that (figure_enters figure.now s) }
{
    let heavy = either(
        entries_if(figure, Kind::Rook, s),
        either(
            entries_if(figure, Kind::Queen, s),
            entries_if(figure, Kind::King, s),
        ),
    );
    let light = either(
        entries_if(figure, Kind::Knight, s),
        entries_if(figure, Kind::Bishop, s),
    );
    either(entries_if(figure, Kind::Pawn, s), either(light, heavy))
}

/// The figure, fixed on this square.
fn pin_of(held: CastleSet, figure: &Figure, s: Square) -> Pin
    requires { IsTrue (is_fixed_on s figure.now) }
    ensures { IsPin held figure.now result }
{
    Pin {
        square: s,
        held: is_held_home(held, s),
        entries: entries_of(figure, s),
    }
}

/// The fixed figures.
fn pins_of(sketch: &Sketch, held: CastleSet) -> ArrayVec<Pin, 32>
    ensures { ArePins held sketch.now result.items }
{
    let mut pins: ArrayVec<Pin, 32> = ArrayVec::new();
    for figure in sketch.figures() {
        match figure.fixed_square() {
            Some(s) => pins.push(pin_of(held, figure, s)),
            None => {}
        }
    }
    pins
}

/// Whether all of these squares are in the set.
fn covers(set: SquareSet, squares: SquareSet) -> bool
    ensures { result ≡ covers set squares }
{
    both(squares, outside(set)).next_from(0) == 64
}

/// Whether the figure is on a square of the set, and can't have come there while the others stood.
fn stays(pin: &Pin, set: SquareSet) -> bool
    ensures { result ≡ (is_in set pin.now.square && (pin.now.held || covers set pin.now.entries)) }
{
    set.has(pin.square) && (pin.held || covers(set, pin.entries))
}

/// The squares of the set whose figures can't have come there while the others stood.
fn kept(pins: &[Pin], set: SquareSet) -> SquareSet
    ensures { result ≡ kept pins.now set }
{
    is_whole(set);
    let mut left = none();
    for pin in pins {
        if stays(pin, set) {
            left = left.with(pin.square);
        }
    }
    left
}

/// The greatest frozen set of a sketch: each of its squares has a fixed figure who can't have come there while the others stood, or whose
/// home it is in a right that is held; and it has each set of which that is true.
pub fn greatest_frozen(sketch: &Sketch, held: CastleSet) -> SquareSet
    ensures value { result ≡ greatest_frozen held sketch.now }
    ensures frozen { IsFrozenIn held sketch.now result }
    ensures greatest { (set : List Bool) → IsFrozenIn held sketch.now set → IsWithin set result }
{
    let pins = pins_of(sketch, held);
    let mut set = SquareSet::from_bits(u64::MAX);
    'rounds: loop {
        let left = kept(pins.as_slice(), set);
        if is_same(left, set) {
            return set;
        }
        set = left;
    }
}
