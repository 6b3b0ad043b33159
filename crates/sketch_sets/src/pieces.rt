ghost use Rattle.std.specs.Prelude.{◌≡◌, ◌<◌, ◌&&◌, ◌==◌, ℕ};
ghost use Rattle.board_base.specs.Board.{is_in, rank};
ghost use Rattle.board_base.specs.Legal.{pawn_rank};
ghost use Rattle.figures.specs.Frozen.{is_past_home};
ghost use Rattle.sketch_sets.specs.Shifts.{attacks_past, forward, hops, strikes, turns};
ghost use Rattle.sketch_sets.specs.Quiet.{pawn_past};
ghost use Rattle.sketch_sets.specs.Tests.{some_that};

use crate::shifts::{diagonal_rays, shifted, straight_rays};
use board_base::{Change, Colour, Direction, Kind, SquareSet};
use figures::{both, either, outside};

/// The squares from which a step in the first direction, and then one in the second or the third, come to the set.
fn turned(straight: Direction, left: Direction, right: Direction, to: SquareSet) -> SquareSet
    ensures { (e : ℕ) → e < 64 → is_in result e ≡ turns straight left right to e }
{
    shifted(straight, either(shifted(left, to), shifted(right, to)))
}

/// The squares from which a knight comes to the set (article 3.6).
fn knight_hops(to: SquareSet) -> SquareSet
    ensures { (e : ℕ) → e < 64 → is_in result e ≡ some_that to (hops e) }
{
    let [falls, stays, rises] = [Change::Falls, Change::Stays, Change::Rises];
    let down_left = Direction::new(falls, falls);
    let down_right = Direction::new(falls, rises);
    let up_left = Direction::new(rises, falls);
    let up_right = Direction::new(rises, rises);
    let down = turned(Direction::new(falls, stays), down_left, down_right, to);
    let left = turned(Direction::new(stays, falls), down_left, up_left, to);
    let right = turned(Direction::new(stays, rises), down_right, up_right, to);
    let up = turned(Direction::new(rises, stays), up_left, up_right, to);
    either(either(down, left), either(right, up))
}

/// How the rank changes as pawns of this colour go.
fn forward(colour: Colour) -> Change
    ensures { result ≡ forward colour }
{
    match colour {
        Colour::White => Change::Rises,
        Colour::Black => Change::Falls,
    }
}

/// The squares from which pawns of this colour capture on the set (article 3.7.3).
fn pawn_strikes(colour: Colour, to: SquareSet) -> SquareSet
    ensures { (e : ℕ) → e < 64 → is_in result e ≡ some_that to (strikes colour e) }
{
    let ahead = forward(colour);
    let left = shifted(Direction::new(ahead, Change::Falls), to);
    let right = shifted(Direction::new(ahead, Change::Rises), to);
    either(left, right)
}

/// The squares from which a man of this colour and kind attacks one of the set: along lines by at most so many steps, none but the last to
/// a square of `fixed`.
pub(crate) fn attackers(
    colour: Colour,
    kind: Kind,
    to: SquareSet,
    fixed: SquareSet,
    steps: u8,
) -> SquareSet
    ensures { (e : ℕ) → e < 64 → is_in result e ≡ some_that to (attacks_past kind colour fixed steps e) }
{
    match kind {
        Kind::Pawn => pawn_strikes(colour, to),
        Kind::Knight => knight_hops(to),
        Kind::Bishop => diagonal_rays(to, fixed, steps),
        Kind::Rook => straight_rays(to, fixed, steps),
        Kind::Queen => either(
            straight_rays(to, fixed, steps),
            diagonal_rays(to, fixed, steps),
        ),
        Kind::King => either(straight_rays(to, fixed, 1), diagonal_rays(to, fixed, 1)),
    }
}

/// The squares to which pawns of this colour move straight on, and the rank on which they begin.
fn pawn_squares(colour: Colour) -> (SquareSet, SquareSet)
    ensures past { (s : ℕ) → s < 64 → is_in result.0 s ≡ is_past_home colour s }
    ensures first { (s : ℕ) → s < 64 → is_in result.1 s ≡ (rank s == pawn_rank colour) }
{
    match colour {
        Colour::White => (
            SquareSet::from_bits(0x00ff_ffff_ffff_0000),
            SquareSet::from_bits(0xff00),
        ),
        Colour::Black => (
            SquareSet::from_bits(0x0000_ffff_ffff_ff00),
            SquareSet::from_bits(0x00ff_0000_0000_0000),
        ),
    }
}

/// The squares from which pawns of this colour move to one of the set: one step, or two from where they begin, over no square of `fixed`.
pub(crate) fn pawn_movers(colour: Colour, to: SquareSet, fixed: SquareSet) -> SquareSet
    ensures { (e : ℕ) → e < 64 → is_in result e ≡ some_that to (λ s. is_past_home colour s && pawn_past fixed colour e s) }
{
    let ahead = Direction::new(forward(colour), Change::Stays);
    let (past, first) = pawn_squares(colour);
    let one = shifted(ahead, both(to, past));
    let two = shifted(ahead, both(one, outside(fixed)));
    either(one, both(two, first))
}
