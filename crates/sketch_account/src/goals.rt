ghost use Rattle.std.specs.Prelude.{◌≡◌, ◌+◌, ◌<◌, ◌&&◌, ◌==◌, ℕ, Bool, List, not};
ghost use Rattle.std.specs.List.{list_any, range_with_len};
ghost use Rattle.board_base.specs.Board.{is_in, rank};
ghost use Rattle.board_base.specs.Legal.{last_rank};
ghost use Rattle.board_base.specs.declared.men.Kind.TheVariants.{Pawn};
ghost use Rattle.capture_prices.specs.Prices.{PriceList};
ghost use Rattle.balance_rule.specs.LeastWays.{seen_by};
ghost use Rattle.sketch_grounds.specs.Zones.{Room};
ghost use Rattle.figures.specs.Figures.{may_be};
ghost use Rattle.sketch_account.specs.Coming.{is_free, is_goal, is_promoted};
ghost use Rattle.sketch_account.specs.Grounds.{IsGround};

use crate::grounds::Ground;
use balance_rule::seen_by;
use board_base::{Colour, Kind, Square, SquareSet};
use figures::{Figure, both, is_whole, outside};

/// The squares of rank 1, and those of rank 8.
const FIRST: u64 = 0xff;

const LAST: u64 = 0xff00_0000_0000_0000;

/// The squares on which pawns of this colour are promoted.
fn last_squares(side: Colour) -> SquareSet
    ensures { (s : ℕ) → s < 64 → is_in result s ≡ (rank s == last_rank side) }
{
    match side {
        Colour::White => SquareSet::from_bits(LAST),
        Colour::Black => SquareSet::from_bits(FIRST),
    }
}

/// Where the figure may stand off the wall.
pub(crate) fn free_squares(wall: SquareSet, figure: &Figure) -> SquareSet
    ensures { (s : ℕ) → s < 64 → is_in result s ≡ is_free wall figure.now s }
{
    both(figure.squares, outside(wall))
}

/// Whether the sets have a square in common.
pub(crate) fn meets(a: SquareSet, b: SquareSet) -> bool
    ensures { result ≡ list_any (λ s. is_in a s && is_in b s) (range_with_len 0 64) }
{
    both(a, b).next_from(0) < 64
}

/// Whether the figure may be of this kind, and the room has one of these squares.
fn comes_as(figure: &Figure, kind: Kind, free: SquareSet, room: SquareSet) -> bool
    ensures { result ≡ (may_be figure.now kind && list_any (λ s. is_in free s && is_in room s) (range_with_len 0 64)) }
{
    figure.may_be(kind) && meets(free, room)
}

/// Whether the figure may be an officer who was promoted on this file.
fn is_promoted(ground: &Ground, figure: &Figure, free: SquareSet, f: u8) -> bool
    requires { f < 8 }
    ensures { (o : List Bool) (p : PriceList) (R : Room) → IsGround o p R ground.now → ((s : ℕ) → s < 64 → is_in free s ≡ is_free ground.now.base.frozen figure.now s) → result ≡ is_promoted R ground.now.base.side ground.now.base.frozen figure.now (seen_by ground.now.base.side (56 + f)) }
{
    let i = f as usize;
    let knight = comes_as(figure, Kind::Knight, free, ground.knights[i]);
    let bishop = comes_as(figure, Kind::Bishop, free, ground.bishops[i]);
    let rook = comes_as(figure, Kind::Rook, free, ground.rooks[i]);
    let queen = comes_as(figure, Kind::Queen, free, ground.queens[i]);
    (knight | bishop) | (rook | queen)
}

/// Where the figure may stand as a pawn, off the wall and short of the last rank.
fn pawn_goals(side: Colour, figure: &Figure, free: SquareSet) -> SquareSet
    ensures { (s : ℕ) → s < 64 → is_in result s ≡ (may_be figure.now Pawn && is_in free s && not (rank s == last_rank side)) }
{
    if figure.may_be(Kind::Pawn) {
        both(free, outside(last_squares(side)))
    } else {
        SquareSet::from_bits(0)
    }
}

/// Where the way of the figure's man may have ended, if he began as a pawn: where he stands, or was promoted.
pub(crate) fn goals_of(ground: &Ground, figure: &Figure) -> SquareSet
    ensures { (o : List Bool) (p : PriceList) (R : Room) → IsGround o p R ground.now → (e : ℕ) → e < 64 → is_in result e ≡ is_goal R ground.now.base.side ground.now.base.frozen figure.now e }
{
    let free = free_squares(ground.base.frozen, figure);
    let mut goals = pawn_goals(ground.base.side, figure, free);
    is_whole(goals);
    for f in 0..8 {
        if is_promoted(ground, figure, free, f) {
            goals = goals.with(seen_by(ground.base.side, 56 + f));
        }
    }
    goals
}
