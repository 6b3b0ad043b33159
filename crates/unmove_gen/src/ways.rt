ghost use Rattle.std.specs.Prelude.{◌≡◌, ◌<◌, ◌≤◌, ◌||◌, ℕ, false, Option, Some};
ghost use Rattle.board_base.specs.declared.men.Kind.{Kind as AKind};
ghost use Rattle.board_base.specs.Board.{at, is_in};
ghost use Rattle.unmove_gen.specs.Ways.{IsNoWay, may_go_alone, may_have_made, reaches_last};

use crate::way_tables::{BISHOPS, BLACK_PAWNS, KINGS, KNIGHTS, ROOKS, WHITE_PAWNS};
use board_base::{Board, Colour, Kind, Man, Move, Square, SquareSet, last_rank};

/// The squares from which a man may go to this one on an empty board, or step or capture.
pub fn ways_to(colour: Colour, kind: Kind, to: Square) -> SquareSet
    ensures { (s : ℕ) → s < 64 → is_in result s ≡ may_go_alone colour kind s to }
{
    let place = to.index() as usize;
    let bits = match kind {
        Kind::Pawn => match colour {
            Colour::White => WHITE_PAWNS[place],
            Colour::Black => BLACK_PAWNS[place],
        },
        Kind::Knight => KNIGHTS[place],
        Kind::King => KINGS[place],
        Kind::Bishop => BISHOPS[place],
        Kind::Rook => ROOKS[place],
        Kind::Queen => ROOKS[place] | BISHOPS[place],
    };
    SquareSet::from_bits(bits)
}

/// This man may have made the move, as a pawn if he was promoted.
fn may_have_made(man: Man, m: &Move) -> bool
    ensures { result ≡ may_have_made (Some man) m.now }
{
    m.from.index();
    match m.promo {
        None => ways_to(man.colour, man.kind, m.to).has(m.from),
        Some(kind) => {
            kind == man.kind
                && m.to.rank() == last_rank(man.colour)
                && ways_to(man.colour, Kind::Pawn, m.to).has(m.from)
        }
    }
}

/// The man on the move's target may have made it.
pub fn is_way(board: &Board, m: &Move) -> bool
    ensures { result ≡ may_have_made (at board.now m.now.to) m.now }
{
    match board.at(m.to) {
        Some(man) => may_have_made(man, m),
        None => false,
    }
}

/// A man stands on the target, on the last rank of his colour.
pub fn reaches_last(board: &Board, m: &Move) -> bool
    ensures { result ≡ reaches_last (at board.now m.now.to) m.now.to }
{
    match board.at(m.to) {
        Some(man) => m.to.rank() == last_rank(man.colour),
        None => false,
    }
}

/// The squares of both sets.
fn joined(a: SquareSet, b: SquareSet) -> SquareSet
    ensures { (s : ℕ) → s < 64 → is_in result s ≡ (is_in a s || is_in b s) }
{
    SquareSet::from_bits(a.bits() | b.bits())
}

/// The squares from which the man on `to` may have come, as a pawn if he was promoted.
fn ways_of(man: Man, to: Square) -> SquareSet
    ensures { (s : ℕ) → s < 64 → is_in result s ≡ false → (promo : Option AKind) → may_have_made (Some man) (record { from = s; to = to; promo = promo }) ≡ false }
{
    let ways = ways_to(man.colour, man.kind, to);
    if to.rank() == last_rank(man.colour) {
        joined(ways, ways_to(man.colour, Kind::Pawn, to))
    } else {
        ways
    }
}

/// The first square from this one on that is empty and from which the man on `to` may have come, or 64.
pub fn next_way(board: &Board, man: Man, to: Square, start: u8) -> u8
    requires { start < 64 }
    ensures high { start ≤ result }
    ensures low { result ≤ 64 }
    ensures none { (s : ℕ) → start ≤ s → s < result → IsNoWay board.now (Some man) to s }
{
    let ways = ways_of(man, to);
    let mut s = ways.next_from(start);
    while s < 64 {
        if board.at(Square::known(s)).is_none() {
            return s;
        }
        s = ways.next_from(s + 1);
    }
    s
}
