ghost use Rattle.std.specs.Prelude.{◌≡◌, ◌&&◌, ◌||◌, ◌==◌, ◌<◌, not};
ghost use Rattle.board_base.specs.Board.{at, is_in};
ghost use Rattle.board_base.specs.Play.{king_home, rook_home};
ghost use Rattle.board_base.specs.Rights.{holds};
ghost use Rattle.cage_rules.specs.Frozen.{is_held_home, is_past_home};
ghost use Rattle.cage_rules.specs.Sets.{squares_that, union};
ghost use Rattle.cage_rules.specs.Tests.{as_pawn, kept, loose, on_diagonals, on_lines, ways_of, with_place};

use crate::sets::{both, either, outside, with_if};
use crate::steps::{diagonal_steps, knight_steps, line_steps, pawn_steps};
use board_base::{Castle, CastleSet, Colour, Kind, Man, Square, SquareSet, last_rank};
use play_rules::home;
use query_base::Query;

/// The squares of a query's men, by the ways in which men come to them. A man may be in several of the sets.
#[derive(Clone, Copy)]
pub(crate) struct Ways {
    /// The squares on which somebody stands.
    occupied: SquareSet,
    /// The homes of the rights that are held.
    held: SquareSet,
    /// Those of rooks, queens and kings.
    lines: SquareSet,
    /// Those of bishops, queens and kings.
    diagonals: SquareSet,
    /// Those of knights.
    knights: SquareSet,
    /// Those to which the men on them may have come as white pawns, also by promotion.
    white_pawns: SquareSet,
    /// Those to which the men on them may have come as black pawns, also by promotion.
    black_pawns: SquareSet,
}

/// The homes of the castling's king and rook if its right is held, else none.
fn homes_of(held: CastleSet, castle: Castle) -> SquareSet
    ensures { result ≡ squares_that (λ s. holds held castle && ((king_home castle == s) || (rook_home castle == s))) }
{
    let none = SquareSet::from_bits(0);
    let (king, rook) = home(castle);
    if held.has(castle) {
        none.with(king).with(rook)
    } else {
        none
    }
}

/// The homes of the kings and the rooks of the castlings that are held.
fn held_homes(held: CastleSet) -> SquareSet
    ensures { result ≡ squares_that (is_held_home held) }
{
    let white = either(
        homes_of(held, Castle::WhiteShort),
        homes_of(held, Castle::WhiteLong),
    );
    let black = either(
        homes_of(held, Castle::BlackShort),
        homes_of(held, Castle::BlackLong),
    );
    either(white, black)
}

/// Whether a pawn of this colour on `s` has moved, and is not to be promoted there.
fn is_past_home(colour: Colour, s: Square) -> bool
    ensures { result ≡ is_past_home colour s }
{
    match colour {
        Colour::White => 1 < s.rank() && s.rank() < 7,
        Colour::Black => 0 < s.rank() && s.rank() < 6,
    }
}

/// Whether a man of this colour and kind may have come to `s` as a pawn: one that moved there, or that was promoted there.
#[tactic(auto, unfolding(crate::specs::Tests::as_pawn))]
fn as_pawn(colour: Colour, kind: Kind, s: Square) -> bool
    ensures { result ≡ as_pawn colour kind s }
{
    match kind {
        Kind::Pawn => is_past_home(colour, s),
        Kind::King => false,
        Kind::Knight | Kind::Bishop | Kind::Rook | Kind::Queen => s.rank() == last_rank(colour),
    }
}

fn goes_on_lines(kind: Kind) -> bool
    ensures { result ≡ on_lines kind }
{
    kind == Kind::Rook || kind == Kind::Queen || kind == Kind::King
}

fn goes_on_diagonals(kind: Kind) -> bool
    ensures { result ≡ on_diagonals kind }
{
    kind == Kind::Bishop || kind == Kind::Queen || kind == Kind::King
}

/// The sets, with what stands on `s` added to those of its ways.
fn with_place(ways: Ways, s: Square, place: Option<Man>) -> Ways
    ensures { result ≡ with_place ways s place }
{
    match place {
        Some(man) => Ways {
            occupied: ways.occupied.with(s),
            held: ways.held,
            lines: with_if(ways.lines, s, goes_on_lines(man.kind)),
            diagonals: with_if(ways.diagonals, s, goes_on_diagonals(man.kind)),
            knights: with_if(ways.knights, s, man.kind == Kind::Knight),
            white_pawns: with_if(
                ways.white_pawns,
                s,
                man.colour == Colour::White && as_pawn(Colour::White, man.kind, s),
            ),
            black_pawns: with_if(
                ways.black_pawns,
                s,
                man.colour == Colour::Black && as_pawn(Colour::Black, man.kind, s),
            ),
        },
        None => ways,
    }
}

/// The squares of the query's men, by the ways in which they may have come there.
pub(crate) fn ways_of(query: &Query) -> Ways
    ensures { result ≡ ways_of query.now }
{
    let none = SquareSet::from_bits(0);
    let mut ways = Ways {
        occupied: none,
        held: held_homes(query.held),
        lines: none,
        diagonals: none,
        knights: none,
        white_pawns: none,
        black_pawns: none,
    };
    for i in 0..64 {
        let s = Square::known(i);
        ways = with_place(ways, s, query.board.at(s));
    }
    ways
}

/// The squares to which the man may have come from a square that is not in the set, or over one as the last.
fn loose(ways: &Ways, set: SquareSet) -> SquareSet
    ensures { result ≡ loose ways.now set }
{
    let open = outside(set);
    let on_lines = both(ways.lines, line_steps(open));
    let on_diagonals = both(ways.diagonals, diagonal_steps(open));
    let knights = both(ways.knights, knight_steps(open));
    let white = both(ways.white_pawns, pawn_steps(Colour::White, open));
    let black = both(ways.black_pawns, pawn_steps(Colour::Black, open));
    either(
        either(either(on_lines, on_diagonals), knights),
        either(white, black),
    )
}

/// The squares of the set that can't have been left while its other men stood.
pub(crate) fn kept(ways: &Ways, set: SquareSet) -> SquareSet
    ensures { result ≡ kept ways.now set }
{
    both(
        both(set, ways.occupied),
        either(ways.held, outside(loose(ways, set))),
    )
}
