ghost use Rattle.std.specs.Prelude.{◌≡◌, ◌∷◌, [], ◌++◌, ◌&&◌, IfOk};
ghost use Rattle.std.specs.List.{filter};
ghost use Rattle.unmove_gen.specs.Listed.{unmoves_between, unmoves_of, unmoves_to};
ghost use Rattle.retraction_bars.specs.Ways.{comes_so, has_no_pawn_on_end, is_way, keeps_kind, may_come, passes_well};

use board_base::{Board, CastleSet, Colour, Kind, Move, Square, Unmove, is_a, is_of};
use play_rules::{is_end, may_go, promotion_fits};
use query_base::Query;
use std::alloc::{AllocError, Global};
use unmove_gen::{answered, take_back};

/// What the move made of a pawn, if it did, stands on the target.
fn keeps_kind(query: &Query, m: &Move) -> bool
    ensures { result ≡ keeps_kind query.now m.now }
{
    match m.promo {
        Some(kind) => is_a(kind, query.board.at(m.to)),
        None => true,
    }
}

/// No pawn stands there on rank 1 or 8.
fn has_no_pawn_on_end(board: &Board, s: Square) -> bool
    ensures { result ≡ has_no_pawn_on_end board.now s }
{
    !(is_end(s) && is_a(Kind::Pawn, board.at(s)))
}

/// A move that is marked en passant is a pawn's past another.
fn passes_well(board: &Board, colour: Colour, u: &Unmove) -> bool
    ensures { result ≡ passes_well board.now colour u.now }
{
    !u.ep || (is_a(Kind::Pawn, board.at(u.mv.from)) && answered(u, colour).is_some())
}

/// Whether men move so on that board, the rights to castle and the double step before a capture en passant granted.
fn may_come(board: &Board, colour: Colour, u: &Unmove) -> bool
    ensures { result ≡ may_come board.now colour u.now }
{
    may_go(board, colour, CastleSet::all(), &answered(u, colour), &u.mv)
}

/// On the board before it, the man goes so.
fn comes_so(board: &Board, colour: Colour, u: &Unmove) -> bool
    ensures { result ≡ comes_so board.now colour u.now }
{
    has_no_pawn_on_end(board, u.mv.from)
        && has_no_pawn_on_end(board, u.mv.to)
        && passes_well(board, colour, u)
        && promotion_fits(board, colour, &u.mv)
        && may_come(board, colour, u)
}

/// Whether the retraction is a way in which a man of the side that moved last may have come to his square, as men move: on the board
/// before it he goes so (articles 3.2 to 3.8), with no pawn on rank 1 or 8. Nothing is asked of who stands on the origin, of checks or
/// of demands.
#[tactic(auto, unfolding(crate::specs::Ways::is_way))]
pub fn is_way(query: &Query, u: &Unmove) -> bool
    ensures { result ≡ is_way query.now u.now }
{
    if !is_of(query.turn.other(), query.board.at(u.mv.to)) {
        return false;
    }
    keeps_kind(query, &u.mv) && comes_so(&take_back(&query.board, u), query.turn.other(), u)
}

/// Keeps the retraction if it is a way.
fn push_way(query: &Query, u: &Unmove, out: &mut Vec<Unmove>) -> Result<(), AllocError>
    ensures { IfOk result (λ _. out.new.items ≡ out.old.items ++ filter (is_way query.now) (u.now ∷ [])) }
{
    if is_way(query, u) {
        out.push(*u)?;
    }
    Ok(())
}

/// Keeps the retraction of a move and what it captured, if it is a way.
fn push_taking(
    query: &Query,
    m: &Move,
    captured: Option<Kind>,
    ep: bool,
    out: &mut Vec<Unmove>,
) -> Result<(), AllocError>
    ensures { IfOk result (λ _. out.new.items ≡ out.old.items ++ filter (is_way query.now) (record { mv = m.now; captured = captured; ep = ep } ∷ [])) }
{
    let u = Unmove {
        mv: *m,
        captured,
        ep,
    };
    push_way(query, &u, out)
}

/// The ways of a move: without a capture, with each capture on the target, and en passant.
fn push_ways_of(query: &Query, m: &Move, out: &mut Vec<Unmove>) -> Result<(), AllocError>
    ensures { IfOk result (λ _. out.new.items ≡ out.old.items ++ filter (is_way query.now) (unmoves_of m.now)) }
{
    push_taking(query, m, None, false, out)?;
    push_taking(query, m, Some(Kind::Pawn), false, out)?;
    push_taking(query, m, Some(Kind::Knight), false, out)?;
    push_taking(query, m, Some(Kind::Bishop), false, out)?;
    push_taking(query, m, Some(Kind::Rook), false, out)?;
    push_taking(query, m, Some(Kind::Queen), false, out)?;
    push_taking(query, m, Some(Kind::Pawn), true, out)
}

/// The ways between two squares, by one promotion or by none.
fn push_ways_by(
    query: &Query,
    from: Square,
    to: Square,
    promo: Option<Kind>,
    out: &mut Vec<Unmove>,
) -> Result<(), AllocError>
    ensures { IfOk result (λ _. out.new.items ≡ out.old.items ++ filter (is_way query.now) (unmoves_of (record { from = from; to = to; promo = promo }))) }
{
    push_ways_of(query, &Move { from, to, promo }, out)
}

/// The ways between two squares, first without a promotion, then with each.
#[tactic(auto, unfolding(play_rules::specs::Listed::moves_between))]
fn push_ways_between(
    query: &Query,
    from: Square,
    to: Square,
    out: &mut Vec<Unmove>,
) -> Result<(), AllocError>
    ensures { IfOk result (λ _. out.new.items ≡ out.old.items ++ filter (is_way query.now) (unmoves_between to from)) }
{
    push_ways_by(query, from, to, None, out)?;
    push_ways_by(query, from, to, Some(Kind::Knight), out)?;
    push_ways_by(query, from, to, Some(Kind::Bishop), out)?;
    push_ways_by(query, from, to, Some(Kind::Rook), out)?;
    push_ways_by(query, from, to, Some(Kind::Queen), out)?;
    Ok(())
}

/// The ways to a square, in the order of the candidates.
pub fn ways_to(alloc: Global, query: &Query, to: Square) -> Result<Vec<Unmove>, AllocError>
    ensures { IfOk result (λ v. v.items ≡ filter (is_way query.now) (unmoves_to to)) }
{
    let mut ways = Vec::new(alloc);
    for i in 0..64 {
        push_ways_between(query, Square::known(i), to, &mut ways)?;
    }
    Ok(ways)
}
