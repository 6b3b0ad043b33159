ghost use Rattle.std.specs.Prelude.{◌≡◌, ◌&&◌, not};
ghost use Rattle.board_base.specs.Rights.{holds};
ghost use Rattle.board_base.specs.Game.{touches};
ghost use Rattle.unmove_gen.specs.Listed.{allows, fits_ends, keeps_held, obeys, obeys_clock, obeys_only, resets};

use board_base::{Board, Castle, Kind, Move, Unmove, is_a, is_move, is_of};
use castle_history::touches;
use query_base::Query;

/// The origin is empty, and a man of the side that moved stands on the target.
pub fn fits_ends(query: &Query, u: &Unmove) -> bool
    ensures { result ≡ fits_ends query.now u.now }
{
    query.board.at(u.mv.from).is_none() && is_of(query.turn.other(), query.board.at(u.mv.to))
}

fn keeps(query: &Query, m: &Move, castle: Castle) -> bool
    ensures { result ≡ not (holds query.now.held castle && touches m.now castle) }
{
    !(query.held.has(castle) && touches(m, castle))
}

/// No home of a right that is held is touched.
fn keeps_held(query: &Query, m: &Move) -> bool
    ensures { result ≡ keeps_held query.now m.now }
{
    keeps(query, m, Castle::WhiteShort)
        && keeps(query, m, Castle::WhiteLong)
        && keeps(query, m, Castle::BlackShort)
        && keeps(query, m, Castle::BlackLong)
}

/// Whether the move is the only one that the query allows as the last one, a pawn's, if it has one.
pub fn obeys_only(query: &Query, m: &Move) -> bool
    ensures { result ≡ obeys_only query.now.only query.now.board m.now }
{
    query.only.is_none() || (is_move(&query.only, m) && is_a(Kind::Pawn, query.board.at(m.to)))
}

/// The move is what the query asks of the last move.
pub fn obeys(query: &Query, m: &Move) -> bool
    ensures { result ≡ obeys query.now m.now }
{
    keeps_held(query, m) && obeys_only(query, m) && !is_move(&query.barred, m)
}

/// The move sets the clock to 0: a pawn made it, or it captured.
fn resets(board: &Board, u: &Unmove) -> bool
    ensures { result ≡ resets board.now u.now }
{
    is_a(Kind::Pawn, board.at(u.mv.to)) || u.mv.promo.is_some() || u.captured.is_some() || u.ep
}

/// A clock of 0 comes after a move that sets it to 0, and a higher one after another.
#[tactic(auto, using(crate::proofs::Clocked::allows_above))]
fn allows(clock: Option<u16>, reset: bool) -> bool
    ensures { result ≡ allows clock reset }
{
    match clock {
        Some(0) => reset,
        Some(_) => !reset,
        None => true,
    }
}

/// The clock that is demanded, if one is, is 0 if and only if the move sets it to 0.
pub fn obeys_clock(query: &Query, u: &Unmove) -> bool
    ensures { result ≡ obeys_clock query.now u.now }
{
    allows(query.clock, resets(&query.board, u))
}
