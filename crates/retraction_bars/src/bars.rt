ghost use Rattle.std.specs.Prelude.{◌≡◌, ◌&&◌, not};
ghost use Rattle.board_base.specs.Game.{touches};
ghost use Rattle.board_base.specs.Rights.{holds};
ghost use Rattle.unmove_gen.specs.Listed.{answered, has_left};
ghost use Rattle.retraction_bars.specs.Bars.{bars, is_late};

use crate::checks::gives_check;
use board_base::{Castle, Colour, Move, Square, Unmove, is_move};
use castle_history::touches;
use men_account::account_ok;
use query_base::Query;
use unmove_gen::{answered, is_listed, obeys_clock, obeys_only, take_back};

/// Why a retraction is none: the first of the tests of a last move that it fails, in the terms of the board.
#[derive(Clone, Copy, PartialEq, Eq, Debug)]
pub enum Bar {
    /// The last move had to be a double step, and this isn't it.
    Only,
    /// With the move taken back, another man, on this square, gave check already, with his own side to move (article 3.9).
    Check(Square),
    /// Somebody stands on the origin.
    Occupied,
    /// From the origin he attacked the king already, with his own side to move (article 3.9).
    Itself,
    /// The move begins or ends on a home of a right that is held (article 3.8.2.1).
    Held(Castle),
    /// The move is barred.
    Barred,
    /// With the move taken back, this side has more pawns and men that must have been promoted than it began with pawns.
    Account(Colour),
    /// The clock doesn't allow the move (article 9.3).
    Clock,
    /// The pawn that was taken en passant can't have made its double step: somebody stands on the square that it left.
    Passed,
    /// It isn't listed.
    Otherwise,
}

/// Whether the right is held, and the move begins or ends on one of its homes.
fn touches_held(query: &Query, m: &Move, castle: Castle) -> bool
    ensures { result ≡ (holds query.now.held castle && touches m.now castle) }
{
    query.held.has(castle) && touches(m, castle)
}

/// It captures en passant a pawn whose home isn't empty.
fn is_late(query: &Query, u: &Unmove) -> bool
    ensures { result ≡ is_late query.now u.now }
{
    match answered(u, query.turn.other()) {
        Some(double) => take_back(&query.board, u).at(double.from).is_some(),
        None => false,
    }
}

/// Whether this bars the retraction.
#[tactic(auto, unfolding(crate::specs::Bars::bars))]
pub fn is_barred(query: &Query, u: &Unmove, bar: Bar) -> bool
    ensures { result ≡ bars bar query.now u.now }
{
    let mover = query.turn.other();
    match bar {
        Bar::Only => !obeys_only(query, &u.mv),
        Bar::Check(s) => s != u.mv.from && gives_check(&take_back(&query.board, u), mover, s),
        Bar::Occupied => query.board.at(u.mv.from).is_some(),
        Bar::Itself => gives_check(&take_back(&query.board, u), mover, u.mv.from),
        Bar::Held(castle) => touches_held(query, &u.mv, castle),
        Bar::Barred => is_move(&query.barred, &u.mv),
        Bar::Account(side) => !account_ok(&take_back(&query.board, u), side, query.odds),
        Bar::Clock => !obeys_clock(query, u),
        Bar::Passed => is_late(query, u),
        Bar::Otherwise => !is_listed(query, u),
    }
}
